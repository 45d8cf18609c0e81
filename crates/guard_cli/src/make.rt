//! What `make` says of a seed and a count.

ghost use Rattle.std.specs.Prelude.{◌≤◌, ℕ, List, IfOk};
ghost use Rattle.guard_cli.specs.MakeWork.{make_work};
ghost use Rattle.guard_cli.specs.Steps.{IsMadeBy};

use crate::tasks::{Made, saying};
use make_run::make;
use std::alloc::{AllocError, Global};

/// The five lines. Nothing stands in the way of them but want of memory.
pub(crate) fn decide(alloc: Global, seed: u32, count: u32) -> Result<Made, AllocError>
    requires low { 1 ≤ count }
    requires high { count ≤ 4000 }
    ensures { IfOk result (λ made. (loaded : List (List ℕ)) → IsMadeBy (make_work (record { seed = seed; count = count })) loaded made) }
{
    let text = make(alloc, seed, count)?;
    Ok(saying(alloc, text.into_bytes(), None))
}
