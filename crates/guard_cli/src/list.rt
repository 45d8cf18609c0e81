//! What `list` makes of an input: its code, as text.

ghost use Rattle.std.specs.Prelude.{◌≡◌, ◌∷◌, [], IfOk, IfErr};
ghost use Rattle.guard_cli.specs.Inputs.{IsTurnedDown};
ghost use Rattle.guard_cli.specs.ListWork.{IsListRefusal, list_work};
ghost use Rattle.guard_cli.specs.Steps.{IsMadeBy};

use crate::loading::at_start;
use crate::tasks::{Made, saying};
use elf_model::{Deny, Limit, Refusal};
use elf_read::read_object;
use std::alloc::Global;

/// The listing of an input of these bytes, or why there is none.
pub(crate) fn decide(alloc: Global, bytes: &[u8]) -> Result<Made, Deny>
    ensures made { IfOk result (IsMadeBy (list_work []) (bytes.now ∷ [])) }
    ensures refused { IfErr result (IsTurnedDown (IsListRefusal bytes.now)) }
{
    if bytes.len() > Limit::ANY.file as usize {
        return Err(Deny::Refused(at_start(Refusal::TooLong)));
    }
    let read = read_object(alloc, bytes, &Limit::ANY)?;
    let text = listing::listing(alloc, &read.object)?;
    Ok(saying(alloc, text, None))
}
