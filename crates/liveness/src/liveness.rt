//! What is live before each point of a flow.

ghost use Rattle.std.specs.Prelude.{◌≡◌, IfOk, IfErr};
ghost use Rattle.liveness.specs.Paths.{NamesPoints};
ghost use Rattle.liveness.specs.Faults.{AreLive, IsLiveDenial};

use crate::spots::spots_of;
use crate::worklist::settled;
use crate::{Boundary, Live};
use elf_model::Deny;
use flow_recover::{Flow, first_of};
use std::alloc::Global;

/// The members that are live before each point. Refuses `LiveAtEntry`, at an entry before which r12 or
/// a flag is live, and `LiveAtReturn`, at a call after which r12, lr or a flag is live where it returns
/// to. The first by section, offset and number is named, with its lowest register. The file is 0.
pub fn live(alloc: Global, f: &Flow, b: &Boundary) -> Result<Live, Deny>
    requires { NamesPoints f.now }
    ensures live { IfOk result (λ l. AreLive f.now b.now l) }
    ensures refused { IfErr result (λ why. IsLiveDenial f.now b.now why) }
{
    let sets = settled(alloc, f, b)?;
    let spots = spots_of(alloc, f, &sets)?;
    match first_of(&spots) {
        Some(spot) => Err(Deny::Refused(spot)),
        None => Ok(sets),
    }
}
