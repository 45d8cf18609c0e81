//! The layout of units and words.

ghost use Rattle.std.specs.Prelude.{IfOk, IfErr};
ghost use Rattle.branch_layout.specs.Given.{CanLay};
ghost use Rattle.branch_layout.specs.Faults.{IsLayDenial};
ghost use Rattle.branch_layout.specs.Layouts.{ArePlaces, IsLayout};

use crate::coding::placed_units;
use crate::laws::numbers_have_codes;
use crate::reach::first_fault;
use crate::standing::{Placing, place};
use elf_model::Deny;
use flow_recover::PoolWord;
use seq_core::{Layout, Unit};
use std::alloc::Global;

/// The places of units and words in the long layout: branches and literal loads have two halfwords, CBZ and CBNZ one,
/// everything else one where it can. In each section units and words stand one behind the other, by their old offsets,
/// words at multiples of 4. Offsets and sizes are in bytes.
///
/// # Errors
///
/// `OutOfReach` where a copy of a literal load is more than 4,095 bytes from its word (ARMv7-M ARM, A7.7.43),
/// `CodeTooBig` where a section has more than 524,288 bytes, and where memory does not suffice.
pub fn places(alloc: Global, units: &[Unit], words: &[PoolWord]) -> Result<Placing, Deny>
    requires { CanLay units.now words.now }
    ensures placing { IfOk result (λ p. ArePlaces units.now words.now p) }
    ensures refused { IfErr result (λ why. IsLayDenial units.now words.now why) }
{
    let placing = place(alloc, units, words)?;
    match first_fault(alloc, units, words, &placing)? {
        Some(spot) => Err(Deny::Refused(spot)),
        None => Ok(placing),
    }
}

/// The long layout of units and words: their places, and the code of each copy of each step, with the number that leads
/// from the copy's own offset to its goal.
///
/// # Errors
///
/// As `places`.
pub fn lay(alloc: Global, units: &[Unit], words: &[PoolWord]) -> Result<Layout, Deny>
    requires { CanLay units.now words.now }
    ensures layout { IfOk result (λ l. IsLayout units.now words.now l) }
    ensures refused { IfErr result (λ why. IsLayDenial units.now words.now why) }
{
    numbers_have_codes();
    let placing = places(alloc, units, words)?;
    let placed = placed_units(alloc, units, &placing)?;
    Ok(placing.layout_of(placed))
}
