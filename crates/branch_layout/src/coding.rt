//! The codes of placed units.

ghost use Rattle.std.specs.Prelude.{◌≡◌, ◌≤◌, IfOk, length};
ghost use Rattle.std.specs.List.{AllZip, zip};
ghost use Rattle.thumb_encode.specs.declared.codes.Code.{Code as CodeValue};
ghost use Rattle.thumb_encode.specs.Encoding.{IsCodeOf};
ghost use Rattle.branch_layout.specs.Placings.{places_of, IsStretch};
ghost use Rattle.branch_layout.specs.Layouts.{IsFirstCode, AreCodes, IsPlacedUnit, landing_place};
ghost use Rattle.branch_layout.specs.Coding.{CanCode, AllCanCode};

use crate::aiming::placed_instr;
use crate::copies::{bytes_of, copies_of};
use crate::standing::Placing;
use crate::stretches::Stretch;
use seq_core::{PlacedUnit, Seq, Unit};
use std::alloc::{AllocError, Global};
use thumb_encode::{Code, Width, encode};
use thumb_instr::Instr;

/// The code of an instruction that has one.
fn code_of(instr: &Instr, width: Width) -> Code
    requires { (c : CodeValue) × IsCodeOf instr.now width c }
    ensures { IsFirstCode instr.now width result }
{
    encode(instr, width).unwrap()
}

/// The codes of a unit's copies, each with the number that leads from its own offset.
fn codes_of(
    alloc: Global,
    placing: &Placing,
    unit: &Unit,
    stretch: &Stretch,
) -> Result<Vec<Code>, AllocError>
    requires stretch { IsStretch unit.now stretch.now }
    requires coded { length unit.now.seq.steps ≤ 8 → CanCode (places_of placing.now) unit.now stretch.now }
    ensures { IfOk result (λ codes. AreCodes (places_of placing.now) unit.now stretch.now codes.items) }
{
    let copies = copies_of(alloc, unit.seq.steps())?;
    let widths = stretch.widths();
    let mut codes = Vec::new(alloc);
    let mut at = stretch.start();
    for k in 0..copies.len() {
        let instr = placed_instr(placing, unit, stretch, at, &copies[k]);
        codes.push(code_of(&instr, widths[k]))?;
        at += bytes_of(widths[k]);
    }
    Ok(codes)
}

/// Another unit like this one.
fn copy_of(unit: &Unit) -> Unit
    ensures { result ≡ unit.now }
{
    let steps = unit.seq.steps();
    let landing = unit.seq.landing() as usize;
    let mut seq = Seq::new();
    seq.push_all(&steps[..landing]);
    seq.land_all(&steps[landing..]);
    Unit {
        section: unit.section,
        old: unit.old,
        seq,
        target: unit.target,
        word: unit.word,
        reloc: unit.reloc,
    }
}

/// The offset of a unit's landing, if it has one.
fn landing_of(unit: &Unit, stretch: &Stretch) -> Option<u32>
    ensures { result ≡ landing_place unit.now stretch.now.place }
{
    let landing = unit.seq.landing() as usize;
    if landing < unit.seq.steps().len() {
        Some(stretch.back())
    } else {
        None
    }
}

/// A unit at its place, with its codes.
fn placed_unit(
    alloc: Global,
    placing: &Placing,
    unit: &Unit,
    stretch: &Stretch,
) -> Result<PlacedUnit, AllocError>
    requires stretch { IsStretch unit.now stretch.now }
    requires coded { length unit.now.seq.steps ≤ 8 → CanCode (places_of placing.now) unit.now stretch.now }
    ensures { IfOk result (λ placed. IsPlacedUnit (places_of placing.now) (unit.now, stretch.now) placed) }
{
    let codes = codes_of(alloc, placing, unit, stretch)?;
    let start = stretch.start();
    let length = stretch.end() - start;
    let landing = landing_of(unit, stretch);
    Ok(PlacedUnit::new(copy_of(unit), start, length, codes, landing, None))
}

/// All units at their places.
pub(crate) fn placed_units(
    alloc: Global,
    units: &[Unit],
    placing: &Placing,
) -> Result<Vec<PlacedUnit>, AllocError>
    requires stretches { AllZip IsStretch units.now placing.now.units }
    requires coded { AllCanCode units.now placing.now }
    ensures { IfOk result (λ placed. AllZip (IsPlacedUnit (places_of placing.now)) (zip units.now placing.now.units) placed.items) }
{
    let stretches = placing.units();
    let mut placed = Vec::new(alloc);
    for k in 0..units.len() {
        placed.push(placed_unit(alloc, placing, &units[k], &stretches[k])?)?;
    }
    Ok(placed)
}
