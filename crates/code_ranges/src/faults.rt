//! What stands in the way of ranges.

ghost use Rattle.std.specs.Prelude.{◌≡◌, ◌≤◌, ℕ, ◌++◌, IfOk, OnOk, length};
ghost use Rattle.std.specs.BTreeMap.{get};
ghost use Rattle.code_ranges.specs.Spans.{place_cmp, kind_at};
ghost use Rattle.code_ranges.specs.Spots.{spot_of, unmapped_spot, unmapped_spots, arm_spot, arm_spots, function_spot, function_spots, earlier, IsFirst};
ghost use Rattle.code_ranges.specs.CodeRanges.{comes_before};

use crate::spans::Span;
use elf_model::numbers::FUNC;
use elf_model::{Home, RangeKind, Refusal, Section, Spot, Symbol, is_code};
use std::alloc::{AllocError, Global};
use std::collections::BTreeMap;

/// The spot of a refusal, with file 0.
pub fn spot_of(refusal: Refusal, section: u32, offset: u32) -> Spot
    ensures { result ≡ spot_of refusal section offset }
{
    Spot {
        refusal,
        file: 0,
        section,
        offset,
    }
}

/// A code section that does not begin with a mapping symbol.
fn unmapped_spot(
    starts: &BTreeMap<(u32, u32), RangeKind>,
    section: u32,
    s: &Section,
) -> Option<Spot>
    ensures { result ≡ unmapped_spot (get place_cmp starts.now (section, 0)) section s.now }
{
    let begins = starts.contains_key(&(section, 0));
    if is_code(s) && 0 < s.size && !begins {
        Some(spot_of(Refusal::NoMapping, section, 0))
    } else {
        None
    }
}

/// Adds the code sections that do not begin with a mapping symbol.
fn push_unmapped(
    spots: &mut Vec<Spot>,
    starts: &BTreeMap<(u32, u32), RangeKind>,
    sections: &[Section],
    symbols: &[Symbol],
) -> Result<(), AllocError>
    requires few { length sections.now ≤ 1024 }
    requires starts { (j x : ℕ) → get place_cmp starts.now (j, x) ≡ kind_at symbols.now j x }
    ensures { OnOk result (spots.new.items ≡ spots.old.items ++ unmapped_spots symbols.now 0 sections.now) }
{
    for (k, s) in sections.iter().enumerate() {
        if let Some(spot) = unmapped_spot(starts, k as u32, s) {
            spots.push(spot)?;
        }
    }
    Ok(())
}

/// A span of Arm code.
fn arm_spot(s: Span) -> Option<Spot>
    ensures { result ≡ arm_spot s }
{
    match s.kind {
        RangeKind::Arm => Some(spot_of(Refusal::ArmCode, s.section, s.start)),
        RangeKind::Code => None,
        RangeKind::Data => None,
    }
}

/// Adds the spans of Arm code.
fn push_arm(spots: &mut Vec<Spot>, spans: &[Span]) -> Result<(), AllocError>
    ensures { OnOk result (spots.new.items ≡ spots.old.items ++ arm_spots spans.now) }
{
    for s in spans {
        if let Some(spot) = arm_spot(*s) {
            spots.push(spot)?;
        }
    }
    Ok(())
}

/// A function in code whose value has bit 0 clear.
fn function_spot(sections: &[Section], f: &Symbol) -> Option<Spot>
    ensures { result ≡ function_spot sections.now f.now }
{
    match f.home {
        Home::Undefined => None,
        Home::Absolute => None,
        Home::Section(j) => match sections.get(j as usize) {
            None => None,
            Some(s) => if f.kind == FUNC && f.value % 2 == 0 && is_code(s) {
                Some(spot_of(Refusal::ArmCode, j, f.value))
            } else {
                None
            },
        },
    }
}

/// Adds the functions in code whose values have bit 0 clear.
fn push_functions(
    spots: &mut Vec<Spot>,
    sections: &[Section],
    symbols: &[Symbol],
) -> Result<(), AllocError>
    ensures { OnOk result (spots.new.items ≡ spots.old.items ++ function_spots sections.now symbols.now) }
{
    for f in symbols {
        if let Some(spot) = function_spot(sections, f) {
            spots.push(spot)?;
        }
    }
    Ok(())
}

/// All that stands in the way, in no order.
pub(crate) fn spots_of(
    alloc: Global,
    sections: &[Section],
    symbols: &[Symbol],
    starts: &BTreeMap<(u32, u32), RangeKind>,
    spans: &[Span],
) -> Result<Vec<Spot>, AllocError>
    requires few { length sections.now ≤ 1024 }
    requires starts { (j x : ℕ) → get place_cmp starts.now (j, x) ≡ kind_at symbols.now j x }
    ensures { IfOk result (λ spots. spots.items ≡ (unmapped_spots symbols.now 0 sections.now ++ arm_spots spans.now) ++ function_spots sections.now symbols.now) }
{
    let mut spots = Vec::new(alloc);
    push_unmapped(&mut spots, starts, sections, symbols)?;
    push_arm(&mut spots, spans)?;
    push_functions(&mut spots, sections, symbols)?;
    Ok(spots)
}

/// Whether a spot comes before another: by section, then by offset, then by number.
fn comes_before(a: Spot, b: Spot) -> bool
    ensures { result ≡ comes_before a.refusal a.section a.offset b }
{
    a.section < b.section
        || (a.section == b.section
            && (a.offset < b.offset
                || (a.offset == b.offset && a.refusal.number() < b.refusal.number())))
}

/// The one of two spots that comes first.
fn earlier(first: Option<Spot>, spot: Spot) -> Spot
    ensures { result ≡ earlier first spot }
{
    match first {
        None => spot,
        Some(old) => if comes_before(spot, old) { spot } else { old },
    }
}

/// The first of several refusals by section, offset and number, if there is one.
pub fn first_of(spots: &[Spot]) -> Option<Spot>
    ensures { IsFirst spots.now result }
{
    let mut first: Option<Spot> = None;
    for s in spots {
        first = Some(earlier(first, *s));
    }
    first
}
