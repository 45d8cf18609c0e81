//! Relocations that are not right: of a kind, or on a place, that is not handled.

ghost use Rattle.std.specs.Prelude.{◌≡◌, ◌↔◌, ◌≤◌, ℕ, Some, slice_get, length, All, IfOk, IsTrue};
ghost use Rattle.std.specs.BTreeMap.{get};
ghost use Rattle.elf_model.specs.Objects.{is_within};
ghost use Rattle.code_ranges.specs.Spans.{place_cmp};
ghost use Rattle.code_ranges.specs.Spots.{spot_in};
ghost use Rattle.reloc_places.specs.Relocations.{IsRight};
ghost use Rattle.reloc_places.specs.Tables.{AreRelocs};
ghost use Rattle.flat_link.specs.Misplaced.{IsFirstWrong, IsFirstMisplaced};

use crate::starts::{starts_of, words_of};
use code_ranges::all_ranges;
use elf_model::{Limit, Object, Refusal, Reloc, Spot};
use reloc_places::{Placed, relocs_by_place};
use std::alloc::{AllocError, Global};
use std::collections::BTreeMap;

/// Whether relocation `k` of an object is right.
fn is_right(o: &Object, relocs: &BTreeMap<(u32, u32), Placed>, k: usize, r: &Reloc) -> bool
    requires relocs { AreRelocs o.now (λ j x. get place_cmp relocs.now (j, x)) }
    requires there { slice_get o.now.relocs k ≡ Some r.now }
    ensures { IsTrue result ↔ IsRight o.now k r.now }
{
    o.sound();
    match relocs.get(&(r.section, r.offset)) {
        None => false,
        Some(placed) => placed.right,
    }
}

/// The relocations of an object by their places, each with whether it is right.
fn placed_relocs(alloc: Global, o: &Object) -> Result<BTreeMap<(u32, u32), Placed>, AllocError>
    requires { IsTrue (is_within o.now Limit.ANY) }
    ensures { IfOk result (λ relocs. AreRelocs o.now (λ j x. get place_cmp relocs (j, x))) }
{
    let spans = all_ranges(alloc, o)?;
    let starts = starts_of(alloc, o, &spans)?;
    let words = words_of(alloc, o, &spans)?;
    relocs_by_place(alloc, o, &starts, &words)
}

/// The number of the first relocation of an object that is not right.
fn first_wrong(alloc: Global, o: &Object) -> Result<Option<u32>, AllocError>
    requires { IsTrue (is_within o.now Limit.ANY) }
    ensures { IfOk result (λ k. IsFirstWrong o.now k) }
{
    let relocs = placed_relocs(alloc, o)?;
    for (k, r) in o.relocs().iter().enumerate() {
        if !is_right(o, &relocs, k, r) {
            return Ok(Some(k as u32));
        }
    }
    Ok(None)
}

/// The spot of relocation `k` of an object.
fn misplaced_at(file: u32, o: &Object, k: u32) -> Option<Spot>
    requires { (r : Reloc) × (slice_get o.now.relocs k ≡ Some r) }
    ensures { (r : Reloc) → slice_get o.now.relocs k ≡ Some r → result ≡ Some (spot_in Refusal.RelocKind file r.section r.offset) }
{
    match o.relocs().get(k as usize) {
        None => None,
        Some(r) => Some(Spot {
            refusal: Refusal::RelocKind,
            file,
            section: r.section,
            offset: r.offset,
        }),
    }
}

/// The spot of the first relocation that is not right.
pub(crate) fn first_misplaced(alloc: Global, objects: &[Object]) -> Result<Option<Spot>, AllocError>
    requires few { length objects.now ≤ 16 }
    requires within { All (λ o. IsTrue (is_within o Limit.ANY)) objects.now }
    ensures { IfOk result (λ spot. IsFirstMisplaced objects.now spot) }
{
    for (i, o) in objects.iter().enumerate() {
        match first_wrong(alloc, o)? {
            Some(k) => return Ok(misplaced_at(i as u32, o, k)),
            None => {}
        }
    }
    Ok(None)
}
