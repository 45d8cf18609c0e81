//! Relocations by their places, and whether they may stand there.

ghost use Rattle.std.specs.Prelude.{◌≡◌, ◌↔◌, ℕ, ◌==◌, ◌&&◌, true, Some, if◌then◌else◌, IfOk, OnOk, IsTrue};
ghost use Rattle.std.specs.BTreeMap.{get};
ghost use Rattle.std.specs.BTreeSet.{contains};
ghost use Rattle.elf_model.specs.Objects.{is_within, is_reloc};
ghost use Rattle.code_ranges.specs.Spans.{place_cmp};
ghost use Rattle.reloc_places.specs.Placement.{end_in as end_of_reach, reach_with as reach_and, MayStand};
ghost use Rattle.reloc_places.specs.Tables.{AreStarts, AreWords, AreRelocs};

use crate::places::{is_place, is_straight};
use elf_model::{Limit, Object, Reloc};
use std::alloc::{AllocError, Global};
use std::collections::{BTreeMap, BTreeSet};

/// A relocation by its index in the object. `right` says that it may stand where it does.
#[derive(Clone, Copy, Debug)]
pub struct Placed {
    pub index: u32,
    pub right: bool,
}

/// Where the last byte of the relocations so far ends, in the section of the last one.
#[derive(Clone, Copy, Debug)]
struct Reach {
    section: u32,
    end: u64,
}

/// How far the relocations so far reach in a section.
fn end_in(reach: Reach, section: u32) -> u64
    ensures { result ≡ end_of_reach reach section }
{
    if reach.section == section {
        reach.end
    } else {
        0
    }
}

/// The reach with one more relocation.
fn reach_with(reach: Reach, r: &Reloc) -> Reach
    ensures { result ≡ reach_and reach r.now }
{
    let end = u64::from(r.offset) + u64::from(r.kind.width());
    Reach {
        section: r.section,
        end: end.max(end_in(reach, r.section)),
    }
}

/// Whether a relocation may stand where it does, behind others that reach up to `end`.
fn may_stand(
    o: &Object,
    starts: &BTreeMap<(u32, u32), u32>,
    words: &BTreeSet<(u32, u32)>,
    end: u64,
    r: &Reloc,
) -> bool
    requires within { IsTrue (is_within o.now Limit.ANY) }
    requires starts { AreStarts o.now (λ j x. get place_cmp starts.now (j, x)) }
    requires words { AreWords o.now (λ j w. contains place_cmp words.now (j, w)) }
    requires good { is_reloc o.now.sections o.now.symbols r.now ≡ true }
    ensures { IsTrue result ↔ MayStand o.now end r.now }
{
    if is_place(o, starts, words, r) {
        end <= u64::from(r.offset) && is_straight(o, r)
    } else {
        false
    }
}

/// Keeps a relocation by its place.
fn note_reloc(
    relocs: &mut BTreeMap<(u32, u32), Placed>,
    r: &Reloc,
    placed: Placed,
) -> Result<(), AllocError>
    ensures { OnOk result ((j x : ℕ) → get place_cmp relocs.new (j, x) ≡ (if (r.now.section == j) && (r.now.offset == x) then Some placed else get place_cmp relocs.old (j, x))) }
{
    relocs.insert((r.section, r.offset), placed)?;
    Ok(())
}

/// The relocations of an object by their places (ELF for the Arm Architecture, relocation codes).
pub fn relocs_by_place(
    alloc: Global,
    o: &Object,
    starts: &BTreeMap<(u32, u32), u32>,
    words: &BTreeSet<(u32, u32)>,
) -> Result<BTreeMap<(u32, u32), Placed>, AllocError>
    requires within { IsTrue (is_within o.now Limit.ANY) }
    requires starts { AreStarts o.now (λ j x. get place_cmp starts.now (j, x)) }
    requires words { AreWords o.now (λ j w. contains place_cmp words.now (j, w)) }
    ensures { IfOk result (λ relocs. AreRelocs o.now (λ j x. get place_cmp relocs (j, x))) }
{
    o.sound();
    let mut relocs = BTreeMap::new(alloc);
    let mut reach = Reach { section: 0, end: 0 };
    for (k, r) in o.relocs().iter().enumerate() {
        let right = may_stand(o, starts, words, end_in(reach, r.section), r);
        let index = k as u32;
        note_reloc(&mut relocs, r, Placed { index, right })?;
        reach = reach_with(reach, r);
    }
    Ok(relocs)
}
