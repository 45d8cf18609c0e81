//! The words that literal loads name.

ghost use Rattle.std.specs.Prelude.{◌≡◌, ◌↔◌, ◌≤◌, ◌^◌, ℕ, Some, true, map, length, ◌+◌, IfOk, OnOk};
ghost use Rattle.std.specs.BTreeSet.{contains, btree_set_len, IsOrdered};
ghost use Rattle.elf_model.specs.Objects.{ObjectParts};
ghost use Rattle.code_ranges.specs.Spans.{place_cmp};
ghost use Rattle.flow_recover.specs.FlowFaults.{literal_place as literal_place_of};
ghost use Rattle.reloc_places.specs.Relocations.{reloc_at};
ghost use Rattle.flow_recover.specs.Charts.{IsChart};
ghost use Rattle.flow_recover.specs.Gains.{PlacesGain};
ghost use Rattle.flow_recover.specs.Visits.{IsVisit, AreVisits};
ghost use Rattle.flow_recover.specs.Settled.{IsNamedBy, IsLoad, IsLoadedPlace, ArePlaces, word_at};

use crate::PoolWord;
use crate::charts::Chart;
use crate::nodes::Node;
use crate::visits::Visit;
use elf_model::Object;
use std::alloc::{AllocError, Global};
use std::collections::BTreeSet;
use thumb_instr::{Instr, Literal};

/// Where a literal load at an offset takes its word from, if that is not below 0 (ARMv7-M ARM, A7.7.43).
pub(crate) fn literal_place(offset: u32, l: &Literal) -> Option<u32>
    requires { offset ≤ 2 ^ 24 }
    ensures { result ≡ literal_place_of offset l.now }
{
    let base = (offset + 4) / 4 * 4;
    let by = u32::from(l.imm);
    if l.up {
        Some(base + by)
    } else if by <= base {
        Some(base - by)
    } else {
        None
    }
}

/// The place of the word that an instruction at a node names, if it is a literal load.
fn named_by(n: Node, i: &Instr) -> Option<(u32, u32)>
    requires { n.offset ≤ 2 ^ 24 }
    ensures { (p : ℕ × ℕ) → (result ≡ Some p) ↔ IsNamedBy n i.now p }
{
    match i {
        Instr::Literal(l) => match literal_place(n.offset, l) {
            Some(w) => Some((n.section, w)),
            None => None,
        },
        _ => None,
    }
}

/// Adds the place that an instruction names.
fn note_load(places: &mut BTreeSet<(u32, u32)>, o: &Object, v: &Visit) -> Result<(), AllocError>
    requires { IsVisit o.now v.now }
    ensures loads { OnOk result (PlacesGain (λ j x. IsLoad o.now v.now.node (j, x)) places.old places.new) }
    ensures len { OnOk result (btree_set_len places.new ≤ btree_set_len places.old + 1) }
{
    match named_by(v.node, &v.instr) {
        Some(place) => {
            places.insert(place)?;
            Ok(())
        }
        None => Ok(()),
    }
}

/// The places of the words that reached literal loads name.
fn loaded_places(
    alloc: Global,
    o: &Object,
    visits: &[Visit],
) -> Result<BTreeSet<(u32, u32)>, AllocError>
    requires { AreVisits o.now visits.now }
    ensures exact { IfOk result (λ places. (p : ℕ × ℕ) → (contains place_cmp places p ≡ true) ↔ IsLoadedPlace o.now p) }
    ensures few { IfOk result (λ places. btree_set_len places ≤ length visits.now) }
{
    let mut places = BTreeSet::new(alloc);
    for v in visits {
        note_load(&mut places, o, v)?;
    }
    Ok(places)
}

/// The places of a set in order.
fn listed(alloc: Global, places: &BTreeSet<(u32, u32)>) -> Result<Vec<(u32, u32)>, AllocError>
    ensures items { IfOk result (λ list. list.items ≡ places.now.keys) }
    ensures ordered { IsOrdered place_cmp places.now }
{
    places.iter().copied().collect(alloc)
}

/// The places of the words that reached literal loads name, in order.
pub(crate) fn word_places(
    alloc: Global,
    o: &Object,
    visits: &[Visit],
) -> Result<Vec<(u32, u32)>, AllocError>
    requires { AreVisits o.now visits.now }
    ensures exact { IfOk result (λ places. ArePlaces o.now places.items) }
    ensures few { IfOk result (λ places. length places.items ≤ length visits.now) }
{
    let places = loaded_places(alloc, o, visits)?;
    let list = listed(alloc, &places)?;
    Ok(list)
}

/// The relocation at a place, by its index in the object.
pub(crate) fn reloc_of(chart: &Chart, section: u32, offset: u32) -> Option<u32>
    ensures { (o : ObjectParts) → IsChart o chart.now → result ≡ reloc_at o section offset }
{
    match chart.relocs.get(&(section, offset)) {
        None => None,
        Some(placed) => Some(placed.index),
    }
}

/// The words at places, each with its relocation.
pub(crate) fn words_at(
    alloc: Global,
    chart: &Chart,
    places: &[(u32, u32)],
) -> Result<Vec<PoolWord>, AllocError>
    ensures { IfOk result (λ words. (o : ObjectParts) → IsChart o chart.now → words.items ≡ map (word_at o) places.now) }
{
    let mut words = Vec::new(alloc);
    for place in places {
        words.push(PoolWord {
            section: place.0,
            offset: place.1,
            reloc: reloc_of(chart, place.0, place.1),
        })?;
    }
    Ok(words)
}
