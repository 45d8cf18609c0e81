//! IT blocks.

ghost use Rattle.std.specs.Prelude.{◌≡◌, ◌↔◌, ◌+◌, ◌≤◌, ◌^◌, ℕ, true, Some, IfOk, IfSome, OnOk};
ghost use Rattle.std.specs.List.{list_all};
ghost use Rattle.elf_model.specs.Ranges.{is_whole};
ghost use Rattle.flow_recover.specs.declared.blocks.Block.{Block};
ghost use Rattle.reloc_places.specs.Starts.{following};
ghost use Rattle.flow_recover.specs.FlowFaults.{block_length as block_length_of, IsInBlock};
ghost use Rattle.flow_recover.specs.Charts.{IsChart};
ghost use Rattle.flow_recover.specs.Visits.{IsVisit, AreVisits};
ghost use Rattle.flow_recover.specs.Gains.{has_place, PlacesGain};
ghost use Rattle.flow_recover.specs.NodeFaults.{mask_of, IsBlock, IsBelow, IsMember, IsBlockPlace, IsCut};

use crate::charts::{Chart, end_at};
use crate::visits::Visit;
use elf_model::Object;
use reloc_places::{bytes_of, length_from};
use std::alloc::{AllocError, Global};
use std::collections::BTreeSet;
use thumb_instr::Instr;

/// The instructions of an IT block: where the first one starts, the end of the range that the IT stands
/// in, and how many they are.
#[derive(Clone, Copy)]
struct Block {
    start: u32,
    end: u32,
    count: u8,
}

/// How many instructions an IT block has.
fn block_length(mask: u8) -> u8
    ensures { result ≡ block_length_of mask }
{
    if mask % 2 == 1 {
        4
    } else if mask % 4 == 2 {
        3
    } else if mask % 8 == 4 {
        2
    } else {
        1
    }
}

/// The mask of an IT.
fn mask_of(i: &Instr) -> Option<u8>
    ensures { result ≡ mask_of i.now }
{
    match i {
        Instr::It(i) => Some(i.mask),
        _ => None,
    }
}

/// The block of an instruction, if it is an IT.
fn block_of(o: &Object, chart: &Chart, v: &Visit) -> Option<Block>
    requires chart { IsChart o.now chart.now }
    requires visit { IsVisit o.now v.now }
    ensures exact { (b : Block) → (result ≡ Some b) ↔ IsBlock o.now v.now.node b }
    ensures low { IfSome result (λ b. b.start ≤ 2 ^ 24 + 4) }
    ensures short { IfSome result (λ b. b.count ≤ 4) }
{
    match mask_of(&v.instr) {
        None => None,
        Some(mask) => match end_at(chart, v.node.section, v.node.offset) {
            None => None,
            Some(end) => Some(Block {
                start: v.behind,
                end,
                count: block_length(mask),
            }),
        },
    }
}

/// Adds a place that is before the end of its range.
fn note_below(
    places: &mut BTreeSet<(u32, u32)>,
    section: u32,
    at: u32,
    end: u32,
) -> Result<(), AllocError>
    ensures { OnOk result (PlacesGain (λ j x. IsBelow section at end j x) places.old places.new) }
{
    if at < end {
        places.insert((section, at))?;
    }
    Ok(())
}

/// Adds the places of a block's instructions in its range.
fn note_members(
    places: &mut BTreeSet<(u32, u32)>,
    bytes: &[u8],
    section: u32,
    b: Block,
) -> Result<(), AllocError>
    requires low { b.start ≤ 2 ^ 24 + 4 }
    requires short { b.count ≤ 4 }
    ensures { OnOk result (PlacesGain (λ j x. (section ≡ j) × IsMember bytes.now b x) places.old places.new) }
{
    let mut at = b.start;
    for k in 0..b.count {
        note_below(places, section, at, b.end)?;
        at += length_from(bytes, at);
    }
    Ok(())
}

/// Whether all instructions of a block are whole in its range.
fn are_whole(bytes: &[u8], b: Block) -> bool
    requires low { b.start ≤ 2 ^ 24 + 4 }
    requires short { b.count ≤ 4 }
    ensures { result ≡ list_all (is_whole bytes.now b.end) (following bytes.now b.count b.start) }
{
    let mut whole = true;
    let mut at = b.start;
    for k in 0..b.count {
        at += length_from(bytes, at);
        whole &= at <= b.end;
    }
    whole
}

/// Whether an instruction is an IT whose block goes past the end of its range.
pub(crate) fn is_cut(o: &Object, chart: &Chart, v: &Visit) -> bool
    requires chart { IsChart o.now chart.now }
    requires visit { IsVisit o.now v.now }
    ensures { (result ≡ true) ↔ IsCut o.now v.now.node }
{
    match block_of(o, chart, v) {
        None => false,
        Some(b) => !are_whole(bytes_of(o, v.node.section), b),
    }
}

/// Adds the places of the instructions in the block of an IT.
fn note_block(
    places: &mut BTreeSet<(u32, u32)>,
    o: &Object,
    chart: &Chart,
    v: &Visit,
) -> Result<(), AllocError>
    requires chart { IsChart o.now chart.now }
    requires visit { IsVisit o.now v.now }
    ensures { OnOk result (PlacesGain (λ j x. IsBlockPlace o.now v.now.node (j, x)) places.old places.new) }
{
    match block_of(o, chart, v) {
        None => Ok(()),
        Some(b) => note_members(places, bytes_of(o, v.node.section), v.node.section, b),
    }
}

/// The places of instructions in the IT blocks that control reaches.
pub(crate) fn block_places(
    alloc: Global,
    o: &Object,
    chart: &Chart,
    visits: &[Visit],
) -> Result<BTreeSet<(u32, u32)>, AllocError>
    requires chart { IsChart o.now chart.now }
    requires visits { AreVisits o.now visits.now }
    ensures { IfOk result (λ places. (j x : ℕ) → (has_place places j x ≡ true) ↔ IsInBlock o.now j x) }
{
    let mut places = BTreeSet::new(alloc);
    for v in visits {
        note_block(&mut places, o, chart, v)?;
    }
    Ok(places)
}
