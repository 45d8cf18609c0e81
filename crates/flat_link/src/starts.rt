//! Instruction starts and words of data by their places, also of objects that have Arm code.

ghost use Rattle.std.specs.Prelude.{◌≡◌, ◌<◌, ◌≤◌, ◌⊎◌, ◌^◌, ◌+◌, ◌%◌, ℕ, ◌==◌, ◌&&◌, ◌||◌, true, length, Some, IfOk, OnOk, IsTrue, if◌then◌else◌};
ghost use Rattle.std.specs.BTreeMap.{get};
ghost use Rattle.std.specs.BTreeSet.{contains};
ghost use Rattle.elf_model.specs.Objects.{is_within};
ghost use Rattle.elf_model.specs.Ranges.{IsStart, length_at};
ghost use Rattle.code_ranges.specs.AllRanges.{AreAllRanges};
ghost use Rattle.code_ranges.specs.Spans.{place_cmp, is_thumb as is_thumb_kind};
ghost use Rattle.reloc_places.specs.Tables.{AreStarts, AreWords};
ghost use Rattle.flat_link.specs.Misplaced.{is_data_kind};

use code_ranges::Span;
use elf_model::{Limit, Object, RangeKind};
use reloc_places::{bytes_of, length_at};
use std::alloc::{AllocError, Global};
use std::collections::{BTreeMap, BTreeSet};

fn is_thumb(kind: RangeKind) -> bool
    ensures { result ≡ is_thumb_kind kind }
{
    match kind {
        RangeKind::Code => true,
        RangeKind::Arm => false,
        RangeKind::Data => false,
    }
}

fn is_data(kind: RangeKind) -> bool
    ensures { result ≡ is_data_kind kind }
{
    match kind {
        RangeKind::Code => false,
        RangeKind::Arm => false,
        RangeKind::Data => true,
    }
}

/// Keeps a start with the end of its range.
fn note_start(
    starts: &mut BTreeMap<(u32, u32), u32>,
    section: u32,
    offset: u32,
    end: u32,
) -> Result<(), AllocError>
    ensures { OnOk result ((j x : ℕ) → get place_cmp starts.new (j, x) ≡ (if (section == j) && (offset == x) then Some end else get place_cmp starts.old (j, x))) }
{
    starts.insert((section, offset), end)?;
    Ok(())
}

/// Where the start behind one lies; the end of the range, where a last single byte is left.
fn start_behind(bytes: &[u8], at: u32, end: u32) -> u32
    requires in_bytes { end ≤ length bytes.now }
    requires small { end ≤ 2 ^ 24 }
    requires before { at < end }
    ensures whole { at + 2 ≤ end → result ≡ at + length_at bytes.now at }
    ensures single { end < at + 2 → result ≡ end }
{
    if end - at < 2 {
        end
    } else {
        at + length_at(bytes, at)
    }
}

/// Keeps the starts of a range of code.
fn note_range(
    starts: &mut BTreeMap<(u32, u32), u32>,
    bytes: &[u8],
    r: Span,
) -> Result<(), AllocError>
    requires in_bytes { r.end ≤ length bytes.now }
    requires small { r.end ≤ 2 ^ 24 }
    ensures noted { OnOk result ((x : ℕ) → IsStart bytes.now r.start r.end x → get place_cmp starts.new (r.section, x) ≡ Some r.end) }
    ensures others { OnOk result ((j x : ℕ) → (get place_cmp starts.new (j, x) ≡ get place_cmp starts.old (j, x)) ⊎ ((j ≡ r.section) × IsStart bytes.now r.start r.end x)) }
{
    let mut at = r.start;
    while at < r.end {
        note_start(starts, r.section, at, r.end)?;
        at = start_behind(bytes, at, r.end);
    }
    Ok(())
}

/// The instruction starts of code ranges, each with the end of its range.
pub(crate) fn starts_of(
    alloc: Global,
    o: &Object,
    spans: &[Span],
) -> Result<BTreeMap<(u32, u32), u32>, AllocError>
    requires within { IsTrue (is_within o.now Limit.ANY) }
    requires ranges { AreAllRanges o.now spans.now }
    ensures { IfOk result (λ starts. AreStarts o.now (λ j x. get place_cmp starts (j, x))) }
{
    o.sound();
    let mut starts = BTreeMap::new(alloc);
    for r in spans {
        if is_thumb(r.kind) {
            note_range(&mut starts, bytes_of(o, r.section), *r)?;
        }
    }
    Ok(starts)
}

/// Keeps a place.
fn note_place(
    places: &mut BTreeSet<(u32, u32)>,
    section: u32,
    offset: u32,
) -> Result<(), AllocError>
    ensures { OnOk result ((j x : ℕ) → contains place_cmp places.new (j, x) ≡ (((section == j) && (offset == x)) || contains place_cmp places.old (j, x))) }
{
    places.insert((section, offset))?;
    Ok(())
}

/// Keeps the words of a range of data.
fn note_words(words: &mut BTreeSet<(u32, u32)>, r: Span) -> Result<(), AllocError>
    requires small { r.end ≤ 2 ^ 24 }
    requires has_bytes { r.start < r.end }
    ensures noted { OnOk result ((w : ℕ) → w % 4 ≡ 0 → r.start ≤ w → w + 4 ≤ r.end → contains place_cmp words.new (r.section, w) ≡ true) }
    ensures others { OnOk result ((j w : ℕ) → (contains place_cmp words.new (j, w) ≡ contains place_cmp words.old (j, w)) ⊎ ((j ≡ r.section) × (w % 4 ≡ 0) × (r.start ≤ w) × (w + 4 ≤ r.end))) }
{
    for k in (r.start + 3) / 4..r.end / 4 {
        note_place(words, r.section, 4 * k)?;
    }
    Ok(())
}

/// The words of data ranges at multiples of 4.
pub(crate) fn words_of(
    alloc: Global,
    o: &Object,
    spans: &[Span],
) -> Result<BTreeSet<(u32, u32)>, AllocError>
    requires within { IsTrue (is_within o.now Limit.ANY) }
    requires ranges { AreAllRanges o.now spans.now }
    ensures { IfOk result (λ words. AreWords o.now (λ j w. contains place_cmp words (j, w))) }
{
    o.sound();
    let mut words = BTreeSet::new(alloc);
    for r in spans {
        if is_data(r.kind) {
            note_words(&mut words, *r)?;
        }
    }
    Ok(words)
}
