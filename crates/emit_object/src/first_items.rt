//! Where the first unit or word stands now that stood from an old offset on.

ghost use Rattle.std.specs.Prelude.{◌≡◌, List, length, map};
ghost use Rattle.std.specs.List.Sorted.{IsStrictlySortedBy};
ghost use Rattle.code_ranges.specs.Spans.{place_cmp};
ghost use Rattle.flow_recover.specs.Points.{place_of_point, PointsRise};
ghost use Rattle.flow_recover.specs.WholeFlows.{place_of_word};
ghost use Rattle.hardened_form.specs.Items.{Item};
ghost use Rattle.hardened_form.specs.Standing.{first_from as first_among};
ghost use Rattle.emit_object.specs.FirstItems.{AreItemsOf, unit_items, word_items, is_earlier as is_earlier_than, IsFirstFrom, first_of, nearer_or as nearer_of};
ghost use Rattle.emit_object.specs.Laid.{Matches};

use flow_recover::{Flow, Point, PoolWord};
use seq_core::Layout;

/// Whether a place is earlier than an offset of a section.
fn is_earlier(place: (u32, u32), section: u32, offset: u64) -> bool
    ensures { result ≡ is_earlier_than place (section, offset) }
{
    place.0 < section || (place.0 == section && u64::from(place.1) < offset)
}

/// The index of the first point from an offset of a section on.
fn point_from(points: &[Point], section: u32, offset: u64) -> usize
    requires { IsStrictlySortedBy place_cmp (map place_of_point points.now) }
    ensures { IsFirstFrom (map place_of_point points.now) (section, offset) result }
{
    points.partition_point(|p| is_earlier((p.section, p.offset), section, offset))
}

/// The index of the first word from an offset of a section on.
fn word_from(words: &[PoolWord], section: u32, offset: u64) -> usize
    requires { IsStrictlySortedBy place_cmp (map place_of_word words.now) }
    ensures { IsFirstFrom (map place_of_word words.now) (section, offset) result }
{
    words.partition_point(|w| is_earlier((w.section, w.offset), section, offset))
}

/// The old and new offset of the first unit of a section from an old offset on.
fn first_unit(f: &Flow, l: &Layout, section: u32, offset: u64) -> Option<(u32, u32)>
    requires points { PointsRise f.now }
    requires count { length l.now.units ≡ length f.now.points }
    ensures { result ≡ first_of (unit_items f.now l.now) section offset }
{
    let points = f.points();
    let units = l.units();
    let k = point_from(points, section, offset);
    if k >= points.len() {
        return None;
    }
    let p = points[k];
    if p.section != section {
        return None;
    }
    Some((p.offset, units[k].start()))
}

/// The old and new offset of the first word of a section from an old offset on.
fn first_word(f: &Flow, l: &Layout, section: u32, offset: u64) -> Option<(u32, u32)>
    requires words { IsStrictlySortedBy place_cmp (map place_of_word f.now.words) }
    requires count { length l.now.words ≡ length f.now.words }
    ensures { result ≡ first_of (word_items f.now l.now) section offset }
{
    let words = f.words();
    let places = l.words();
    let k = word_from(words, section, offset);
    if k >= words.len() {
        return None;
    }
    let w = words[k];
    if w.section != section {
        return None;
    }
    Some((w.offset, places[k]))
}

/// The new offset of the one that stood first, or the section's end.
fn nearer_or(unit: Option<(u32, u32)>, word: Option<(u32, u32)>, size: u32) -> u32
    ensures { result ≡ nearer_of unit word size }
{
    match (unit, word) {
        (None, None) => size,
        (Some(u), None) => u.1,
        (None, Some(w)) => w.1,
        (Some(u), Some(w)) => { if w.0 < u.0 { w.1 } else { u.1 } }
    }
}

/// Where the first unit or word of a section of this size stands that stood from an old offset on, or the section's end.
pub(crate) fn first_from(f: &Flow, l: &Layout, section: u32, offset: u64, size: u32) -> u32
    requires points { PointsRise f.now }
    requires words { IsStrictlySortedBy place_cmp (map place_of_word f.now.words) }
    requires matches { Matches f.now l.now }
    ensures { (items : List Item) → AreItemsOf f.now l.now items → result ≡ first_among items section offset size }
{
    let unit = first_unit(f, l, section, offset);
    let word = first_word(f, l, section, offset);
    nearer_or(unit, word, size)
}
