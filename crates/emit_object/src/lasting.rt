//! Which relocations stay.

ghost use Rattle.std.specs.Prelude.{◌≡◌, ◌↔◌, ℕ, IsTrue, map, slice_get};
ghost use Rattle.std.specs.List.Sorted.{IsStrictlySortedBy};
ghost use Rattle.code_ranges.specs.Spans.{place_cmp};
ghost use Rattle.flow_recover.specs.Points.{IsPointAt, PointsRise};
ghost use Rattle.flow_recover.specs.WholeFlows.{place_of_word};
ghost use Rattle.emit_object.specs.Lasting.{HasWordAt, has_data as has_data_in, Lasts};

use elf_model::{Object, Reloc, is_code};
use flow_recover::{Flow, point_at};

/// Whether a word that a point loads stands at an offset of a section.
fn has_word(f: &Flow, section: u32, offset: u32) -> bool
    requires { IsStrictlySortedBy place_cmp (map place_of_word f.now.words) }
    ensures { IsTrue result ↔ HasWordAt f.now section offset }
{
    let place = (section, offset);
    match f
        .words()
        .binary_search_by_key(&place, |w| (w.section, w.offset))
    {
        Ok(_) => true,
        Err(_) => false,
    }
}

/// Whether a point stands at an offset of a section.
fn has_point(f: &Flow, section: u32, offset: u32) -> bool
    requires { PointsRise f.now }
    ensures { IsTrue result ↔ ((q : ℕ) × IsPointAt f.now section offset q) }
{
    match point_at(f, section, offset) {
        Some(_) => true,
        None => false,
    }
}

/// Whether a section is there and has no code.
pub(crate) fn has_data(o: &Object, section: u32) -> bool
    ensures { result ≡ has_data_in (slice_get o.now.sections section) }
{
    match o.sections().get(section as usize) {
        None => false,
        Some(s) => !is_code(s),
    }
}

/// Whether a relocation stays: that of data, of a point, or of a word that one loads.
pub(crate) fn stays(o: &Object, f: &Flow, r: &Reloc) -> bool
    requires points { PointsRise f.now }
    requires words { IsStrictlySortedBy place_cmp (map place_of_word f.now.words) }
    ensures { IsTrue result ↔ Lasts o.now f.now r.now }
{
    if has_data(o, r.section) {
        return true;
    }
    if has_point(f, r.section, r.offset) {
        return true;
    }
    has_word(f, r.section, r.offset)
}
