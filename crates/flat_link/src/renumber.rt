//! Instructions with the numbers of relocations.

ghost use Rattle.std.specs.Prelude.{◌≡◌, ◌+◌, ◌≤◌, true, false, Some, length};
ghost use Rattle.elf_model.specs.Fields.{half_at};
ghost use Rattle.elf_model.specs.Ranges.{is_long};
ghost use Rattle.thumb_instr.specs.Numbers.{renumbered as renumbered_by};
ghost use Rattle.reloc_places.specs.Relocations.{is_word as is_word_kind};
ghost use Rattle.thumb_table.specs.Links.{value_of as value_of_link, is_in_range as is_in_range_link};
ghost use Rattle.flat_link.specs.Layout.{IsLayout, parts_in};
ghost use Rattle.flat_link.specs.Sites.{link_of};
ghost use Rattle.flat_link.specs.Ties.{IsTie};
ghost use Rattle.flat_link.specs.Patches.{IsNumberOf, width_if, HasPlaceCode};

use crate::layout::Layout;
use crate::numbers::value_of;
use crate::ties::Tie;
use reloc_places::{bytes_of, decode_at, length_at};
use thumb_encode::{Code, Width, encode};
use thumb_instr::{Branch, Call, Half, Instr};

/// An instruction with a number that it may have in place of its own.
fn renumbered(i: &Instr, n: u32) -> Option<Instr>
    requires { IsNumberOf i.now n }
    ensures { result ≡ Some (renumbered_by n i.now) }
{
    match i {
        Instr::Half(a) => match Half::new(a.top, a.d, n as u16) {
            None => None,
            Some(a) => Some(Instr::Half(a)),
        },
        Instr::Branch(a) => match Branch::new(a.cond, n.cast_signed()) {
            None => None,
            Some(a) => Some(Instr::Branch(a)),
        },
        Instr::Call(_) => match Call::new(n.cast_signed()) {
            None => None,
            Some(a) => Some(Instr::Call(a)),
        },
        _ => None,
    }
}

/// The width of the instruction at an offset.
fn width_at(bytes: &[u8], at: u32) -> Width
    requires { at + 2 ≤ length bytes.now }
    ensures { result ≡ width_if (is_long (half_at bytes.now at)) }
{
    if length_at(bytes, at) == 4 {
        Width::Full
    } else {
        Width::Half
    }
}

/// The halfwords of the instruction in a place, with the number that linking makes.
pub(crate) fn code_for(layout: &Layout, t: &Tie) -> Option<Code>
    requires layout { IsLayout layout.now }
    requires tie { IsTie layout.now (link_of t.now) }
    requires instr { is_word_kind t.now.site.reloc.now.kind ≡ false }
    requires range { is_in_range_link (parts_in layout.now) (link_of t.now) ≡ true }
    ensures { HasPlaceCode (link_of t.now) (value_of_link (parts_in layout.now) (link_of t.now)) result }
{
    t.site.object.sound();
    let bytes = bytes_of(t.site.object, t.site.reloc.section);
    let at = t.site.reloc.offset;
    match decode_at(bytes, at, 0) {
        Err(_) => None,
        Ok(i) => match renumbered(&i, value_of(layout, t)) {
            None => None,
            Some(j) => encode(&j, width_at(bytes, at)),
        },
    }
}
