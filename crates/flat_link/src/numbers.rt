//! The numbers that linking makes of relocations (ELF for the Arm Architecture, relocation codes).

ghost use Rattle.std.specs.Prelude.{◌≡◌, Contains};
ghost use Rattle.thumb_table.specs.Names.{all_symbols, stands as stands_in};
ghost use Rattle.thumb_table.specs.Links.{place_of as place_of_link, addend_of as addend_of_link, leads_to_code as link_leads_to_code, sum_of as sum_of_link, full as full_of_link, offset_of as offset_of_link, target_of as target_of_link, value_of as value_of_link};
ghost use Rattle.flat_link.specs.Known.{defined_of};
ghost use Rattle.flat_link.specs.Layout.{IsLayout, parts_in};
ghost use Rattle.flat_link.specs.Sites.{link_of};
ghost use Rattle.flat_link.specs.Ties.{IsTie};

use crate::known::Known;
use crate::layout::Layout;
use crate::symbols::{address_of, is_function, is_in_code};
use crate::ties::Tie;
use elf_model::RelocKind;
use reloc_places::{addend, bytes_of};

/// P: the place's address.
pub(crate) fn place_of(layout: &Layout, t: &Tie) -> u32
    requires layout { IsLayout layout.now }
    requires tie { IsTie layout.now (link_of t.now) }
    ensures { result ≡ place_of_link (link_of t.now) }
{
    t.lot.start + t.site.reloc.offset
}

/// Whether the symbol is in code.
pub(crate) fn leads_to_code(layout: &Layout, t: &Tie) -> bool
    requires { IsLayout layout.now }
    ensures { result ≡ link_leads_to_code (parts_in layout.now) (link_of t.now) }
{
    is_in_code(layout, t.meant.object, t.meant.symbol.home)
}

/// S: where a symbol stands.
fn stands(layout: &Layout, known: &Known) -> u32
    requires layout { IsLayout layout.now }
    requires known { Contains (all_symbols 0 layout.now.objects.now) (defined_of known.now) }
    ensures { result ≡ stands_in (parts_in layout.now) (defined_of known.now) }
{
    let address = address_of(layout, known);
    if is_function(layout, known) {
        address - address % 2
    } else {
        address
    }
}

/// A: the number in the place.
pub(crate) fn addend_of(layout: &Layout, t: &Tie) -> u32
    requires layout { IsLayout layout.now }
    requires tie { IsTie layout.now (link_of t.now) }
    ensures { result ≡ addend_of_link (link_of t.now) }
{
    t.site.object.sound();
    addend(bytes_of(t.site.object, t.site.reloc.section), t.site.reloc)
}

/// S + A.
fn sum_of(layout: &Layout, t: &Tie) -> u32
    requires layout { IsLayout layout.now }
    requires tie { IsTie layout.now (link_of t.now) }
    ensures { result ≡ sum_of_link (parts_in layout.now) (link_of t.now) }
{
    stands(layout, &t.meant).wrapping_add(addend_of(layout, t))
}

/// (S + A) | T.
pub(crate) fn full(layout: &Layout, t: &Tie) -> u32
    requires layout { IsLayout layout.now }
    requires tie { IsTie layout.now (link_of t.now) }
    ensures { result ≡ full_of_link (parts_in layout.now) (link_of t.now) }
{
    let sum = sum_of(layout, t);
    if is_function(layout, &t.meant) {
        sum - sum % 2 + 1
    } else {
        sum
    }
}

/// (S + A) - P.
pub(crate) fn offset_of(layout: &Layout, t: &Tie) -> u32
    requires layout { IsLayout layout.now }
    requires tie { IsTie layout.now (link_of t.now) }
    ensures { result ≡ offset_of_link (parts_in layout.now) (link_of t.now) }
{
    let sum = sum_of(layout, t);
    sum.wrapping_sub(place_of(layout, t))
}

/// The address that a branch leads to.
pub(crate) fn target_of(layout: &Layout, t: &Tie) -> u32
    requires layout { IsLayout layout.now }
    requires tie { IsTie layout.now (link_of t.now) }
    ensures { result ≡ target_of_link (parts_in layout.now) (link_of t.now) }
{
    sum_of(layout, t).wrapping_add(4)
}

/// The number that comes to the place.
pub(crate) fn value_of(layout: &Layout, t: &Tie) -> u32
    requires layout { IsLayout layout.now }
    requires tie { IsTie layout.now (link_of t.now) }
    ensures { result ≡ value_of_link (parts_in layout.now) (link_of t.now) }
{
    match t.site.reloc.kind {
        RelocKind::ThmCall => offset_of(layout, t),
        RelocKind::ThmJump24 => offset_of(layout, t),
        RelocKind::ThmJump19 => offset_of(layout, t),
        RelocKind::ThmJump11 => offset_of(layout, t),
        RelocKind::ThmJump8 => offset_of(layout, t),
        RelocKind::MovwAbs => full(layout, t) % 0x1_0000,
        RelocKind::MovtAbs => full(layout, t) / 0x1_0000,
        RelocKind::Abs32 => full(layout, t),
        RelocKind::Target1 => full(layout, t),
        RelocKind::Other(_) => full(layout, t),
    }
}
