//! Whether the numbers that linking makes fit their places.

ghost use Rattle.std.specs.Prelude.{◌≡◌, ◌<◌, ◌≤◌, ◌^◌, map, find, not, option_map, Contains};
ghost use Rattle.thumb_table.specs.Layouts.{home_part};
ghost use Rattle.thumb_table.specs.Links.{is_other as is_other_link, is_straight as is_straight_link, reach as reach_of, is_reached as is_reached_by, has_address as has_address_in, can_branch as can_branch_link, is_thumb_address as is_thumb_link, is_in_range as is_in_range_link};
ghost use Rattle.flat_link.specs.Layout.{IsLayout, parts_in};
ghost use Rattle.flat_link.specs.Sites.{link_of};
ghost use Rattle.flat_link.specs.Ties.{IsTie, AreTies};

use crate::layout::Layout;
use crate::numbers::{addend_of, full, leads_to_code, offset_of, target_of};
use crate::symbols::{is_in_code, lot_of};
use crate::ties::Tie;
use elf_model::{Home, RelocKind, is_code};
use reloc_places::is_jump;

/// Whether the symbol stands for another one than itself.
fn is_other(t: &Tie) -> bool
    ensures { result ≡ is_other_link (link_of t.now) }
{
    !(t.meant.object == t.site.file && t.meant.index == t.site.reloc.symbol)
}

/// Whether a symbol that stands for another one is led to itself, where code is concerned.
fn is_straight(layout: &Layout, t: &Tie) -> bool
    requires layout { IsLayout layout.now }
    requires tie { IsTie layout.now (link_of t.now) }
    ensures { result ≡ is_straight_link (parts_in layout.now) (link_of t.now) }
{
    let own = if is_jump(t.site.reloc.kind) {
        0xFFFF_FFFC
    } else {
        0
    };
    let of_code = leads_to_code(layout, t) || is_in_code(layout, t.site.file, t.symbol.home);
    !(is_other(t) && of_code) || addend_of(layout, t) == own
}

/// How far a branch or call leads to either side.
fn reach(kind: RelocKind) -> u32
    ensures value { result ≡ reach_of kind }
    ensures low { result ≤ 2 ^ 24 }
{
    match kind {
        RelocKind::ThmCall => 0x100_0000,
        RelocKind::ThmJump24 => 0x100_0000,
        RelocKind::ThmJump19 => 0x10_0000,
        RelocKind::ThmJump11 => 0x800,
        RelocKind::ThmJump8 => 0x100,
        _ => 0,
    }
}

/// Whether an offset is even and not farther than `far`.
fn is_reached(far: u32, n: u32) -> bool
    requires { far ≤ 2 ^ 24 }
    ensures { result ≡ is_reached_by far n }
{
    n % 2 == 0 && n.wrapping_add(far) < 2 * far
}

/// Whether an address lies in the section of code that a symbol is defined in.
fn has_address(layout: &Layout, a: u32, object: u32, home: Home) -> bool
    requires { IsLayout layout.now }
    ensures { result ≡ has_address_in a (home_part (parts_in layout.now) object home) }
{
    match home {
        Home::Undefined => false,
        Home::Absolute => false,
        Home::Section(j) => match lot_of(layout, object, j) {
            None => false,
            Some(l) => {
                is_code(l.section)
                    && l.start <= a
                    && (a as u64) < l.start as u64 + l.section.size as u64
            }
        },
    }
}

fn can_branch(layout: &Layout, t: &Tie) -> bool
    requires layout { IsLayout layout.now }
    requires tie { IsTie layout.now (link_of t.now) }
    ensures { result ≡ can_branch_link (parts_in layout.now) (link_of t.now) }
{
    let target = target_of(layout, t);
    is_reached(reach(t.site.reloc.kind), offset_of(layout, t))
        && has_address(layout, target, t.meant.object, t.meant.symbol.home)
        && target % 2 == 0
}

fn is_thumb_address(layout: &Layout, t: &Tie) -> bool
    requires layout { IsLayout layout.now }
    requires tie { IsTie layout.now (link_of t.now) }
    ensures { result ≡ is_thumb_link (parts_in layout.now) (link_of t.now) }
{
    !(is_other(t) && leads_to_code(layout, t)) || full(layout, t) % 2 == 1
}

/// Whether the number that comes to a relocation's place fits it.
fn is_in_range(layout: &Layout, t: &Tie) -> bool
    requires layout { IsLayout layout.now }
    requires tie { IsTie layout.now (link_of t.now) }
    ensures { result ≡ is_in_range_link (parts_in layout.now) (link_of t.now) }
{
    is_straight(layout, t)
        && if is_jump(t.site.reloc.kind) {
            can_branch(layout, t)
        } else {
            is_thumb_address(layout, t)
        }
}

/// The first relocation whose number does not fit.
pub(crate) fn first_out<'a>(layout: &Layout<'a>, ties: &[Tie<'a>]) -> Option<Tie<'a>>
    requires layout { IsLayout layout.now }
    requires ties { AreTies layout.now ties.now }
    ensures { option_map link_of result ≡ find (λ l. not (is_in_range_link (parts_in layout.now) l)) (map link_of ties.now) }
{
    for t in ties {
        if !is_in_range(layout, t) {
            return Some(*t);
        }
    }
    None
}
