//! Where symbols stand.

ghost use Rattle.std.specs.Prelude.{◌≡◌, ◌<◌, ◌≤◌, ◌^◌, ℕ, true, option_map, Contains};
ghost use Rattle.thumb_table.specs.Layouts.{part_of, home_start as home_start_in};
ghost use Rattle.thumb_table.specs.Names.{all_symbols, is_in_code as is_home_in_code, is_function as is_code_function, address_of as address_in};
ghost use Rattle.flat_link.specs.Known.{defined_of};
ghost use Rattle.flat_link.specs.Layout.{IsLayout, parts_in};
ghost use Rattle.flat_link.specs.Lots.{placed_of};

use crate::known::Known;
use crate::layout::Layout;
use crate::lots::Lot;
use elf_model::numbers::FUNC;
use elf_model::{Home, is_code};

/// The place of an object's section, if it is in memory.
pub(crate) fn lot_of<'a>(layout: &Layout<'a>, object: u32, section: u32) -> Option<Lot<'a>>
    requires { IsLayout layout.now }
    ensures { option_map placed_of result ≡ part_of (parts_in layout.now) object section }
{
    layout.table.get(&(object, section)).copied()
}

/// Where the section starts that a symbol is defined in.
fn home_start(layout: &Layout, object: u32, home: Home) -> u32
    requires { IsLayout layout.now }
    ensures { result ≡ home_start_in (parts_in layout.now) object home }
{
    match home {
        Home::Undefined => 0,
        Home::Absolute => 0,
        Home::Section(j) => match lot_of(layout, object, j) {
            None => 0,
            Some(l) => l.start,
        },
    }
}

/// Whether a symbol is defined in code.
pub(crate) fn is_in_code(layout: &Layout, object: u32, home: Home) -> bool
    requires { IsLayout layout.now }
    ensures { result ≡ is_home_in_code (parts_in layout.now) object home }
{
    match home {
        Home::Undefined => false,
        Home::Absolute => false,
        Home::Section(j) => match lot_of(layout, object, j) {
            None => false,
            Some(l) => is_code(l.section),
        },
    }
}

/// Whether a symbol is a function in code.
pub(crate) fn is_function(layout: &Layout, known: &Known) -> bool
    requires { IsLayout layout.now }
    ensures { result ≡ is_code_function (parts_in layout.now) (defined_of known.now) }
{
    known.symbol.kind == FUNC && is_in_code(layout, known.object, known.symbol.home)
}

/// The address of a symbol, its bit 0 with it.
pub(crate) fn address_of(layout: &Layout, known: &Known) -> u32
    requires layout { IsLayout layout.now }
    requires known { Contains (all_symbols 0 layout.now.objects.now) (defined_of known.now) }
    ensures { result ≡ address_in (parts_in layout.now) (defined_of known.now) }
{
    home_start(layout, known.object, known.symbol.home) + known.symbol.value
}
