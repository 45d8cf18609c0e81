//! Which symbols stay, and where they stand now.

ghost use Rattle.std.specs.Prelude.{◌≡◌, All, List, map, slice_index, IfOk};
ghost use Rattle.std.specs.List.Sorted.{IsStrictlySortedBy};
ghost use Rattle.elf_model.specs.Objects.{ObjectParts};
ghost use Rattle.elf_model.specs.Ranges.{is_mapping as is_mapping_symbol};
ghost use Rattle.code_ranges.specs.Spans.{place_cmp};
ghost use Rattle.flow_recover.specs.Points.{PointsRise};
ghost use Rattle.flow_recover.specs.WholeFlows.{place_of_word};
ghost use Rattle.hardened_form.specs.Items.{Item};
ghost use Rattle.hardened_form.specs.Symbols.{moved as moved_by, moved_size as moved_size_of, stays as stays_among};
ghost use Rattle.emit_object.specs.FirstItems.{AreItemsOf};
ghost use Rattle.emit_object.specs.Laid.{Matches, HasSizes, IsLow};
ghost use Rattle.emit_object.specs.MovedSymbols.{stays_in_code as stays_in_code_by, IsPlaced};

use crate::first_items::first_from;
use crate::moves::new_place;
use elf_model::numbers::{FUNC, LOCAL};
use elf_model::{Home, Object, Symbol, range_kind};
use flow_recover::Flow;
use reloc_places::{even, is_in_code};
use seq_core::Layout;
use std::alloc::{AllocError, Global};

/// The type of a symbol that stands for its section.
const SECTION: u8 = 3;

/// Whether a symbol is a mapping symbol.
fn is_mapping(s: &Symbol) -> bool
    ensures { result ≡ is_mapping_symbol s.now }
{
    range_kind(s).is_some()
}

/// Whether a local symbol of a code section stays: where it is at a point, or stands for its section.
fn stays_in_code(f: &Flow, l: &Layout, s: &Symbol, section: u32) -> bool
    requires points { PointsRise f.now }
    requires matches { Matches f.now l.now }
    ensures { (items : List Item) → AreItemsOf f.now l.now items → result ≡ stays_in_code_by items s.now section }
{
    if is_mapping(s) {
        return false;
    }
    if s.kind == SECTION && s.value == 0 {
        return true;
    }
    new_place(f, l, section, even(s.value)).is_some()
}

/// Whether a symbol is a local one that stays.
pub(crate) fn stays(o: &Object, f: &Flow, l: &Layout, s: &Symbol) -> bool
    requires points { PointsRise f.now }
    requires matches { Matches f.now l.now }
    ensures { (items : List Item) → AreItemsOf f.now l.now items → result ≡ stays_among o.now items s.now }
{
    if s.bind != LOCAL {
        return false;
    }
    if !is_in_code(o, s.home) {
        return true;
    }
    match s.home {
        Home::Undefined => true,
        Home::Absolute => true,
        Home::Section(j) => stays_in_code(f, l, s, j),
    }
}

/// The section of a symbol of code that is at a point, and where that point's unit begins.
fn place_of(o: &Object, f: &Flow, l: &Layout, s: &Symbol) -> Option<(u32, u32)>
    requires points { PointsRise f.now }
    requires matches { Matches f.now l.now }
    requires low { All IsLow l.now.units }
    ensures { IsPlaced o.now f.now l.now s.now result }
{
    if !is_in_code(o, s.home) {
        return None;
    }
    match s.home {
        Home::Undefined => None,
        Home::Absolute => None,
        Home::Section(j) => match new_place(f, l, j, even(s.value)) {
            None => None,
            Some(at) => Some((j, at)),
        },
    }
}

/// The size of a section, or 0 where there is none.
fn size_at(l: &Layout, section: u32) -> u32
    ensures { result ≡ slice_index l.now.sizes section }
{
    match l.sizes().get(section as usize) {
        None => 0,
        Some(size) => *size,
    }
}

/// The size of a symbol whose point's unit begins at an offset of a section of this size.
fn moved_size(f: &Flow, l: &Layout, s: &Symbol, section: u32, at: u32, size: u32) -> u32
    requires points { PointsRise f.now }
    requires words { IsStrictlySortedBy place_cmp (map place_of_word f.now.words) }
    requires matches { Matches f.now l.now }
    ensures { (items : List Item) → AreItemsOf f.now l.now items → result ≡ moved_size_of items section s.now at size }
{
    if s.kind != FUNC {
        return s.size;
    }
    let end = u64::from(even(s.value)) + u64::from(s.size);
    first_from(f, l, section, end, size).saturating_sub(at)
}

/// A copy of a symbol with another value and size.
fn with_numbers(alloc: Global, s: &Symbol, value: u32, size: u32) -> Result<Symbol, AllocError>
    ensures { IfOk result (λ t. t ≡ record s.now { value = value; size = size }) }
{
    Ok(Symbol {
        name: s.name.copy(alloc)?,
        value,
        size,
        bind: s.bind,
        kind: s.kind,
        other: s.other,
        home: s.home,
    })
}

/// A symbol as it stands in the hardened object.
pub(crate) fn moved(
    alloc: Global,
    o: &Object,
    f: &Flow,
    l: &Layout,
    s: &Symbol,
) -> Result<Symbol, AllocError>
    requires points { PointsRise f.now }
    requires words { IsStrictlySortedBy place_cmp (map place_of_word f.now.words) }
    requires matches { Matches f.now l.now }
    requires low { All IsLow l.now.units }
    ensures { IfOk result (λ t. (h : ObjectParts) (items : List Item) → HasSizes o.now h l.now.sizes → AreItemsOf f.now l.now items → t ≡ moved_by o.now h items s.now) }
{
    match place_of(o, f, l, s) {
        None => with_numbers(alloc, s, s.value, s.size),
        Some((j, at)) => {
            let size = moved_size(f, l, s, j, at, size_at(l, j));
            let t = with_numbers(alloc, s, at + s.value % 2, size)?;
            Ok(t)
        }
    }
}
