//! Where no return may lead to: functions, data in code, and the ends of code.

ghost use Rattle.std.specs.Prelude.{◌≡◌, ◌≤◌, ◌++◌, ◌↔◌, ℕ, Some, map, slice_get, length, All, Contains, IfOk, OnOk, IsTrue};
ghost use Rattle.std.specs.BTreeMap.{get};
ghost use Rattle.std.specs.List.Sorted.{IsStrictlyIncreasing};
ghost use Rattle.elf_model.specs.Objects.{ObjectParts};
ghost use Rattle.code_ranges.specs.Spans.{place_cmp, kind_at};
ghost use Rattle.thumb_table.specs.Names.{all_symbols};
ghost use Rattle.thumb_table.specs.Images.{IsStop};
ghost use Rattle.flat_link.specs.Known.{defined_of};
ghost use Rattle.flat_link.specs.Layout.{IsLayout, parts_in};
ghost use Rattle.flat_link.specs.Lots.{placed_of};
ghost use Rattle.flat_link.specs.Stops.{function_stops, begins_data as data_begins, data_place as data_place_in, data_stops, all_data_stops, end_stops};

use crate::known::Known;
use crate::layout::Layout;
use crate::symbols::{address_of, is_function, is_in_code};
use code_ranges::kinds_by_place;
use elf_model::{Home, RangeKind, Symbol};
use std::alloc::{AllocError, Global};
use std::collections::BTreeMap;

fn push_functions(stops: &mut Vec<u32>, layout: &Layout, all: &[Known]) -> Result<(), AllocError>
    requires layout { IsLayout layout.now }
    requires all { map defined_of all.now ≡ all_symbols 0 layout.now.objects.now }
    ensures { OnOk result (stops.new.items ≡ stops.old.items ++ function_stops (parts_in layout.now) (all_symbols 0 layout.now.objects.now)) }
{
    for known in all {
        if is_function(layout, known) {
            let address = address_of(layout, known);
            stops.push(address - address % 2)?;
        }
    }
    Ok(())
}

/// Whether data begins where a symbol stands.
fn begins_data(kinds: &BTreeMap<(u32, u32), RangeKind>, symbols: &[Symbol], s: &Symbol) -> bool
    requires { (j x : ℕ) → get place_cmp kinds.now (j, x) ≡ kind_at symbols.now j x }
    ensures { result ≡ data_begins symbols.now s.now.home s.now.value }
{
    match s.home {
        Home::Undefined => false,
        Home::Absolute => false,
        Home::Section(j) => match kinds.get(&(j, s.value)).copied() {
            None => false,
            Some(RangeKind::Code) => false,
            Some(RangeKind::Arm) => false,
            Some(RangeKind::Data) => true,
        },
    }
}

/// Where data starts in code, if it does so at a symbol.
fn data_place(
    kinds: &BTreeMap<(u32, u32), RangeKind>,
    symbols: &[Symbol],
    layout: &Layout,
    known: &Known,
) -> Option<u32>
    requires layout { IsLayout layout.now }
    requires known { Contains (all_symbols 0 layout.now.objects.now) (defined_of known.now) }
    requires kinds { (j x : ℕ) → get place_cmp kinds.now (j, x) ≡ kind_at symbols.now j x }
    ensures { result ≡ data_place_in (parts_in layout.now) known.now.object symbols.now known.now.symbol.now }
{
    if begins_data(kinds, symbols, known.symbol)
        && is_in_code(layout, known.object, known.symbol.home)
    {
        Some(address_of(layout, known))
    } else {
        None
    }
}

/// Adds where data starts in the code of one object.
fn push_data(
    stops: &mut Vec<u32>,
    kinds: &BTreeMap<(u32, u32), RangeKind>,
    layout: &Layout,
    object: u32,
    symbols: &[Symbol],
) -> Result<(), AllocError>
    requires layout { IsLayout layout.now }
    requires few { length symbols.now ≤ 262144 }
    requires symbols { (o : ObjectParts) × (slice_get layout.now.objects.now object ≡ Some o) × (o.symbols ≡ symbols.now) }
    requires kinds { (j x : ℕ) → get place_cmp kinds.now (j, x) ≡ kind_at symbols.now j x }
    ensures { OnOk result (stops.new.items ≡ stops.old.items ++ data_stops (parts_in layout.now) object symbols.now symbols.now) }
{
    for (k, s) in symbols.iter().enumerate() {
        let known = Known {
            object,
            index: k as u32,
            symbol: s,
        };
        if let Some(address) = data_place(kinds, symbols, layout, &known) {
            stops.push(address)?;
        }
    }
    Ok(())
}

/// Adds where data starts in code.
fn push_all_data(alloc: Global, stops: &mut Vec<u32>, layout: &Layout) -> Result<(), AllocError>
    requires { IsLayout layout.now }
    ensures { OnOk result (stops.new.items ≡ stops.old.items ++ all_data_stops (parts_in layout.now) 0 layout.now.objects.now) }
{
    for (i, o) in layout.objects.iter().enumerate() {
        let kinds = kinds_by_place(alloc, o.symbols())?;
        push_data(stops, &kinds, layout, i as u32, o.symbols())?;
    }
    Ok(())
}

fn push_ends(stops: &mut Vec<u32>, layout: &Layout) -> Result<(), AllocError>
    requires { IsLayout layout.now }
    ensures { OnOk result (stops.new.items ≡ stops.old.items ++ end_stops (map placed_of layout.now.code.items)) }
{
    for l in layout.code.as_slice() {
        stops.push(l.start + l.section.size)?;
    }
    Ok(())
}

/// The numbers in order, each once.
fn rising(mut stops: Vec<u32>) -> Vec<u32>
    ensures rise { IsStrictlyIncreasing result.items }
    ensures same { (a : ℕ) → Contains result.items a ↔ Contains stops.items a }
{
    stops.sort_unstable();
    stops.dedup();
    stops
}

/// The stops of an image.
pub(crate) fn stops_of(
    alloc: Global,
    layout: &Layout,
    all: &[Known],
) -> Result<Vec<u32>, AllocError>
    requires layout { IsLayout layout.now }
    requires all { map defined_of all.now ≡ all_symbols 0 layout.now.objects.now }
    ensures rise { IfOk result (λ stops. IsStrictlyIncreasing stops.items) }
    ensures same { IfOk result (λ stops. (a : ℕ) → Contains stops.items a ↔ IsStop layout.now.objects.now (parts_in layout.now) a) }
{
    let mut stops = Vec::new(alloc);
    push_functions(&mut stops, layout, all)?;
    push_all_data(alloc, &mut stops, layout)?;
    push_ends(&mut stops, layout)?;
    Ok(rising(stops))
}
