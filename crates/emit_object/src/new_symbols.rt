//! The symbols of the hardened object, and the numbers that they have there.

ghost use Rattle.std.specs.Prelude.{◌≡◌, ◌+◌, ◌*◌, ◌<◌, ◌≤◌, ◌^◌, ◌&&◌, ◌++◌, All, List, filter, length, map, unwrap_or, IfOk, OnOk, IsTrue};
ghost use Rattle.std.specs.List.{zip, list_all};
ghost use Rattle.std.specs.List.Sorted.{IsStrictlySortedBy};
ghost use Rattle.elf_model.specs.declared.objects.MapRow.{MapRow};
ghost use Rattle.elf_model.specs.Objects.{ObjectParts, is_within, is_symbol, locals_first};
ghost use Rattle.code_ranges.specs.Spans.{place_cmp};
ghost use Rattle.flow_recover.specs.Points.{PointsRise};
ghost use Rattle.flow_recover.specs.WholeFlows.{place_of_word, IsFlow};
ghost use Rattle.hardened_form.specs.Items.{Item};
ghost use Rattle.hardened_form.specs.Sections.{AreSections};
ghost use Rattle.hardened_form.specs.Standing.{new_place as new_place_among};
ghost use Rattle.hardened_form.specs.Symbols.{moved as moved_by, stays as stays_among, is_shared};
ghost use Rattle.branch_layout.specs.Laid.{laid_places as places_of};
ghost use Rattle.emit_object.specs.WordPlaces.{pool_place, islands};
ghost use Rattle.emit_object.specs.TargetPlaces.{target_at};
ghost use Rattle.emit_object.specs.TargetSymbols.{function_by, functions_of};
ghost use Rattle.emit_object.specs.FirstItems.{AreItemsOf};
ghost use Rattle.emit_object.specs.Laid.{Matches, HasSizes, IsLow};
ghost use Rattle.emit_object.specs.LieInside.{LieInside};
ghost use Rattle.emit_object.specs.Numbering.{AreNewSymbols};

use crate::mapping::mapping_symbols;
use crate::moved_symbols::{moved, stays};
use crate::moves::new_place;
use crate::numbers::{number_behind, numbers};
use crate::rows::ordinals;
use crate::target_symbols::function_at;
use crate::targets::targets;
use elf_model::numbers::LOCAL;
use elf_model::{Limit, Object, Symbol};
use flow_recover::Flow;
use seq_core::Layout;
use std::alloc::{AllocError, Global};

/// The symbols of the hardened object; the targets that have a function of their own, by section and old offset; the
/// number of the first of these functions; and the new number of each old symbol.
#[derive(Drop)]
pub(crate) struct NewSymbols {
    pub list: Vec<Symbol>,
    pub targets: Vec<(u32, u32)>,
    pub first_target: u32,
    pub numbers: Vec<u32>,
}

/// Adds the local symbols that stay.
fn push_kept(
    list: &mut Vec<Symbol>,
    alloc: Global,
    o: &Object,
    f: &Flow,
    l: &Layout,
) -> Result<(), AllocError>
    requires points { PointsRise f.now }
    requires words { IsStrictlySortedBy place_cmp (map place_of_word f.now.words) }
    requires matches { Matches f.now l.now }
    requires low { All IsLow l.now.units }
    ensures { OnOk result ((h : ObjectParts) (items : List Item) → HasSizes o.now h l.now.sizes → AreItemsOf f.now l.now items → list.new.items ≡ list.old.items ++ map (moved_by o.now h items) (filter (stays_among o.now items) o.now.symbols)) }
{
    for s in o.symbols() {
        if stays(o, f, l, s) {
            list.push(moved(alloc, o, f, l, s)?)?;
        }
    }
    Ok(())
}

/// Adds what other objects see.
fn push_shared(
    list: &mut Vec<Symbol>,
    alloc: Global,
    o: &Object,
    f: &Flow,
    l: &Layout,
) -> Result<(), AllocError>
    requires points { PointsRise f.now }
    requires words { IsStrictlySortedBy place_cmp (map place_of_word f.now.words) }
    requires matches { Matches f.now l.now }
    requires low { All IsLow l.now.units }
    ensures { OnOk result ((h : ObjectParts) (items : List Item) → HasSizes o.now h l.now.sizes → AreItemsOf f.now l.now items → list.new.items ≡ list.old.items ++ map (moved_by o.now h items) (filter is_shared o.now.symbols)) }
{
    for s in o.symbols() {
        if s.bind != LOCAL {
            list.push(moved(alloc, o, f, l, s)?)?;
        }
    }
    Ok(())
}

/// Where the unit of a target's point begins, or 0 where no point is there.
fn place_or_0(f: &Flow, l: &Layout, target: (u32, u32)) -> u32
    requires points { PointsRise f.now }
    requires matches { Matches f.now l.now }
    requires low { All IsLow l.now.units }
    ensures place { (items : List Item) → AreItemsOf f.now l.now items → result ≡ unwrap_or (new_place_among items target.0 target.1) 0 }
    ensures low { result + 1 < 2 ^ 32 }
{
    match new_place(f, l, target.0, target.1) {
        None => 0,
        Some(at) => at,
    }
}

/// The function of a target, which stands where its point's unit begins.
fn function_of(
    alloc: Global,
    f: &Flow,
    l: &Layout,
    ordinal: u32,
    target: (u32, u32),
) -> Result<Symbol, AllocError>
    requires points { PointsRise f.now }
    requires matches { Matches f.now l.now }
    requires low { All IsLow l.now.units }
    ensures { IfOk result (λ s. (items : List Item) → AreItemsOf f.now l.now items → s ≡ function_by items ordinal (target_at target)) }
{
    let at = place_or_0(f, l, target);
    let s = function_at(alloc, ordinal, target, at)?;
    Ok(s)
}

/// Adds the functions of targets, by the numbers of sections among those of code.
fn push_functions(
    list: &mut Vec<Symbol>,
    alloc: Global,
    f: &Flow,
    l: &Layout,
    ordinals: &[u32],
    targets: &[(u32, u32)],
) -> Result<(), AllocError>
    requires points { PointsRise f.now }
    requires matches { Matches f.now l.now }
    requires low { All IsLow l.now.units }
    requires numbered { All (λ t. t.0 < length ordinals.now) targets.now }
    ensures { OnOk result ((items : List Item) → AreItemsOf f.now l.now items → list.new.items ≡ list.old.items ++ functions_of items ordinals.now targets.now) }
{
    for t in targets {
        let ordinal = ordinals[t.0 as usize];
        list.push(function_of(alloc, f, l, ordinal, *t)?)?;
    }
    Ok(())
}

/// The symbols of the hardened object, in order, and their numbers: local ones that stay, mapping symbols, a function for
/// each target that gets one, and what other objects see.
pub(crate) fn new_symbols(
    alloc: Global,
    o: &Object,
    f: &Flow,
    l: &Layout,
) -> Result<NewSymbols, AllocError>
    requires within { IsTrue (is_within o.now Limit.ANY) }
    requires flow { IsFlow o.now f.now }
    requires matches { Matches f.now l.now }
    requires low { All IsLow l.now.units }
    requires small { All (λ w. w.1 + 4 < 2 ^ 32) (map pool_place (zip f.now.words l.now.words) ++ islands l.now.units) }
    ensures symbols { IfOk result (λ n. (h : ObjectParts) (items : List Item) → HasSizes o.now h l.now.sizes → AreItemsOf f.now l.now items → AreNewSymbols o.now h f.now l.now items n.list.items n.targets.items n.first_target n.numbers.items) }
    ensures sound { IfOk result (λ n. (h : ObjectParts) (items : List Item) (rows : List MapRow) → HasSizes o.now h l.now.sizes → AreItemsOf f.now l.now items → AreSections o.now h rows → LieInside h f.now (places_of l.now) items → IsTrue (list_all (is_symbol h.sections) n.list.items && locals_first n.list.items)) }
    ensures rise { IfOk result (λ n. IsStrictlySortedBy place_cmp n.targets.items) }
    ensures numbered { IfOk result (λ n. n.first_target + length n.targets.items < 2 ^ 32) }
    ensures few { IfOk result (λ n. (h : ObjectParts) (items : List Item) → HasSizes o.now h l.now.sizes → AreItemsOf f.now l.now items → length n.list.items ≤ length o.now.symbols + length o.now.sections + 2 * (length f.now.words + length (islands l.now.units)) + length o.now.relocs) }
{
    o.sound();
    let targets = targets(alloc, o, f)?;
    let ordinals = ordinals(alloc, o.sections())?;
    let mut list = Vec::new(alloc);
    push_kept(&mut list, alloc, o, f, l)?;
    let mut mappings = mapping_symbols(alloc, o, f, l)?;
    list.append(&mut mappings)?;
    let first_target = number_behind(list.len(), targets.len())?;
    push_functions(&mut list, alloc, f, l, &ordinals, &targets)?;
    let first_shared = number_behind(list.len(), o.symbols().len())?;
    push_shared(&mut list, alloc, o, f, l)?;
    let numbers = numbers(alloc, o, f, l, first_shared)?;
    Ok(NewSymbols {
        list,
        targets,
        first_target,
        numbers,
    })
}
