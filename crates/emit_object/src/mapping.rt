//! The mapping symbols of hardened code.

ghost use Rattle.std.specs.Prelude.{◌≡◌, ◌+◌, ◌<◌, ◌^◌, ◌++◌, ℕ, List, All, map, length, IfOk, IsTrue};
ghost use Rattle.std.specs.List.{zip};
ghost use Rattle.elf_model.specs.Objects.{ObjectParts, is_within};
ghost use Rattle.hardened_form.specs.MappingSymbols.{Mapping, AreMappings, mapping_symbol as symbol_of_mapping};
ghost use Rattle.branch_layout.specs.Laid.{laid_places as places_of};
ghost use Rattle.emit_object.specs.WordPlaces.{pool_place, islands};
ghost use Rattle.emit_object.specs.Marks.{mapping_at};
ghost use Rattle.emit_object.specs.Laid.{Matches, HasSizes};

use crate::marks::marks;
use crate::word_places::{add_islands, begin_places, pool_places, set_of};
use elf_model::numbers::{LOCAL, NOTYPE};
use elf_model::{Home, Limit, Name, Object, Symbol};
use flow_recover::Flow;
use seq_core::Layout;
use std::alloc::{AllocError, Global};
use std::collections::BTreeSet;

/// The places of all words of code: those of the pool, and those that units have behind them.
fn word_places(alloc: Global, f: &Flow, l: &Layout) -> Result<Vec<(u32, u32)>, AllocError>
    requires { length l.now.words ≡ length f.now.words }
    ensures { IfOk result (λ list. list.items ≡ map pool_place (zip f.now.words l.now.words) ++ islands l.now.units) }
{
    let mut list = pool_places(alloc, f.words(), l.words())?;
    add_islands(&mut list, l.units())?;
    Ok(list)
}

/// The mapping symbol at a place: of data at a word, else of code.
fn mapping_symbol(
    alloc: Global,
    words: &BTreeSet<(u32, u32)>,
    p: (u32, u32),
) -> Result<Symbol, AllocError>
    ensures { IfOk result (λ s. s ≡ symbol_of_mapping (mapping_at words.now p)) }
{
    let name = if words.contains(&p) {
        Vec::from_array(alloc, [b'$', b'd'])?
    } else {
        Vec::from_array(alloc, [b'$', b't'])?
    };
    Ok(Symbol {
        name: Name::new(name),
        value: p.1,
        size: 0,
        bind: LOCAL,
        kind: NOTYPE,
        other: 0,
        home: Home::Section(p.0),
    })
}

/// The mapping symbols at places.
fn symbols_at(
    alloc: Global,
    words: &BTreeSet<(u32, u32)>,
    places: &[(u32, u32)],
) -> Result<Vec<Symbol>, AllocError>
    ensures { IfOk result (λ list. list.items ≡ map symbol_of_mapping (map (mapping_at words.now) places.now)) }
{
    let mut list = Vec::new(alloc);
    for p in places {
        list.push(mapping_symbol(alloc, words, *p)?)?;
    }
    Ok(list)
}

/// The mapping symbols of the hardened code, in order.
pub(crate) fn mapping_symbols(
    alloc: Global,
    o: &Object,
    f: &Flow,
    l: &Layout,
) -> Result<Vec<Symbol>, AllocError>
    requires within { IsTrue (is_within o.now Limit.ANY) }
    requires matches { Matches f.now l.now }
    requires small { All (λ w. w.1 + 4 < 2 ^ 32) (map pool_place (zip f.now.words l.now.words) ++ islands l.now.units) }
    ensures { IfOk result (λ list. (h : ObjectParts) → HasSizes o.now h l.now.sizes → (mappings : List Mapping) × AreMappings h f.now (places_of l.now) mappings × (list.items ≡ map symbol_of_mapping mappings)) }
{
    o.sound();
    let all = word_places(alloc, f, l)?;
    let words = set_of(alloc, &all)?;
    let starts = begin_places(alloc, l.units())?;
    let begins = set_of(alloc, &starts)?;
    let places = marks(alloc, &words, &begins, &all, l.sizes(), o.sections())?;
    let list = symbols_at(alloc, &words, &places)?;
    Ok(list)
}
