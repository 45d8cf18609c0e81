//! Where words of hardened code stand, and where units with bytes begin.

ghost use Rattle.std.specs.Prelude.{◌≡◌, ◌++◌, map, length, IfOk, OnOk};
ghost use Rattle.std.specs.List.{zip};
ghost use Rattle.emit_object.specs.WordPlaces.{pool_place, island_place, islands, begin_place, begins, IsSetOf};

use flow_recover::PoolWord;
use seq_core::PlacedUnit;
use std::alloc::{AllocError, Global};
use std::collections::BTreeSet;

/// The places of pool words, each by its section and new offset.
pub(crate) fn pool_places(
    alloc: Global,
    words: &[PoolWord],
    places: &[u32],
) -> Result<Vec<(u32, u32)>, AllocError>
    requires { length places.now ≡ length words.now }
    ensures { IfOk result (λ list. list.items ≡ map pool_place (zip words.now places.now)) }
{
    let mut list = Vec::new(alloc);
    for k in 0..words.len() {
        list.push((words[k].section, places[k]))?;
    }
    Ok(list)
}

/// Adds the place of the word that a unit has behind it.
fn add_island(list: &mut Vec<(u32, u32)>, u: &PlacedUnit) -> Result<(), AllocError>
    ensures { OnOk result (list.new.items ≡ list.old.items ++ island_place u.now) }
{
    if let Some(at) = u.island() {
        list.push((u.unit().section, at))?;
    }
    Ok(())
}

/// Adds the places of words that units have behind them.
pub(crate) fn add_islands(
    list: &mut Vec<(u32, u32)>,
    units: &[PlacedUnit],
) -> Result<(), AllocError>
    ensures { OnOk result (list.new.items ≡ list.old.items ++ islands units.now) }
{
    for u in units {
        add_island(list, u)?;
    }
    Ok(())
}

/// Adds the place where a unit with bytes begins.
fn add_begin(list: &mut Vec<(u32, u32)>, u: &PlacedUnit) -> Result<(), AllocError>
    ensures { OnOk result (list.new.items ≡ list.old.items ++ begin_place u.now) }
{
    if 0 < u.length() {
        list.push((u.unit().section, u.start()))?;
    }
    Ok(())
}

/// The places where units with bytes begin.
pub(crate) fn begin_places(
    alloc: Global,
    units: &[PlacedUnit],
) -> Result<Vec<(u32, u32)>, AllocError>
    ensures { IfOk result (λ list. list.items ≡ begins units.now) }
{
    let mut list = Vec::new(alloc);
    for u in units {
        add_begin(&mut list, u)?;
    }
    Ok(list)
}

/// The set of some places.
pub(crate) fn set_of(alloc: Global, list: &[(u32, u32)]) -> Result<BTreeSet<(u32, u32)>, AllocError>
    ensures { IfOk result (λ set. IsSetOf set list.now) }
{
    let mut set = BTreeSet::new(alloc);
    for p in list {
        set.insert(*p)?;
    }
    Ok(set)
}
