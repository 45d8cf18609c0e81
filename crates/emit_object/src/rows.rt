//! The rows of the address map.

ghost use Rattle.std.specs.Prelude.{◌≡◌, ◌+◌, ◌*◌, ◌<◌, ◌≤◌, ◌^◌, ◌++◌, ℕ, All, None, map, length, IfOk, OnOk, IsTrue, slice_index};
ghost use Rattle.std.specs.List.{zip};
ghost use Rattle.elf_model.specs.Objects.{is_within};
ghost use Rattle.flow_recover.specs.Points.{end_of as end_of_point};
ghost use Rattle.flow_recover.specs.WholeFlows.{IsFlow};
ghost use Rattle.hardened_form.specs.Rows.{AreRows};
ghost use Rattle.branch_layout.specs.Laid.{laid_place as unit_place, laid_places as places_of};
ghost use Rattle.emit_object.specs.RowLists.{ordinals_from, start_row as start_row_of, return_row as return_row_of, is_earlier as is_earlier_row, merged, rows_from, UnitFits, PointFits};

use elf_model::{Limit, MapRow, Object, RowKind, Section, is_code};
use flow_recover::{Exit, Flow, Point};
use seq_core::{Layout, PlacedUnit};
use std::alloc::{AllocError, Global};

/// The number of each section among those of code, which is that of the next one where it has none.
pub(crate) fn ordinals(alloc: Global, sections: &[Section]) -> Result<Vec<u32>, AllocError>
    requires { length sections.now < 2 ^ 32 }
    ensures { IfOk result (λ list. list.items ≡ ordinals_from 0 sections.now) }
{
    let mut list = Vec::new(alloc);
    let mut count: u32 = 0;
    for s in sections {
        list.push(count)?;
        if is_code(s) {
            count += 1;
        }
    }
    Ok(list)
}

/// Where a point's instruction ends.
fn end_of(p: &Point) -> u32
    requires { p.now.offset + 4 < 2 ^ 32 }
    ensures { result ≡ end_of_point p.now }
{
    if p.wide { p.offset + 4 } else { p.offset + 2 }
}

/// Where a call in a unit comes back to.
fn back_of(u: &PlacedUnit) -> u32
    requires { UnitFits u.now }
    ensures { result ≡ (unit_place u.now).back }
{
    match u.landing() {
        Some(landing) => landing,
        None => u.start() + u.length(),
    }
}

/// The Start row of a point in the code section of this number.
fn start_row(ordinal: u32, p: &Point, u: &PlacedUnit) -> MapRow
    ensures { result ≡ start_row_of ordinal (p.now, unit_place u.now) }
{
    MapRow {
        section: ordinal,
        old: p.offset,
        new: u.start(),
        kind: RowKind::Start,
    }
}

/// The Return row of a point in the code section of this number, if it is a call.
fn return_row(ordinal: u32, p: &Point, u: &PlacedUnit) -> Option<MapRow>
    requires point { p.now.offset + 4 < 2 ^ 32 }
    requires unit { UnitFits u.now }
    ensures { result ≡ return_row_of ordinal (p.now, unit_place u.now) }
{
    match p.exit {
        Exit::Call => Some(MapRow {
            section: ordinal,
            old: end_of(p),
            new: back_of(u),
            kind: RowKind::Return,
        }),
        _ => None,
    }
}

/// Whether a row is of an earlier place than another.
fn is_earlier(r: &MapRow, s: &MapRow) -> bool
    ensures { result ≡ is_earlier_row r.now s.now }
{
    r.section < s.section || (r.section == s.section && r.old < s.old)
}

/// Adds a Start row, and the row that waits, in order.
fn push_rows(
    rows: &mut Vec<MapRow>,
    waiting: Option<MapRow>,
    start: MapRow,
) -> Result<(), AllocError>
    ensures { OnOk result (rows.new.items ≡ rows.old.items ++ merged waiting start) }
{
    match waiting {
        None => rows.push(start)?,
        Some(r) => {
            if is_earlier(&r, &start) {
                rows.push(r)?;
                rows.push(start)?;
            } else {
                rows.push(start)?;
                rows.push(r)?;
            }
        }
    }
    Ok(())
}

/// The rows of points with their units, by the numbers of their sections.
fn rows_in(
    alloc: Global,
    ordinals: &[u32],
    points: &[Point],
    units: &[PlacedUnit],
) -> Result<Vec<MapRow>, AllocError>
    requires count { length units.now ≡ length points.now }
    requires points { All (PointFits ordinals.now) points.now }
    requires units { All UnitFits units.now }
    ensures { IfOk result (λ rows. rows.items ≡ rows_from (λ j. slice_index ordinals.now j) None (zip points.now (map unit_place units.now))) }
{
    let mut rows = Vec::new(alloc);
    let mut waiting: Option<MapRow> = None;
    for k in 0..points.len() {
        let p = &points[k];
        let u = &units[k];
        let ordinal = ordinals[p.section as usize];
        push_rows(&mut rows, waiting, start_row(ordinal, p, u))?;
        waiting = return_row(ordinal, p, u);
    }
    if let Some(r) = waiting {
        rows.push(r)?;
    }
    Ok(rows)
}

/// The rows of the map, in order.
pub(crate) fn rows(
    alloc: Global,
    o: &Object,
    f: &Flow,
    l: &Layout,
) -> Result<Vec<MapRow>, AllocError>
    requires within { IsTrue (is_within o.now Limit.ANY) }
    requires flow { IsFlow o.now f.now }
    requires count { length l.now.units ≡ length f.now.points }
    requires units { All UnitFits l.now.units }
    ensures exact { IfOk result (λ rows. AreRows o.now f.now (places_of l.now) rows.items) }
    ensures few { IfOk result (λ rows. length rows.items ≤ 2 * length f.now.points) }
{
    o.sound();
    let numbers = ordinals(alloc, o.sections())?;
    let rows = rows_in(alloc, &numbers, f.points(), l.units())?;
    Ok(rows)
}
