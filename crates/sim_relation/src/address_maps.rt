//! The map between addresses of two images, by the address maps of hardened objects.

ghost use Rattle.std.specs.Prelude.{◌≡◌, ◌<◌, ◌+◌, ◌^◌, ◌++◌, ◌↔◌, ℕ, All, IfOk, OnOk, map, slice_get};
ghost use Rattle.sim_relation.specs.AddressMaps.{TakesEntry, TakesReturn};
ghost use Rattle.sim_relation.specs.Taken.{TakenTo, by_parts, by_rows, by_twins, is_kind as same_kind, is_row_of as row_of, is_twin as twin, lies_at as at, rows_in};

use elf_model::{MapRow, RowKind};
use std::alloc::{AllocError, Global};
use std::marker::Model;
use thumb_table::{Image, Part};

/// An address of the plain image and the hardened one that stands for it, by a row of a map; bit 0 is to
/// be the address's own.
#[derive(Clone, Copy, Debug, PartialEq, Eq)]
pub struct Taken {
    pub from: u32,
    pub to: u32,
}

/// The addresses of entries and of returns that maps take.
#[derive(Debug, Drop)]
pub struct AddressMap {
    entries: Vec<Taken>,
    returns: Vec<Taken>,
}

impl Model for AddressMap {
    ghost use Rattle.sim_relation.specs.Taken.{MapParts};

    ghost Value = { MapParts };

    ghost view = { λ m. record { entries = m.entries.items; returns = m.returns.items } };
}

impl AddressMap {
    /// The map between two images of as many objects, by the rows of each object's map.
    pub fn of(
        alloc: Global,
        plain: &Image,
        hard: &Image,
        maps: &[Vec<MapRow>],
    ) -> Result<AddressMap, AllocError>
        requires inside { All (λ p. p.start + p.size < 2 ^ 32) plain.now.parts }
        ensures entries { IfOk result (λ m. (a b : ℕ) → TakenTo m.entries a b ↔ TakesEntry plain.now hard.now (map (λ rows. rows.items) maps.now) a b) }
        ensures returns { IfOk result (λ m. (a b : ℕ) → TakenTo m.returns a b ↔ TakesReturn plain.now hard.now (map (λ rows. rows.items) maps.now) a b) }
    {
        let entries = all_taken(alloc, RowKind::Start, plain.parts(), hard.parts(), maps)?;
        let returns = all_taken(alloc, RowKind::Return, plain.parts(), hard.parts(), maps)?;
        Ok(AddressMap { entries, returns })
    }

    /// The addresses of entries that it takes.
    pub(crate) fn entries(&self) -> &[Taken]
        ensures { result.now ≡ self.now.entries }
    {
        self.entries.as_slice()
    }

    /// Those that calls return to.
    pub(crate) fn returns(&self) -> &[Taken]
        ensures { result.now ≡ self.now.returns }
    {
        self.returns.as_slice()
    }
}

fn is_kind(kind: RowKind, other: RowKind) -> bool
    ensures { result ≡ same_kind kind other }
{
    match (kind, other) {
        (RowKind::Start, RowKind::Start) => true,
        (RowKind::Return, RowKind::Return) => true,
        _ => false,
    }
}

/// Whether such a row may have this old offset in a section of so many bytes.
fn lies_at(kind: RowKind, old: u32, size: u32) -> bool
    ensures { result ≡ at kind old size }
{
    match kind {
        RowKind::Start => old < size,
        RowKind::Return => 0 < old && old <= size,
    }
}

fn is_row_of(kind: RowKind, part: &Part, row: &MapRow) -> bool
    ensures { result ≡ row_of kind part.now row.now }
{
    row.section == part.ordinal && is_kind(kind, row.kind) && lies_at(kind, row.old, part.size)
}

/// Whether a hardened section is that of a plain one.
fn is_twin(part: &Part, other: &Part) -> bool
    ensures { result ≡ twin part.now other.now }
{
    other.code && other.object == part.object && other.ordinal == part.ordinal
}

fn take_row(
    out: &mut Vec<Taken>,
    part: &Part,
    row: &MapRow,
    hard: &[Part],
) -> Result<(), AllocError>
    requires { part.now.start + row.now.old < 2 ^ 32 }
    ensures { OnOk result (out.new.items ≡ out.old.items ++ by_twins part.now row.now hard.now) }
{
    for other in hard {
        if is_twin(part, other) {
            out.push(Taken {
                from: part.start + row.old,
                to: other.start.wrapping_add(row.new),
            })?;
        }
    }
    Ok(())
}

fn take_rows(
    out: &mut Vec<Taken>,
    kind: RowKind,
    part: &Part,
    hard: &[Part],
    rows: &[MapRow],
) -> Result<(), AllocError>
    requires { part.now.start + part.now.size < 2 ^ 32 }
    ensures { OnOk result (out.new.items ≡ out.old.items ++ by_rows kind part.now hard.now rows.now) }
{
    for row in rows {
        if is_row_of(kind, part, row) {
            take_row(out, part, row, hard)?;
        }
    }
    Ok(())
}

/// The rows of an object's map.
fn rows_of(maps: &[Vec<MapRow>], object: u32) -> &[MapRow]
    ensures { result.now ≡ rows_in (slice_get (map (λ rows. rows.items) maps.now) object) }
{
    match maps.get(object as usize) {
        None => &[],
        Some(rows) => rows.as_slice(),
    }
}

fn all_taken(
    alloc: Global,
    kind: RowKind,
    plain: &[Part],
    hard: &[Part],
    maps: &[Vec<MapRow>],
) -> Result<Vec<Taken>, AllocError>
    requires { All (λ p. p.start + p.size < 2 ^ 32) plain.now }
    ensures { IfOk result (λ out. out.items ≡ by_parts kind hard.now (map (λ rows. rows.items) maps.now) plain.now) }
{
    let mut out = Vec::new(alloc);
    for part in plain {
        if part.code {
            take_rows(&mut out, kind, part, hard, rows_of(maps, part.object))?;
        }
    }
    Ok(out)
}
