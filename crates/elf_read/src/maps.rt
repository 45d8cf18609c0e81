//! The rows of the address map of an object that was hardened.

ghost use Rattle.std.specs.Prelude.{◌≡◌, ◌≤◌, ◌+◌, ◌%◌, ℕ, length, IfOk, IfErr};
ghost use Rattle.elf_model.specs.Maps.{row_kind, AreRows, HasMap, is_map_named};
ghost use Rattle.elf_read.specs.MapRefusals.{HasNoMap, IsDenied, map_spot};
ghost use Rattle.elf_read.specs.MapRows.{HasNoRows, IsNext, IsOnly, IsRowAt, is_before, is_plain, row_kind_of, may_come, rising};

use crate::headers::word;
use elf_model::numbers::PROGBITS;
use elf_model::{Deny, MapRow, Object, Refusal, RowKind, Section, Spot};
use std::alloc::Global;

/// What an object is refused for that has no map.
fn refused() -> Deny
    ensures { result ≡ map_spot }
{
    Deny::Refused(Spot {
        refusal: Refusal::SectionKind,
        file: 0,
        section: 0,
        offset: 0,
    })
}

fn is_named(s: &Section) -> bool
    ensures { result ≡ is_map_named s.now }
{
    s.name.bytes() == b".skipguard.map".as_slice()
}

/// The first section from a number on that has the name of a map.
fn next_map(sections: &[Section], first: usize) -> Option<usize>
    ensures { IsNext sections.now first result }
{
    for i in first..sections.len() {
        if is_named(&sections[i]) {
            return Some(i);
        }
    }
    None
}

/// The one section that has the name of a map.
fn only_map(sections: &[Section]) -> Option<usize>
    ensures { IsOnly sections.now result }
{
    let Some(i) = next_map(sections, 0) else {
        return None;
    };
    let Some(_) = next_map(sections, i + 1) else {
        return Some(i);
    };
    None
}

/// Whether a section is of the form that a map has.
fn is_plain(s: &Section) -> bool
    ensures { result ≡ is_plain s.now }
{
    s.kind == PROGBITS && s.flags == 0 && s.entry == 16 && s.bytes.as_slice().len() % 16 == 0
}

/// The kind of a row with a code.
fn row_kind_of(code: u32) -> Option<RowKind>
    ensures { result ≡ row_kind_of code }
{
    if code == 0 {
        return Some(RowKind::Start);
    }
    if code == 1 {
        return Some(RowKind::Return);
    }
    None
}

/// The row that stands at a place.
fn row_at(bytes: &[u8], at: usize) -> Option<MapRow>
    requires inside { at + 16 ≤ length bytes.now }
    ensures { IsRowAt bytes.now at result }
{
    let Some(kind) = row_kind_of(word(bytes, at + 12)) else {
        return None;
    };
    Some(MapRow {
        section: word(bytes, at),
        old: word(bytes, at + 4),
        new: word(bytes, at + 8),
        kind,
    })
}

/// The rows that these bytes are.
fn rows_of(alloc: Global, bytes: &[u8]) -> Result<Vec<MapRow>, Deny>
    requires whole { length bytes.now % 16 ≡ 0 }
    ensures rows { IfOk result (λ rows. AreRows bytes.now rows.items) }
    ensures refused { IfErr result (IsDenied (HasNoRows bytes.now)) }
{
    let mut rows = Vec::new(alloc);
    for i in 0..bytes.len() / 16 {
        let Some(row) = row_at(bytes, 16 * i) else {
            return Err(refused());
        };
        rows.push(row)?;
    }
    Ok(rows)
}

fn code_of(kind: RowKind) -> u32
    ensures { result ≡ row_kind kind }
{
    match kind {
        RowKind::Start => 0,
        RowKind::Return => 1,
    }
}

fn is_before(a: MapRow, b: MapRow) -> bool
    ensures { result ≡ is_before a b }
{
    a.section < b.section
        || (a.section == b.section
            && (a.old < b.old || (a.old == b.old && code_of(a.kind) < code_of(b.kind))))
}

fn may_come(last: Option<MapRow>, r: MapRow) -> bool
    ensures { result ≡ may_come last r }
{
    match last {
        Some(last) => is_before(last, r),
        None => true,
    }
}

/// Whether each row stands above those before it.
fn rise(rows: &[MapRow]) -> bool
    ensures { result ≡ rising rows.now }
{
    let mut last: Option<MapRow> = None;
    for r in rows {
        if !may_come(last, *r) {
            return false;
        }
        last = Some(*r);
    }
    true
}

/// The rows of an object's address map, or a refusal where it has none.
pub fn read_map(alloc: Global, o: &Object) -> Result<Vec<MapRow>, Deny>
    ensures rows { IfOk result (λ rows. HasMap o.now rows.items) }
    ensures refused { IfErr result (IsDenied (HasNoMap o.now)) }
{
    let sections = o.sections();
    let Some(k) = only_map(sections) else {
        return Err(refused());
    };
    if !is_plain(&sections[k]) {
        return Err(refused());
    }
    let rows = rows_of(alloc, sections[k].bytes.as_slice())?;
    if !rise(&rows) {
        return Err(refused());
    }
    Ok(rows)
}
