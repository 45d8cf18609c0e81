//! The parts of the object that a file stands for.

ghost use Rattle.std.specs.Prelude.{◌≡◌, ◌≢◌, ◌<◌, ◌≤◌, ◌^◌, ◌+◌, ◌-◌, ◌*◌, ◌/◌, ◌%◌, ◌++◌, ◌==◌, drop, filter, [], ◌∷◌, ℕ, true, length, map, slice_index, IfOk, OnOk, Some, if◌then◌else◌, IsPermutation};
ghost use Rattle.std.specs.List.{before_first};
ghost use Rattle.std.specs.List.Sorted.{IsSortedByKey};
ghost use Rattle.std.specs.Rc.{rc_slice_items};
ghost use Rattle.elf_model.specs.Constants.{nobits};
ghost use Rattle.elf_model.specs.Fields.{half_at, word_at};
ghost use Rattle.elf_model.specs.Files.{from, header, header_count, entries_of, is_kept, is_kept_symbol, section_of, kept_headers, symbol_table, symbol_of, kept_symbols, home_of, contents, reloc_of, reloc_entries};
ghost use Rattle.elf_read.specs.Faults.{IsHeader, IsRelocAt};
ghost use Rattle.elf_read.specs.HeaderFaults.{IsTabled};
ghost use Rattle.elf_read.specs.Keeping.{kept_flags, symbol_flags, AreCounts, HasHomes, HasSymbols, is_kept_relocs, is_some_reloc};
ghost use Rattle.elf_read.specs.RelocFaults.{pair_cmp};

use crate::headers::{count, half, header_at, word};
use crate::keeping::{is_kept_symbol, kept_at, until_nul};
use crate::limits::is_kept_relocs;
use crate::names::symtab_of;
use crate::strings::contents;
use elf_model::numbers::{ABSOLUTE_INDEX, NOBITS, UNDEFINED_INDEX};
use elf_model::{Bytes, Home, Name, Reloc, RelocKind, Section, Symbol};
use std::alloc::{AllocError, Global};
use std::rc::RcSlice;

/// The bytes of a string table, for all names that it has.
fn texts_of(alloc: Global, bytes: &[u8], table: usize) -> Result<RcSlice<u8>, AllocError>
    requires tabled { IsTabled bytes.now }
    requires listed { IsHeader bytes.now table }
    requires stored { (header bytes.now table).kind ≢ nobits }
    ensures { IfOk result (λ texts. rc_slice_items texts ≡ contents bytes.now table) }
{
    RcSlice::from_slice(alloc, contents(bytes, table))
}

/// The name at an offset of a string table.
fn name_at(texts: &RcSlice<u8>, at: usize) -> Result<Name, AllocError>
    ensures { IfOk result (λ n. n ≡ before_first (λ c. c == 0) (drop at (rc_slice_items texts.now))) }
{
    let table = texts.as_slice();
    let start = at.min(table.len());
    let text = until_nul(&table[start..]);
    Name::of_table(texts, start, start + text.len())
}

/// The bytes that a section has in the file.
fn stored(bytes: &[u8], h: usize) -> &[u8]
    requires tabled { IsTabled bytes.now }
    requires listed { IsHeader bytes.now h }
    ensures { result.now ≡ (if (header bytes.now h).kind == nobits then [] else contents bytes.now h) }
{
    if header_at(bytes, h).kind == NOBITS {
        return &[];
    }
    contents(bytes, h)
}

fn section_at(
    alloc: Global,
    bytes: &[u8],
    texts: &RcSlice<u8>,
    h: usize,
) -> Result<Section, AllocError>
    requires tabled { IsTabled bytes.now }
    requires listed { IsHeader bytes.now h }
    requires texts { rc_slice_items texts.now ≡ contents bytes.now (half_at bytes.now 50) }
    ensures { IfOk result (λ s. s ≡ section_of bytes.now h) }
{
    let header = header_at(bytes, h);
    let name = name_at(texts, header.name as usize)?;
    let stored = Vec::from_slice(alloc, stored(bytes, h))?;
    Ok(Section {
        name,
        kind: header.kind,
        flags: header.flags,
        align: 1u32.max(header.align),
        entry: header.entry,
        size: header.size,
        bytes: Bytes::new(stored),
    })
}

fn push_section(
    alloc: Global,
    bytes: &[u8],
    texts: &RcSlice<u8>,
    kept: &[bool],
    h: usize,
    sections: &mut Vec<Section>,
) -> Result<(), AllocError>
    requires tabled { IsTabled bytes.now }
    requires kept { kept.now ≡ kept_flags bytes.now }
    requires listed { IsHeader bytes.now h }
    requires texts { rc_slice_items texts.now ≡ contents bytes.now (half_at bytes.now 50) }
    ensures { OnOk result (sections.new.items ≡ sections.old.items ++ (if is_kept bytes.now h then section_of bytes.now h ∷ [] else [])) }
{
    if !kept_at(bytes, kept, h) {
        return Ok(());
    }
    sections.push(section_at(alloc, bytes, texts, h)?)?;
    Ok(())
}

/// The sections of the object.
pub(crate) fn sections(
    alloc: Global,
    bytes: &[u8],
    kept: &[bool],
) -> Result<Vec<Section>, AllocError>
    requires tabled { IsTabled bytes.now }
    requires kept { kept.now ≡ kept_flags bytes.now }
    ensures { IfOk result (λ v. v.items ≡ map (section_of bytes.now) (kept_headers bytes.now)) }
{
    let mut sections = Vec::new(alloc);
    if count(bytes) == 0 {
        return Ok(sections);
    }
    let texts = texts_of(alloc, bytes, half(bytes, 50) as usize)?;
    for h in 1..count(bytes) {
        push_section(alloc, bytes, &texts, kept, h, &mut sections)?;
    }
    Ok(sections)
}

/// The number at a place of a table of numbers.
fn number_at(numbers: &[u32], k: usize) -> u32
    ensures { result ≡ slice_index numbers.now k }
{
    if k < numbers.len() { numbers[k] } else { 0 }
}

/// Where a symbol that is kept is defined.
fn home_of(bytes: &[u8], e: usize, numbers: &[u32]) -> Home
    requires inside { e + 16 ≤ length bytes.now }
    requires stays { is_kept_symbol bytes.now e ≡ true }
    requires numbers { AreCounts (kept_flags bytes.now) numbers.now }
    ensures { result ≡ home_of bytes.now (half_at bytes.now (e + 14)) }
{
    let index = half(bytes, e + 14);
    if index == UNDEFINED_INDEX {
        Home::Undefined
    } else if index == ABSOLUTE_INDEX {
        Home::Absolute
    } else {
        Home::Section(number_at(numbers, index as usize))
    }
}

fn symbol_at(
    bytes: &[u8],
    texts: &RcSlice<u8>,
    t: usize,
    e: usize,
    numbers: &[u32],
) -> Result<Symbol, AllocError>
    requires tabled { IsTabled bytes.now }
    requires table { symbol_table bytes.now ≡ Some t }
    requires texts { rc_slice_items texts.now ≡ contents bytes.now (header bytes.now t).link }
    requires inside { e + 16 ≤ length bytes.now }
    requires stays { is_kept_symbol bytes.now e ≡ true }
    requires numbers { AreCounts (kept_flags bytes.now) numbers.now }
    ensures { IfOk result (λ s. s ≡ symbol_of bytes.now e) }
{
    Ok(Symbol {
        name: name_at(texts, word(bytes, e) as usize)?,
        value: word(bytes, e + 4),
        size: word(bytes, e + 8),
        bind: bytes[e + 12] / 16,
        kind: bytes[e + 12] % 16,
        other: bytes[e + 13],
        home: home_of(bytes, e, numbers),
    })
}

fn push_symbol(
    bytes: &[u8],
    texts: &RcSlice<u8>,
    t: usize,
    e: usize,
    kept: &[bool],
    numbers: &[u32],
    symbols: &mut Vec<Symbol>,
) -> Result<(), AllocError>
    requires tabled { IsTabled bytes.now }
    requires table { symbol_table bytes.now ≡ Some t }
    requires texts { rc_slice_items texts.now ≡ contents bytes.now (header bytes.now t).link }
    requires inside { e + 16 ≤ length bytes.now }
    requires kept { kept.now ≡ kept_flags bytes.now }
    requires numbers { AreCounts (kept_flags bytes.now) numbers.now }
    ensures { OnOk result (symbols.new.items ≡ symbols.old.items ++ (if is_kept_symbol bytes.now e then symbol_of bytes.now e ∷ [] else [])) }
{
    if !is_kept_symbol(bytes, kept, e) {
        return Ok(());
    }
    symbols.push(symbol_at(bytes, texts, t, e, numbers)?)?;
    Ok(())
}

fn push_symbols(
    bytes: &[u8],
    texts: &RcSlice<u8>,
    t: usize,
    table: usize,
    n: usize,
    kept: &[bool],
    numbers: &[u32],
    symbols: &mut Vec<Symbol>,
) -> Result<(), AllocError>
    requires tabled { IsTabled bytes.now }
    requires table { symbol_table bytes.now ≡ Some t }
    requires texts { rc_slice_items texts.now ≡ contents bytes.now (header bytes.now t).link }
    requires inside { table + 16 * n ≤ length bytes.now }
    requires kept { kept.now ≡ kept_flags bytes.now }
    requires numbers { AreCounts (kept_flags bytes.now) numbers.now }
    ensures { OnOk result (symbols.new.items ≡ symbols.old.items ++ map (symbol_of bytes.now) (filter (is_kept_symbol bytes.now) (map (λ k. table + 16 * k) (from 1 (n - 1))))) }
{
    for k in 1..n {
        push_symbol(bytes, texts, t, table + 16 * k, kept, numbers, symbols)?;
    }
    Ok(())
}

/// The symbols of the object.
pub(crate) fn symbols(
    alloc: Global,
    bytes: &[u8],
    kept: &[bool],
    numbers: &[u32],
) -> Result<Vec<Symbol>, AllocError>
    requires tabled { IsTabled bytes.now }
    requires kept { kept.now ≡ kept_flags bytes.now }
    requires numbers { AreCounts (kept_flags bytes.now) numbers.now }
    ensures { IfOk result (λ v. v.items ≡ map (symbol_of bytes.now) (kept_symbols bytes.now)) }
{
    let mut symbols = Vec::new(alloc);
    let Some(t) = symtab_of(bytes) else {
        return Ok(symbols);
    };
    let header = header_at(bytes, t);
    let n = header.size as usize / 16;
    let texts = texts_of(alloc, bytes, header.link as usize)?;
    push_symbols(
        bytes,
        &texts,
        t,
        header.offset as usize,
        n,
        kept,
        numbers,
        &mut symbols,
    )?;
    Ok(symbols)
}

/// The relocation that stands at a place of the file.
fn reloc_at(bytes: &[u8], h: usize, r: usize, numbers: &[u32], symbols: &[u32]) -> Reloc
    requires tabled { IsTabled bytes.now }
    requires homes { HasHomes bytes.now }
    requires named { HasSymbols bytes.now }
    requires numbers { AreCounts (kept_flags bytes.now) numbers.now }
    requires symbols { AreCounts (symbol_flags bytes.now) symbols.now }
    requires stands { (j : ℕ) × IsRelocAt bytes.now h j r }
    requires some { word_at bytes.now (r + 4) % 256 ≢ 0 }
    ensures { result ≡ reloc_of bytes.now (h, r) }
{
    let info = word(bytes, r + 4);
    Reloc {
        section: number_at(numbers, header_at(bytes, h).info as usize),
        offset: word(bytes, r),
        kind: RelocKind::of_code((info % 256) as u8),
        symbol: number_at(symbols, info as usize / 256),
    }
}

fn push_reloc(
    bytes: &[u8],
    h: usize,
    r: usize,
    numbers: &[u32],
    symbols: &[u32],
    relocs: &mut Vec<Reloc>,
) -> Result<(), AllocError>
    requires tabled { IsTabled bytes.now }
    requires homes { HasHomes bytes.now }
    requires named { HasSymbols bytes.now }
    requires numbers { AreCounts (kept_flags bytes.now) numbers.now }
    requires symbols { AreCounts (symbol_flags bytes.now) symbols.now }
    requires stands { (j : ℕ) × IsRelocAt bytes.now h j r }
    ensures { OnOk result (relocs.new.items ≡ relocs.old.items ++ (if is_some_reloc bytes.now (h, r) then reloc_of bytes.now (h, r) ∷ [] else [])) }
{
    if word(bytes, r + 4) % 256 == 0 {
        return Ok(());
    }
    relocs.push(reloc_at(bytes, h, r, numbers, symbols))?;
    Ok(())
}

/// Adds the relocations of a header.
fn push_relocs(
    bytes: &[u8],
    h: usize,
    numbers: &[u32],
    symbols: &[u32],
    relocs: &mut Vec<Reloc>,
) -> Result<(), AllocError>
    requires tabled { IsTabled bytes.now }
    requires homes { HasHomes bytes.now }
    requires named { HasSymbols bytes.now }
    requires numbers { AreCounts (kept_flags bytes.now) numbers.now }
    requires symbols { AreCounts (symbol_flags bytes.now) symbols.now }
    requires listed { IsHeader bytes.now h }
    requires kind { is_kept_relocs bytes.now h ≡ true }
    ensures { OnOk result (relocs.new.items ≡ relocs.old.items ++ map (reloc_of bytes.now) (filter (is_some_reloc bytes.now) (entries_of bytes.now h))) }
{
    let header = header_at(bytes, h);
    for j in 0..header.size as usize / 8 {
        let r = header.offset as usize + 8 * j;
        push_reloc(bytes, h, r, numbers, symbols, relocs)?;
    }
    Ok(())
}

/// Adds the relocations of a header, if they are of a section that is kept.
fn push_kept_relocs(
    bytes: &[u8],
    h: usize,
    kept: &[bool],
    numbers: &[u32],
    symbols: &[u32],
    relocs: &mut Vec<Reloc>,
) -> Result<(), AllocError>
    requires tabled { IsTabled bytes.now }
    requires homes { HasHomes bytes.now }
    requires named { HasSymbols bytes.now }
    requires kept { kept.now ≡ kept_flags bytes.now }
    requires numbers { AreCounts (kept_flags bytes.now) numbers.now }
    requires symbols { AreCounts (symbol_flags bytes.now) symbols.now }
    requires listed { IsHeader bytes.now h }
    ensures { OnOk result (relocs.new.items ≡ relocs.old.items ++ map (reloc_of bytes.now) (filter (is_some_reloc bytes.now) (if is_kept_relocs bytes.now h then entries_of bytes.now h else []))) }
{
    if !is_kept_relocs(bytes, kept, h) {
        return Ok(());
    }
    push_relocs(bytes, h, numbers, symbols, relocs)
}

/// The relocations of the object, in the order of the file.
fn unsorted_relocs(
    alloc: Global,
    bytes: &[u8],
    kept: &[bool],
    numbers: &[u32],
    symbols: &[u32],
) -> Result<Vec<Reloc>, AllocError>
    requires tabled { IsTabled bytes.now }
    requires homes { HasHomes bytes.now }
    requires named { HasSymbols bytes.now }
    requires kept { kept.now ≡ kept_flags bytes.now }
    requires numbers { AreCounts (kept_flags bytes.now) numbers.now }
    requires symbols { AreCounts (symbol_flags bytes.now) symbols.now }
    ensures { IfOk result (λ v. v.items ≡ map (reloc_of bytes.now) (reloc_entries bytes.now)) }
{
    let mut relocs = Vec::new(alloc);
    for h in 1..count(bytes) {
        push_kept_relocs(bytes, h, kept, numbers, symbols, &mut relocs)?;
    }
    Ok(relocs)
}

/// The relocations of the object, by section and offset.
pub(crate) fn relocs(
    alloc: Global,
    bytes: &[u8],
    kept: &[bool],
    numbers: &[u32],
    symbols: &[u32],
) -> Result<Vec<Reloc>, AllocError>
    requires tabled { IsTabled bytes.now }
    requires homes { HasHomes bytes.now }
    requires named { HasSymbols bytes.now }
    requires kept { kept.now ≡ kept_flags bytes.now }
    requires numbers { AreCounts (kept_flags bytes.now) numbers.now }
    requires symbols { AreCounts (symbol_flags bytes.now) symbols.now }
    ensures same { IfOk result (λ v. IsPermutation (map (reloc_of bytes.now) (reloc_entries bytes.now)) v.items) }
    ensures sorted { IfOk result (λ v. IsSortedByKey (λ r. (r.section, r.offset)) pair_cmp v.items) }
{
    let mut relocs = unsorted_relocs(alloc, bytes, kept, numbers, symbols)?;
    relocs.sort_unstable_by_key(|r| (r.section, r.offset));
    Ok(relocs)
}
