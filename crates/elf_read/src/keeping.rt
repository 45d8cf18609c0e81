//! Which sections and symbols of a file are kept.

ghost use Rattle.std.specs.Prelude.{◌≡◌, ◌≤◌, ◌<◌, ◌+◌, ◌^◌, ℕ, List, length, IfOk, OnOk, Some, map, ◌++◌, ◌-◌, ◌*◌, ◌/◌, not, ◌&&◌, ◌||◌, ◌==◌};
ghost use Rattle.std.specs.Prelude.{◌≢◌, drop, take};
ghost use Rattle.elf_model.specs.Fields.{half_at};
ghost use Rattle.std.specs.List.{before_first};
ghost use Rattle.elf_model.specs.Constants.{symtab, strtab, nobits};
ghost use Rattle.elf_model.specs.Files.{header, header_count, contents, is_dropped, is_kept, is_kept_symbol, text_at, section_name, symbol_table, from, IsKind};
ghost use Rattle.elf_read.specs.Keeping.{kept_flags, symbol_flags, flag_at, AreCounts};
ghost use Rattle.elf_read.specs.HeaderFaults.{IsTabled};
ghost use Rattle.elf_read.specs.Faults.{IsHeader};

use crate::headers::{count, half, header_at};
use crate::names::symtab_of;
use crate::strings::contents;
use elf_model::numbers::{ABSOLUTE_INDEX, ARM_EXIDX, UNDEFINED_INDEX};
use elf_model::{is_alloc, is_dropped_name, is_kept_kind, is_refused_kind, is_table};
use std::alloc::{AllocError, Global};

/// The text up to a NUL, or all of it where there is none.
pub(crate) fn until_nul(text: &[u8]) -> &[u8]
    ensures { result.now ≡ before_first (λ c. c == 0) text.now }
{
    for (i, b) in text.iter().enumerate() {
        if *b == 0 {
            return &text[..i];
        }
    }
    text
}

/// What stands from a place on, or nothing where the place is behind the end.
fn behind(text: &[u8], at: usize) -> &[u8]
    ensures { result.now ≡ drop at text.now }
{
    if at <= text.len() {
        &text[at..]
    } else {
        &text[text.len()..]
    }
}

/// So many bytes, or all where there are fewer.
fn front(text: &[u8], most: usize) -> &[u8]
    ensures { result.now ≡ take most text.now }
{
    if most <= text.len() {
        &text[..most]
    } else {
        text
    }
}

/// The text at an offset of a string table, up to its NUL or to the table's end.
pub(crate) fn text_at(bytes: &[u8], table: usize, at: usize) -> &[u8]
    requires tabled { IsTabled bytes.now }
    requires listed { IsHeader bytes.now table }
    requires stored { (header bytes.now table).kind ≢ nobits }
    ensures { result.now ≡ text_at bytes.now table at }
{
    until_nul(behind(contents(bytes, table), at))
}

/// The text at an offset of a string table, of which no more bytes than these are looked at.
fn text_start(bytes: &[u8], table: usize, at: usize, most: usize) -> &[u8]
    requires tabled { IsTabled bytes.now }
    requires listed { IsHeader bytes.now table }
    requires stored { (header bytes.now table).kind ≢ nobits }
    ensures { result.now ≡ before_first (λ c. c == 0) (take most (drop at (contents bytes.now table))) }
{
    until_nul(front(behind(contents(bytes, table), at), most))
}

/// The first bytes of the name of a section.
pub(crate) fn name_start(bytes: &[u8], h: usize, most: usize) -> &[u8]
    requires tabled { IsTabled bytes.now }
    requires listed { h < header_count bytes.now }
    ensures { result.now ≡ before_first (λ c. c == 0) (take most (drop (header bytes.now h).name (contents bytes.now (half_at bytes.now 50)))) }
{
    text_start(
        bytes,
        half(bytes, 50) as usize,
        header_at(bytes, h).name as usize,
        most,
    )
}

/// The name of a section.
pub(crate) fn section_name(bytes: &[u8], h: usize) -> &[u8]
    requires tabled { IsTabled bytes.now }
    requires listed { h < header_count bytes.now }
    ensures { result.now ≡ section_name bytes.now h }
{
    text_at(
        bytes,
        half(bytes, 50) as usize,
        header_at(bytes, h).name as usize,
    )
}

/// Whether a section is left out, with its symbols and relocations.
pub(crate) fn is_dropped(bytes: &[u8], h: usize) -> bool
    requires tabled { IsTabled bytes.now }
    requires listed { h < header_count bytes.now }
    ensures { result ≡ is_dropped bytes.now h }
{
    let header = header_at(bytes, h);
    !is_refused_kind(header.kind)
        && (is_dropped_name(section_name(bytes, h))
            || header.kind == ARM_EXIDX
            || !(is_alloc(header.flags) || is_kept_kind(header.kind, header.flags)))
}

/// Whether a section becomes one of the object.
pub(crate) fn is_kept(bytes: &[u8], h: usize) -> bool
    requires tabled { IsTabled bytes.now }
    requires listed { h < header_count bytes.now }
    ensures { result ≡ is_kept bytes.now h }
{
    !is_table(header_at(bytes, h).kind) && !is_dropped(bytes, h)
}

/// For each header whether its section is kept.
pub(crate) fn kept_flags(alloc: Global, bytes: &[u8]) -> Result<Vec<bool>, AllocError>
    requires { IsTabled bytes.now }
    ensures { IfOk result (λ v. v.items ≡ kept_flags bytes.now) }
{
    let mut flags = Vec::new(alloc);
    flags.push(false)?;
    for h in 1..count(bytes) {
        flags.push(is_kept(bytes, h))?;
    }
    Ok(flags)
}

/// The flag of a number, which is not set where there is none.
pub(crate) fn flag(flags: &[bool], k: usize) -> bool
    ensures { result ≡ flag_at flags.now k }
{
    k < flags.len() && flags[k]
}

/// Whether a header's section is kept, by the flags.
pub(crate) fn kept_at(bytes: &[u8], kept: &[bool], h: usize) -> bool
    requires listed { IsHeader bytes.now h }
    requires kept { kept.now ≡ kept_flags bytes.now }
    ensures { result ≡ is_kept bytes.now h }
{
    flag(kept, h)
}

/// Whether a symbol goes into the object.
#[tactic(auto, using(crate::proofs::Flags::kept_symbol_is))]
pub(crate) fn is_kept_symbol(bytes: &[u8], kept: &[bool], e: usize) -> bool
    requires inside { e + 16 ≤ length bytes.now }
    requires kept { kept.now ≡ kept_flags bytes.now }
    ensures { result ≡ is_kept_symbol bytes.now e }
{
    let index = half(bytes, e + 14);
    index == UNDEFINED_INDEX || index == ABSOLUTE_INDEX || flag(kept, index as usize)
}

fn push_symbol_flags(
    bytes: &[u8],
    table: usize,
    n: usize,
    kept: &[bool],
    flags: &mut Vec<bool>,
) -> Result<(), AllocError>
    requires inside { table + 16 * n ≤ length bytes.now }
    requires kept { kept.now ≡ kept_flags bytes.now }
    ensures { OnOk result (flags.new.items ≡ flags.old.items ++ map (λ k. is_kept_symbol bytes.now (table + 16 * k)) (from 1 (n - 1))) }
{
    for k in 1..n {
        flags.push(is_kept_symbol(bytes, kept, table + 16 * k))?;
    }
    Ok(())
}

/// For each symbol of the file whether it is kept.
pub(crate) fn symbol_flags(
    alloc: Global,
    bytes: &[u8],
    kept: &[bool],
) -> Result<Vec<bool>, AllocError>
    requires tabled { IsTabled bytes.now }
    requires kept { kept.now ≡ kept_flags bytes.now }
    ensures { IfOk result (λ v. v.items ≡ symbol_flags bytes.now) }
{
    let mut flags = Vec::new(alloc);
    flags.push(false)?;
    let Some(t) = symtab_of(bytes) else {
        return Ok(flags);
    };
    let header = header_at(bytes, t);
    let n = header.size as usize / 16;
    push_symbol_flags(bytes, header.offset as usize, n, kept, &mut flags)?;
    Ok(flags)
}

/// How many flags are set before each.
pub(crate) fn counts(alloc: Global, flags: &[bool]) -> Result<Vec<u32>, AllocError>
    requires { length flags.now < 2 ^ 32 }
    ensures { IfOk result (λ v. AreCounts flags.now v.items) }
{
    let mut counts = Vec::new(alloc);
    let mut n: u32 = 0;
    for flag in flags {
        counts.push(n)?;
        if *flag {
            n += 1;
        }
    }
    Ok(counts)
}
