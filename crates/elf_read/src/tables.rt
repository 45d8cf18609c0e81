//! The first fault of the table of section headers.

ghost use Rattle.std.specs.Prelude.{◌≡◌, ◌≤◌, ◌<◌, ◌^◌, ◌==◌, ◌||◌, ℕ, length, IfSome};
ghost use Rattle.elf_model.specs.declared.refusals.Limit.{Limit};
ghost use Rattle.elf_model.specs.declared.refusals.Refusal.TheVariants.{BadTable};
ghost use Rattle.elf_model.specs.Constants.{symtab, rel};
ghost use Rattle.elf_model.specs.Files.{header_count};
ghost use Rattle.elf_read.specs.Faults.{Fault};
ghost use Rattle.elf_read.specs.HeaderFaults.{has_kind, is_target, is_outside, is_uneven, is_mislinked, is_astray, is_misaligned, is_missized, table_tests, header_tests};
ghost use Rattle.elf_read.specs.Headers.{fields_of, HasHeaders};
ghost use Rattle.elf_read.specs.Places.{IsLowest, first_of};

use crate::headers::{Header, count, half, header_at, place, word};
use crate::places::Place;
use elf_model::numbers::{NOBITS, REL, STRTAB, SYMTAB};
use elf_model::{is_alignment, is_table};

/// Whether a number is that of a header of a kind, and not of the null header.
pub(crate) fn has_kind(bytes: &[u8], h: u32, kind: u32) -> bool
    requires { HasHeaders bytes.now }
    ensures { result ≡ has_kind bytes.now h kind }
{
    let h = h as usize;
    0 < h && h < count(bytes) && header_at(bytes, h).kind == kind
}

/// Whether relocations may be of the section with this number.
fn is_target(bytes: &[u8], h: u32) -> bool
    requires { HasHeaders bytes.now }
    ensures { result ≡ is_target bytes.now h }
{
    let h = h as usize;
    if h == 0 || count(bytes) <= h {
        return false;
    }
    !is_table(header_at(bytes, h).kind)
}

fn is_outside(bytes: &[u8], f: &Header) -> bool
    ensures { result ≡ is_outside bytes.now (fields_of f.now) }
{
    f.kind != NOBITS && bytes.len() < f.offset as usize + f.size as usize
}

fn is_uneven(f: &Header) -> bool
    ensures { result ≡ is_uneven (fields_of f.now) }
{
    f.kind == SYMTAB && f.size % 16 != 0 || f.kind == REL && f.size % 8 != 0
}

fn is_mislinked(bytes: &[u8], f: &Header) -> bool
    requires { HasHeaders bytes.now }
    ensures { result ≡ is_mislinked bytes.now (fields_of f.now) }
{
    f.kind == SYMTAB && !has_kind(bytes, f.link, STRTAB)
        || f.kind == REL && !has_kind(bytes, f.link, SYMTAB)
}

fn is_astray(bytes: &[u8], f: &Header) -> bool
    requires { HasHeaders bytes.now }
    ensures { result ≡ is_astray bytes.now (fields_of f.now) }
{
    f.kind == REL && !is_target(bytes, f.info)
}

fn is_misaligned(f: &Header) -> bool
    ensures { result ≡ is_misaligned (fields_of f.now) }
{
    f.align != 0 && !is_alignment(f.align)
}

fn is_missized(f: &Header) -> bool
    ensures { result ≡ is_missized (fields_of f.now) }
{
    f.kind == SYMTAB && f.entry != 16 || f.kind == REL && f.entry != 8
}

/// The first offset of the file header at which it is wrong about the table.
fn table_fault(bytes: &[u8]) -> Option<u32>
    requires { 52 ≤ length bytes.now }
    ensures { result ≡ first_of (table_tests bytes.now) }
{
    if bytes.len() < place(bytes, count(bytes)) {
        return Some(32);
    }
    if half(bytes, 46) != 40 {
        return Some(46);
    }
    let names = half(bytes, 50) as u32;
    if !has_kind(bytes, names, STRTAB) {
        return Some(50);
    }
    None
}

/// The first offset of a section header, from its start, at which it is wrong; `seen` says that a
/// symbol table stands before it.
fn header_fault(bytes: &[u8], f: &Header, seen: bool) -> Option<u32>
    requires { HasHeaders bytes.now }
    ensures { result ≡ first_of (header_tests seen bytes.now (fields_of f.now)) }
{
    if seen && f.kind == SYMTAB {
        Some(4)
    } else if is_outside(bytes, f) {
        Some(16)
    } else if is_uneven(f) {
        Some(20)
    } else if is_mislinked(bytes, f) {
        Some(24)
    } else if is_astray(bytes, f) {
        Some(28)
    } else if is_misaligned(f) {
        Some(32)
    } else if is_missized(f) {
        Some(36)
    } else {
        None
    }
}

/// The first fault of the table of section headers, and of what the headers say.
pub(crate) fn first_bad_table(bytes: &[u8]) -> Option<Place>
    requires long { 52 ≤ length bytes.now }
    requires small { length bytes.now < 2 ^ 32 }
    ensures { (l : Limit) → IsLowest (Fault bytes.now l BadTable) result }
{
    let n = count(bytes);
    if n == 0 {
        return None;
    }
    if let Some(offset) = table_fault(bytes) {
        return Some(Place { section: 0, offset });
    }
    let mut seen = false;
    for h in 1..n {
        let f = header_at(bytes, h);
        if let Some(field) = header_fault(bytes, &f, seen) {
            let offset = place(bytes, h) as u32 + field;
            let section = h as u32;
            return Some(Place { section, offset });
        }
        seen = seen || f.kind == SYMTAB;
    }
    None
}
