//! The first number of a file that passes the limit.

ghost use Rattle.std.specs.Prelude.{◌≡◌, ◌<◌, ◌^◌, ℕ, length, ◌&&◌, ◌==◌};
ghost use Rattle.elf_model.specs.declared.refusals.Refusal.TheVariants.{TooMany};
ghost use Rattle.elf_model.specs.Constants.{rel};
ghost use Rattle.elf_model.specs.Files.{header, header_count, is_kept};
ghost use Rattle.elf_read.specs.Faults.{Fault, IsHeader, is_code_header};
ghost use Rattle.elf_read.specs.HeaderFaults.{IsTabled};
ghost use Rattle.elf_read.specs.Keeping.{kept_flags, is_kept_relocs, relocs_at, code_at, symbols_at, passes};
ghost use Rattle.elf_read.specs.Places.{IsLowest};

use crate::headers::{count, header_at, place};
use crate::keeping::kept_at;
use crate::places::Place;
use elf_model::numbers::{REL, SYMTAB};
use elf_model::{Limit, is_code_kind};

/// Whether a header is one of relocations of a section that is kept.
pub(crate) fn is_kept_relocs(bytes: &[u8], kept: &[bool], h: usize) -> bool
    requires tabled { IsTabled bytes.now }
    requires listed { IsHeader bytes.now h }
    requires kept { kept.now ≡ kept_flags bytes.now }
    ensures { result ≡ is_kept_relocs bytes.now h }
{
    let header = header_at(bytes, h);
    header.kind == REL && kept_at(bytes, kept, header.info as usize)
}

/// How many relocations of sections that are kept a header has.
fn relocs_at(bytes: &[u8], kept: &[bool], h: usize) -> u32
    requires tabled { IsTabled bytes.now }
    requires listed { IsHeader bytes.now h }
    requires kept { kept.now ≡ kept_flags bytes.now }
    ensures { result ≡ relocs_at bytes.now h }
{
    if is_kept_relocs(bytes, kept, h) {
        header_at(bytes, h).size / 8
    } else {
        0
    }
}

/// Whether a header is one of code that is kept.
fn is_code_header(bytes: &[u8], kept: &[bool], h: usize) -> bool
    requires tabled { IsTabled bytes.now }
    requires listed { IsHeader bytes.now h }
    requires kept { kept.now ≡ kept_flags bytes.now }
    ensures { result ≡ is_code_header bytes.now h }
{
    let header = header_at(bytes, h);
    is_code_kind(header.kind, header.flags) && kept_at(bytes, kept, h)
}

/// How many bytes of code a header has.
fn code_at(bytes: &[u8], kept: &[bool], h: usize) -> u32
    requires tabled { IsTabled bytes.now }
    requires listed { IsHeader bytes.now h }
    requires kept { kept.now ≡ kept_flags bytes.now }
    ensures { result ≡ code_at bytes.now h }
{
    if is_code_header(bytes, kept, h) {
        header_at(bytes, h).size
    } else {
        0
    }
}

/// How many symbols a header has, the null symbol not counted.
fn symbols_at(bytes: &[u8], h: usize) -> u32
    requires tabled { IsTabled bytes.now }
    requires listed { IsHeader bytes.now h }
    ensures { result ≡ symbols_at bytes.now h }
{
    let header = header_at(bytes, h);
    if header.kind == SYMTAB {
        (header.size / 16).saturating_sub(1)
    } else {
        0
    }
}

fn passes(limit: &Limit, symbols: u32, relocs: u64, code: u64) -> bool
    ensures { result ≡ passes limit.now symbols relocs code }
{
    symbols > limit.symbols || relocs > limit.relocs as u64 || code > limit.code as u64
}

/// The first place at which a number of the file passes the limit.
pub(crate) fn first_too_many(bytes: &[u8], kept: &[bool], limit: &Limit) -> Option<Place>
    requires tabled { IsTabled bytes.now }
    requires small { length bytes.now < 2 ^ 32 }
    requires kept { kept.now ≡ kept_flags bytes.now }
    ensures { IsLowest (Fault bytes.now limit.now TooMany) result }
{
    let n = count(bytes);
    if n as u64 > limit.sections as u64 {
        return Some(Place {
            section: 0,
            offset: 48,
        });
    }
    let mut relocs: u64 = 0;
    let mut code: u64 = 0;
    for h in 1..n {
        let _most_relocs = limit.relocs;
        let _most_code = limit.code;
        relocs += relocs_at(bytes, kept, h) as u64;
        code += code_at(bytes, kept, h) as u64;
        if passes(limit, symbols_at(bytes, h), relocs, code) {
            let offset = place(bytes, h) as u32 + 20;
            let section = h as u32;
            return Some(Place { section, offset });
        }
    }
    None
}
