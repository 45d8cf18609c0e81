//! The first name that doesn't end.

ghost use Rattle.std.specs.Prelude.{◌≡◌, ◌<◌, ◌^◌, ℕ, length};
ghost use Rattle.elf_model.specs.declared.refusals.Limit.{Limit};
ghost use Rattle.elf_model.specs.declared.refusals.Refusal.TheVariants.{BadName};
ghost use Rattle.elf_model.specs.Files.{symbol_table};
ghost use Rattle.elf_read.specs.Faults.{Fault};
ghost use Rattle.elf_read.specs.HeaderFaults.{IsTabled};
ghost use Rattle.elf_read.specs.Places.{IsLowest};
ghost use Rattle.elf_read.specs.Texts.{IsUnnamed, IsUnnamedSymbol};

use crate::headers::{count, half, header_at, place, word};
use crate::places::{Place, lower};
use crate::strings::has_text;
use elf_model::numbers::{REL, SYMTAB};

/// The header of the symbol table, if there is one.
pub(crate) fn symtab_of(bytes: &[u8]) -> Option<usize>
    requires { IsTabled bytes.now }
    ensures { result ≡ symbol_table bytes.now }
{
    for h in 1..count(bytes) {
        if header_at(bytes, h).kind == SYMTAB {
            return Some(h);
        }
    }
    None
}

/// The first section whose name doesn't end.
fn first_unnamed(bytes: &[u8]) -> Option<Place>
    requires tabled { IsTabled bytes.now }
    requires small { length bytes.now < 2 ^ 32 }
    ensures { IsLowest (IsUnnamed bytes.now) result }
{
    for h in 1..count(bytes) {
        let names = half(bytes, 50) as usize;
        let f = header_at(bytes, h);
        if f.kind != REL && !has_text(bytes, names, f.name) {
            let section = h as u32;
            let offset = place(bytes, h) as u32;
            return Some(Place { section, offset });
        }
    }
    None
}

/// The first symbol whose name doesn't end.
fn first_unnamed_symbol(bytes: &[u8]) -> Option<Place>
    requires tabled { IsTabled bytes.now }
    requires small { length bytes.now < 2 ^ 32 }
    ensures { IsLowest (IsUnnamedSymbol bytes.now) result }
{
    let Some(t) = symtab_of(bytes) else {
        return None;
    };
    let f = header_at(bytes, t);
    for k in 1..f.size / 16 {
        let at = f.offset as usize + 16 * k as usize;
        if !has_text(bytes, f.link as usize, word(bytes, at)) {
            let section = t as u32;
            let offset = at as u32;
            return Some(Place { section, offset });
        }
    }
    None
}

/// The first name of a section or of a symbol that doesn't end.
pub(crate) fn first_bad_name(bytes: &[u8]) -> Option<Place>
    requires tabled { IsTabled bytes.now }
    requires small { length bytes.now < 2 ^ 32 }
    ensures { (l : Limit) → IsLowest (Fault bytes.now l BadName) result }
{
    lower(first_unnamed(bytes), first_unnamed_symbol(bytes))
}
