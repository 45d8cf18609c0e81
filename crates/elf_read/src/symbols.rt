//! The first fault of a symbol.

ghost use Rattle.std.specs.Prelude.{◌≡◌, ◌≤◌, ◌<◌, ◌+◌, ◌^◌, ℕ, length};
ghost use Rattle.elf_model.specs.declared.refusals.Limit.{Limit};
ghost use Rattle.elf_model.specs.declared.refusals.Refusal.TheVariants.{BadSymbol};
ghost use Rattle.elf_read.specs.Faults.{Fault, names_no_section, place_of};
ghost use Rattle.elf_read.specs.HeaderFaults.{IsTabled};
ghost use Rattle.elf_read.specs.Places.{IsLowest, first_of};
ghost use Rattle.elf_read.specs.SymbolFaults.{is_beyond, is_unknown, is_homeless, symbol_tests};

use crate::headers::{count, half, header_at, word};
use crate::names::symtab_of;
use crate::places::Place;
use elf_model::numbers::{ABSOLUTE_INDEX, FUNC, LOCAL, UNDEFINED_INDEX};

/// The first section index that stands for no section header.
const RESERVED: u16 = 0xFF00;

/// Whether a symbol's section index says that it is in no section.
pub(crate) fn names_no_section(index: u16) -> bool
    ensures { result ≡ names_no_section index }
{
    index == UNDEFINED_INDEX || index == ABSOLUTE_INDEX
}

/// Where a symbol of a type stands: bit 0 of a function's value isn't counted.
fn place_of(kind: u8, value: u32) -> u32
    ensures { result ≡ place_of kind value }
{
    if kind == FUNC {
        value - value % 2
    } else {
        value
    }
}

fn is_beyond(bytes: &[u8], index: u16, kind: u8, value: u32) -> bool
    requires { IsTabled bytes.now }
    ensures { result ≡ is_beyond bytes.now index kind value }
{
    let h = index as usize;
    if names_no_section(index) || count(bytes) <= h || RESERVED <= index {
        return false;
    }
    header_at(bytes, h).size < place_of(kind, value)
}

fn is_unknown(seen: bool, info: u8) -> bool
    ensures { result ≡ is_unknown seen info }
{
    info / 16 > 2 || info % 16 > 4 || seen && info / 16 == LOCAL
}

fn is_homeless(bytes: &[u8], index: u16) -> bool
    requires { 52 ≤ length bytes.now }
    ensures { result ≡ is_homeless bytes.now index }
{
    !names_no_section(index) && (count(bytes) <= index as usize || RESERVED <= index)
}

/// The first offset of a symbol, from its start, at which it is wrong; `seen` says that a symbol that
/// isn't local stands before it.
fn symbol_fault(bytes: &[u8], at: usize, seen: bool) -> Option<u32>
    requires tabled { IsTabled bytes.now }
    requires inside { at + 16 ≤ length bytes.now }
    ensures { result ≡ first_of (symbol_tests seen bytes.now at) }
{
    let value = word(bytes, at + 4);
    let info = bytes[at + 12];
    let index = half(bytes, at + 14);
    if is_beyond(bytes, index, info % 16, value) {
        Some(4)
    } else if is_unknown(seen, info) {
        Some(12)
    } else if is_homeless(bytes, index) {
        Some(14)
    } else {
        None
    }
}

/// The first fault of a symbol.
pub(crate) fn first_bad_symbol(bytes: &[u8]) -> Option<Place>
    requires tabled { IsTabled bytes.now }
    requires small { length bytes.now < 2 ^ 32 }
    ensures { (l : Limit) → IsLowest (Fault bytes.now l BadSymbol) result }
{
    let Some(t) = symtab_of(bytes) else {
        return None;
    };
    let f = header_at(bytes, t);
    let mut seen = false;
    for k in 1..f.size / 16 {
        let at = f.offset as usize + 16 * k as usize;
        if let Some(field) = symbol_fault(bytes, at, seen) {
            let section = t as u32;
            let offset = at as u32 + field;
            return Some(Place { section, offset });
        }
        seen = seen || bytes[at + 12] / 16 != LOCAL;
    }
    None
}
