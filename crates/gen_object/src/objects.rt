//! The object with its symbols and relocations.

ghost use Rattle.std.specs.Prelude.{◌≡◌, ◌≤◌, ◌<◌, ◌^◌, ◌-◌, ◌∷◌, length, map, IsTrue, IfOk};
ghost use Rattle.std.specs.List.{range_with_len};
ghost use Rattle.elf_model.specs.Objects.{is_object, is_within};
ghost use Rattle.gen_object.specs.Generated.{text_section, code_symbol, function_symbol, call, generated};

use crate::code::code_bytes;
use elf_model::numbers::{FUNC, LOCAL, NOTYPE, PROGBITS};
use elf_model::{Bytes, Home, Limit, Name, Object, Reloc, RelocKind, Section, Symbol};
use std::alloc::{AllocError, Global};

/// The binding of a global symbol.
const GLOBAL: u8 = 1;

/// The object of so many functions, 1 to 4,000, whose instructions are drawn from a seed on.
pub fn generated(alloc: Global, seed: u32, count: u32) -> Result<Object, AllocError>
    requires some { 1 ≤ count }
    requires few { count ≤ 4000 }
    ensures object { IfOk result (λ o. o ≡ generated seed count) }
    ensures sound { IfOk result (λ o. IsTrue (is_object o)) }
    ensures within { IfOk result (λ o. IsTrue (is_within o Limit.INPUT)) }
{
    let sections = vec![in alloc; text_section(alloc, code_bytes(alloc, seed, count)?)?]?;
    let symbols = symbols_of(alloc, count)?;
    let relocs = calls_of(alloc, count - 1)?;
    match elf_model::object(sections, symbols, relocs, 0x0500_0000) {
        Some(object) => Ok(object),
        None => unreachable!(),
    }
}

/// The section of code with these bytes.
fn text_section(alloc: Global, bytes: Vec<u8>) -> Result<Section, AllocError>
    requires { length bytes.items < 2 ^ 32 }
    ensures { IfOk result (λ s. s ≡ text_section bytes.items) }
{
    Ok(Section {
        name: Name::new(Vec::from_slice(alloc, b".text")?),
        kind: PROGBITS,
        flags: 6,
        align: 4,
        entry: 0,
        size: bytes.len() as u32,
        bytes: Bytes::new(bytes),
    })
}

/// The symbol that says that the section begins with Thumb code, and those of the functions.
fn symbols_of(alloc: Global, count: u32) -> Result<Vec<Symbol>, AllocError>
    requires { count ≤ 4000 }
    ensures { IfOk result (λ symbols. symbols.items ≡ code_symbol ∷ map (function_symbol count) (range_with_len 0 count)) }
{
    let mut symbols = vec![in alloc; code_symbol(alloc)?]?;
    for k in 0..count {
        symbols.push(function_symbol(alloc, count, k)?)?;
    }
    Ok(symbols)
}

/// The symbol that says that the section begins with Thumb code.
fn code_symbol(alloc: Global) -> Result<Symbol, AllocError>
    ensures { IfOk result (λ s. s ≡ code_symbol) }
{
    Ok(Symbol {
        name: Name::new(Vec::from_slice(alloc, b"$t")?),
        value: 0,
        size: 0,
        bind: LOCAL,
        kind: NOTYPE,
        other: 0,
        home: Home::Section(0),
    })
}

/// The symbol of function k.
fn function_symbol(alloc: Global, count: u32, k: u32) -> Result<Symbol, AllocError>
    requires { k < 4000 }
    ensures { IfOk result (λ s. s ≡ function_symbol count k) }
{
    let name = format!(in alloc; "f{k}")?;
    Ok(Symbol {
        name: Name::new(name.into_bytes()),
        value: 14 * k + 1,
        size: if k + 1 < count { 14 } else { 10 },
        bind: GLOBAL,
        kind: FUNC,
        other: 0,
        home: Home::Section(0),
    })
}

/// The relocations of so many functions that call the next one.
fn calls_of(alloc: Global, calls: u32) -> Result<Vec<Reloc>, AllocError>
    requires { calls ≤ 4000 }
    ensures { IfOk result (λ relocs. relocs.items ≡ map call (range_with_len 0 calls)) }
{
    let mut relocs = Vec::new(alloc);
    for k in 0..calls {
        relocs.push(Reloc {
            section: 0,
            offset: 14 * k + 8,
            kind: RelocKind::ThmCall,
            symbol: k + 2,
        })?;
    }
    Ok(relocs)
}
