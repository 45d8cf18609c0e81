//! What names stand for.

ghost use Rattle.std.specs.Prelude.{◌≡◌, ℕ, List, Some, None, map, filter, find, option_map, if◌then◌else◌, IfOk, OnOk};
ghost use Rattle.std.specs.Option.{option_or};
ghost use Rattle.elf_model.specs.Fields.{same_name};
ghost use Rattle.thumb_table.specs.Names.{is_defined, all_symbols, resolved as resolved_name, meant as meant_by};
ghost use Rattle.flat_link.specs.Known.{defined_of, is_bound, named, AreNames};

use crate::known::Known;
use elf_model::{Home, Object, Symbol};
use indexmap::IndexMap;
use std::alloc::{AllocError, Global};

const GLOBAL: u8 = 1;

const WEAK: u8 = 2;

/// How a symbol is bound that other objects see.
#[derive(Clone, Copy)]
pub(crate) enum Binding {
    Global,
    Weak,
}

/// The first definition of each name that other objects see.
#[derive(Drop)]
pub(crate) struct Names<'a> {
    pub(crate) objects: &'a [Object],
    pub(crate) globals: IndexMap<&'a [u8], Known<'a>>,
    pub(crate) weaks: IndexMap<&'a [u8], Known<'a>>,
}

/// Whether a symbol that is at home there is a definition.
pub(crate) fn is_defined(home: Home) -> bool
    ensures { result ≡ is_defined home }
{
    match home {
        Home::Undefined => false,
        Home::Absolute => true,
        Home::Section(_) => true,
    }
}

/// Whether a symbol is a definition that is so bound.
pub(crate) fn is_bound(binding: Binding, s: &Symbol) -> bool
    ensures { result ≡ is_bound binding s.now }
{
    match binding {
        Binding::Global => s.bind == GLOBAL && is_defined(s.home),
        Binding::Weak => s.bind == WEAK && is_defined(s.home),
    }
}

/// Keeps a definition by its name, if the name has none yet.
fn note<'a>(names: &mut IndexMap<&'a [u8], Known<'a>>, known: Known<'a>) -> Result<(), AllocError>
    ensures { OnOk result ((n : List ℕ) → named n names.new ≡ option_or (named n names.old) (if same_name known.entry.symbol.now.name n then Some known.entry else None)) }
{
    let name = known.symbol.name.bytes();
    if names.get(&name).is_none() {
        names.insert(name, known)?;
    }
    Ok(())
}

/// The first definition of each name that is so bound.
fn first_named<'a>(
    alloc: Global,
    binding: Binding,
    all: &[Known<'a>],
) -> Result<IndexMap<&'a [u8], Known<'a>>, AllocError>
    ensures { IfOk result (λ names. (n : List ℕ) → option_map defined_of (named n names) ≡ find (λ d. same_name d.symbol.name n) (filter (λ d. is_bound binding d.symbol) (map defined_of all.now))) }
{
    let mut names = IndexMap::new(alloc);
    for known in all {
        if is_bound(binding, known.symbol) {
            note(&mut names, *known)?;
        }
    }
    Ok(names)
}

/// The names that other objects see.
pub(crate) fn names_of<'a>(
    alloc: Global,
    objects: &'a [Object],
    all: &[Known<'a>],
) -> Result<Names<'a>, AllocError>
    requires { map defined_of all.now ≡ all_symbols 0 objects.now }
    ensures names { IfOk result (λ names. AreNames names) }
    ensures objects { IfOk result (λ names. names.objects.now ≡ objects.now) }
{
    let globals = first_named(alloc, Binding::Global, all)?;
    let weaks = first_named(alloc, Binding::Weak, all)?;
    Ok(Names {
        objects,
        globals,
        weaks,
    })
}

/// What a name stands for: its global definition, else its first weak one.
pub(crate) fn resolved<'a>(names: &Names<'a>, name: &'a [u8]) -> Option<Known<'a>>
    requires { AreNames names.now }
    ensures { option_map defined_of result ≡ resolved_name names.now.objects.now name.now }
{
    match names.globals.get(&name) {
        Some(known) => Some(*known),
        None => names.weaks.get(&name).copied(),
    }
}
