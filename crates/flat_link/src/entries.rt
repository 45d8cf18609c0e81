//! The functions that can be called by name.

ghost use Rattle.std.specs.Prelude.{◌≡◌, map, Contains, IfOk};
ghost use Rattle.thumb_table.specs.Layouts.{Placed};
ghost use Rattle.thumb_table.specs.Names.{all_symbols, resolved as resolved_name, is_standing as stands_for, entries_of as entries_in};
ghost use Rattle.flat_link.specs.Known.{defined_of, AreNames};
ghost use Rattle.flat_link.specs.Layout.{IsLayout, parts_in};

use crate::known::Known;
use crate::layout::Layout;
use crate::names::{Names, resolved};
use crate::symbols::{address_of, is_function};
use elf_model::Name;
use std::alloc::{AllocError, Global};
use thumb_table::NamedEntry;

fn entry(alloc: Global, name: &Name, address: u32) -> Result<NamedEntry, AllocError>
    ensures { IfOk result (λ e. e ≡ record { name = name.now; address = address }) }
{
    Ok(NamedEntry {
        name: name.copy(alloc)?,
        address,
    })
}

/// Whether a symbol is what its name stands for.
fn is_standing<'a>(names: &Names<'a>, known: &Known<'a>) -> bool
    requires { AreNames names.now }
    ensures { result ≡ stands_for names.now.objects.now (defined_of known.now) (resolved_name names.now.objects.now known.now.symbol.now.name) }
{
    match resolved(names, known.symbol.name.bytes()) {
        None => false,
        Some(found) => known.object == found.object && known.index == found.index,
    }
}

/// The entries of objects: each function in code that its name stands for.
pub(crate) fn entries_of<'a>(
    alloc: Global,
    names: &Names<'a>,
    layout: &Layout<'a>,
    all: &[Known<'a>],
) -> Result<Vec<NamedEntry>, AllocError>
    requires names { AreNames names.now }
    requires layout { IsLayout layout.now }
    requires same { names.now.objects.now ≡ layout.now.objects.now }
    requires all { map defined_of all.now ≡ all_symbols 0 layout.now.objects.now }
    ensures { IfOk result (λ entries. entries.items ≡ entries_in layout.now.objects.now (parts_in layout.now)) }
{
    let mut entries = Vec::new(alloc);
    for known in all {
        if is_function(layout, known) && is_standing(names, known) {
            let address = address_of(layout, known);
            entries.push(entry(alloc, &known.symbol.name, address - address % 2 + 1)?)?;
        }
    }
    Ok(entries)
}
