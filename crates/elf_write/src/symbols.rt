//! The rows of the symbol table, and its string table.

ghost use Rattle.std.specs.Prelude.{◌≡◌, ◌+◌, ◌*◌, ◌<◌, ◌++◌, [], length, map, replicate, count_by, ◌==◌, All, IfOk, OnOk};
ghost use Rattle.std.specs.List.{flat_map};
ghost use Rattle.elf_model.specs.Constants.{local};
ghost use Rattle.elf_model.specs.Canonical.{home_index, symbol_row, symbol_row_with};
ghost use Rattle.elf_model.specs.Fits.{SymbolFits};
ghost use Rattle.elf_write.specs.Writing.{IsTable};

use crate::fields::{put_half, put_words, put_zeros};
use crate::names::Names;
use elf_model::numbers::{ABSOLUTE_INDEX, LOCAL, UNDEFINED_INDEX};
use elf_model::{Home, Symbol};
use std::alloc::{AllocError, Global};

fn home_index(home: Home) -> usize
    ensures { result ≡ home_index home }
{
    match home {
        Home::Undefined => UNDEFINED_INDEX as usize,
        Home::Absolute => ABSOLUTE_INDEX as usize,
        Home::Section(i) => i as usize + 1,
    }
}

fn put_symbol(rows: &mut Vec<u8>, name: usize, s: &Symbol) -> Result<(), AllocError>
    requires { s.now.bind * 16 + s.now.kind < 256 }
    ensures row { OnOk result (rows.new.items ≡ rows.old.items ++ symbol_row_with name s.now) }
    ensures fits { SymbolFits s.now }
{
    put_words(rows, &[name, s.value as usize, s.size as usize])?;
    rows.push(s.bind * 16 + s.kind)?;
    rows.push(s.other)?;
    put_half(rows, home_index(s.home))
}

/// The rows of these symbols behind the null one. Their names go into a table that held none.
pub(crate) fn symbol_rows(
    alloc: Global,
    names: &mut Names,
    symbols: &[Symbol],
) -> Result<Vec<u8>, AllocError>
    requires empty { IsTable names.old [] }
    requires small { All (λ s. s.bind * 16 + s.kind < 256) symbols.now }
    ensures rows { IfOk result (λ rows. rows.items ≡ replicate 16 0 ++ flat_map (symbol_row (map (λ s. s.name) symbols.now)) symbols.now) }
    ensures fit { OnOk result (All SymbolFits symbols.now) }
    ensures names { OnOk result (IsTable names.new (map (λ s. s.name) symbols.now)) }
{
    let mut rows = Vec::new(alloc);
    put_zeros(&mut rows, 16)?;
    for s in symbols {
        let name = names.add(alloc, s.name.bytes())?;
        put_symbol(&mut rows, name, s)?;
    }
    Ok(rows)
}

/// How many of these symbols are local.
pub(crate) fn locals(symbols: &[Symbol]) -> usize
    ensures { result ≡ count_by (λ s. s.bind == local) symbols.now }
{
    let mut n = 0;
    for s in symbols {
        if s.bind == LOCAL {
            n += 1;
        }
    }
    n
}
