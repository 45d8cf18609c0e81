//! The tables of relocations, one for each section.

ghost use Rattle.std.specs.Prelude.{◌≡◌, ◌==◌, ◌++◌, ℕ, true, not, length, map, filter, count_by, All, ◌<◌, IfOk, OnOk};
ghost use Rattle.std.specs.List.{flat_map, prefix_len};
ghost use Rattle.elf_model.specs.Objects.{rise};
ghost use Rattle.elf_model.specs.Files.{from};
ghost use Rattle.elf_model.specs.Canonical.{reloc_row};
ghost use Rattle.elf_model.specs.Fits.{RelocFits};
ghost use Rattle.elf_write.specs.Writing.{reloc_table};

use crate::fields::put_word;
use elf_model::{Bytes, Reloc};
use std::alloc::{AllocError, Global};

fn put_reloc(rows: &mut Vec<u8>, r: &Reloc) -> Result<(), AllocError>
    ensures row { OnOk result (rows.new.items ≡ rows.old.items ++ reloc_row r.now) }
    ensures fits { RelocFits r.now }
{
    put_word(rows, r.offset as usize)?;
    put_word(rows, (r.symbol as usize + 1) * 256 + r.kind.code() as usize)
}

fn reloc_rows(alloc: Global, relocs: &[Reloc]) -> Result<Vec<u8>, AllocError>
    ensures rows { IfOk result (λ rows. rows.items ≡ flat_map reloc_row relocs.now) }
    ensures fit { OnOk result (All RelocFits relocs.now) }
{
    let mut rows = Vec::new(alloc);
    for r in relocs {
        put_reloc(&mut rows, r)?;
    }
    Ok(rows)
}

/// How many relocations stand in this section before the first of another.
fn run_length(relocs: &[Reloc], section: usize) -> usize
    ensures { result ≡ prefix_len (λ r. r.section == section) relocs.now }
{
    let mut n = 0;
    for r in relocs {
        if r.section as usize != section {
            return n;
        }
        n += 1;
    }
    n
}

/// The rows of the relocations of each of so many sections.
pub(crate) fn reloc_tables(
    alloc: Global,
    count: usize,
    relocs: &[Reloc],
) -> Result<Vec<Bytes>, AllocError>
    requires rising { rise relocs.now ≡ true }
    requires placed { All (λ r. r.section < count) relocs.now }
    ensures tables { IfOk result (λ tables. tables.items ≡ map (reloc_table relocs.now) (from 0 count)) }
    ensures fit { OnOk result (All RelocFits relocs.now) }
{
    let mut tables = Vec::new(alloc);
    let mut rest = relocs;
    for section in 0..count {
        let (run, more) = rest.split_at(run_length(rest, section));
        tables.push(Bytes::new(reloc_rows(alloc, run)?))?;
        rest = more;
    }
    Ok(tables)
}

/// How many of these tables have rows.
pub(crate) fn filled(tables: &[Bytes]) -> usize
    ensures { result ≡ count_by (λ t. not (length t == 0)) tables.now }
{
    let mut n = 0;
    for t in tables {
        if !t.as_slice().is_empty() {
            n += 1;
        }
    }
    n
}
