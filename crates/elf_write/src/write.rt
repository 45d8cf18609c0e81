//! The file of an object: its header, the contents, and the table of section headers.

ghost use Rattle.std.specs.Prelude.{◌≡◌, ◌≤◌, ◌<◌, ◌+◌, ◌*◌, ◌^◌, ◌++◌, true, [], length, map, All, IsTrue, IfOk, OnOk};
ghost use Rattle.std.specs.List.{flat_map};
ghost use Rattle.elf_model.specs.Objects.{is_object};
ghost use Rattle.elf_model.specs.Fields.{half};
ghost use Rattle.elf_model.specs.Files.{from};
ghost use Rattle.elf_model.specs.Fits.{SectionFits, SymbolFits};
ghost use Rattle.elf_model.specs.Canonical.{file_header, file_sections, section_names, symtab_header, canonical};
ghost use Rattle.elf_write.specs.Writing.{IsLaid, IsTable, IsWritten, reloc_table, whole_file};

use crate::fields::{put_halves, put_words, put_zeros};
use crate::layout::Layout;
use crate::names::Names;
use crate::relocs::filled;
use crate::sections::{put_own, put_relocs, put_tables};
use elf_model::{Bytes, Object, round_up};
use std::alloc::{AllocError, Global};

/// The first bytes of every file.
const IDENT: [u8; 16] = [0x7F, 0x45, 0x4C, 0x46, 1, 1, 1, 0, 0, 0, 0, 0, 0, 0, 0, 0];

/// The number of the symbol table's header.
pub(crate) fn symtab_number(o: &Object, tables: &[Bytes]) -> usize
    requires few { length o.now.sections ≤ 1024 }
    requires tables { tables.now ≡ map (reloc_table o.now.relocs) (from 0 (length o.now.sections)) }
    ensures number { result ≡ symtab_header o.now }
    ensures few { result ≤ 4096 }
{
    1 + o.sections().len() + filled(tables)
}

/// Lays all sections of the file out.
pub(crate) fn lay_out(
    alloc: Global,
    o: &Object,
    tables: &[Bytes],
    symtab: usize,
) -> Result<Layout, AllocError>
    requires few { length o.now.sections ≤ 1024 }
    requires low { symtab ≤ 4096 }
    requires tables { tables.now ≡ map (reloc_table o.now.relocs) (from 0 (length o.now.sections)) }
    requires symtab { symtab ≡ symtab_header o.now }
    ensures laid { IfOk result (λ l. IsLaid l (section_names o.now) (file_sections o.now)) }
    ensures sections { OnOk result (All SectionFits o.now.sections) }
    ensures symbols { OnOk result (All SymbolFits o.now.symbols) }
{
    o.sound();
    let mut layout = Layout {
        contents: Vec::new(alloc),
        rows: Vec::new(alloc),
    };
    let mut names = Names::new(alloc)?;
    put_own(alloc, &mut layout, &mut names, o.sections())?;
    put_relocs(alloc, &mut layout, &mut names, o, tables, symtab)?;
    put_tables(alloc, &mut layout, &mut names, o, symtab)?;
    Ok(layout)
}

fn put_header(
    file: &mut Vec<u8>,
    table: usize,
    count: usize,
    names: usize,
    flags: usize,
) -> Result<(), AllocError>
    ensures { OnOk result (file.new.items ≡ file.old.items ++ file_header table count names flags) }
{
    file.extend_from_slice(&IDENT)?;
    put_halves(file, &[1, 40])?;
    put_words(file, &[1, 0, 0, table, flags])?;
    put_halves(file, &[52, 0, 0, 40, count, names])
}

/// The file of the sections that were laid out.
pub(crate) fn whole_file(
    alloc: Global,
    layout: &Layout,
    symtab: usize,
    flags: usize,
) -> Result<Vec<u8>, AllocError>
    requires { symtab ≤ 4096 }
    ensures { IfOk result (λ file. file.items ≡ whole_file layout.now.contents.items layout.now.rows.items symtab flags) }
{
    let end = 52 + layout.contents.as_slice().len();
    let table = round_up(end as u64, 4) as usize;
    let mut file = Vec::new(alloc);
    put_header(&mut file, table, symtab + 3, symtab + 2, flags)?;
    file.extend_from_slice(&layout.contents)?;
    put_zeros(&mut file, table - end)?;
    put_zeros(&mut file, 40)?;
    file.extend_from_slice(&layout.rows)?;
    Ok(file)
}
