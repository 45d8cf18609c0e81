//! The sections of the file: the object's, those of its relocations, and the tables.

ghost use Rattle.std.specs.Prelude.{◌≡◌, ◌≤◌, ◌<◌, ◌+◌, ◌*◌, ◌^◌, ◌++◌, ℕ, List, [], ◌∷◌, length, map, codes, All, IfOk, OnOk};
ghost use Rattle.elf_model.specs.Objects.{ObjectParts};
ghost use Rattle.elf_model.specs.Files.{from};
ghost use Rattle.elf_model.specs.Canonical.{FileSection, section_names, own_section, reloc_section, symtab_section, relocated, symtab_header, file_sections, round_up, added, row_with, text_section};
ghost use Rattle.elf_model.specs.Fits.{SectionFits, SymbolFits};
ghost use Rattle.elf_write.specs.Writing.{IsWritten, IsLaid, IsTable, front_sections, file_section, rel_head, rel_sections, reloc_table};

use crate::layout::{Head, Layout, put, put_named};
use crate::names::Names;
use crate::symbols::{locals, symbol_rows};
use elf_model::numbers::{REL, STRTAB, SYMTAB};
use elf_model::{Bytes, Object, Section, Symbol};
use std::alloc::{AllocError, Global};

fn own_head(s: &Section) -> Head
    ensures section { file_section s.now.name result s.now.bytes ≡ own_section s.now }
    ensures fits { SectionFits s.now }
{
    Head {
        kind: s.kind as usize,
        flags: s.flags as usize,
        size: s.size as usize,
        link: 0,
        info: 0,
        align: s.align as usize,
        entry: s.entry as usize,
    }
}

/// Puts the object's own sections.
pub(crate) fn put_own(
    alloc: Global,
    layout: &mut Layout,
    names: &mut Names,
    sections: &[Section],
) -> Result<(), AllocError>
    requires empty { IsWritten layout.old names.old [] }
    requires aligned { All (λ s. 0 < s.align) sections.now }
    ensures written { OnOk result (IsWritten layout.new names.new (map own_section sections.now)) }
    ensures fit { OnOk result (All SectionFits sections.now) }
{
    for s in sections {
        put_named(
            alloc,
            layout,
            names,
            s.name.bytes(),
            &own_head(s),
            s.bytes.as_slice(),
        )?;
    }
    Ok(())
}

/// The name of the section of the relocations of a section with this name.
fn reloc_name(alloc: Global, name: &[u8]) -> Result<Vec<u8>, AllocError>
    ensures { IfOk result (λ full. full.items ≡ codes ".rel" ++ name.now) }
{
    let mut full = Vec::from_slice(alloc, b".rel")?;
    full.extend_from_slice(name)?;
    Ok(full)
}

fn reloc_head(symtab: usize, section: usize, size: usize) -> Head
    requires { section < 2 ^ 63 }
    ensures { result ≡ rel_head symtab section size }
{
    Head {
        kind: REL as usize,
        flags: 0,
        size,
        link: symtab,
        info: section + 1,
        align: 4,
        entry: 8,
    }
}

/// Puts the section of these relocations, if there are some, of the section with this number and name.
fn put_rel(
    alloc: Global,
    layout: &mut Layout,
    names: &mut Names,
    head: &Head,
    name: &[u8],
    rows: &[u8],
) -> Result<(), AllocError>
    requires aligned { head.now.align ≡ 4 }
    ensures { (ss : List FileSection) (table i : ℕ) → head.now ≡ rel_head table i (length rows.now) → IsWritten layout.old names.old ss → OnOk result (IsWritten layout.new names.new (ss ++ rel_sections table i name.now rows.now)) }
{
    if rows.is_empty() {
        return Ok(());
    }
    let full = reloc_name(alloc, name)?;
    put_named(alloc, layout, names, &full, head, rows)?;
    Ok(())
}

/// Puts a section of relocations for each section that has some.
pub(crate) fn put_relocs(
    alloc: Global,
    layout: &mut Layout,
    names: &mut Names,
    o: &Object,
    tables: &[Bytes],
    symtab: usize,
) -> Result<(), AllocError>
    requires own { IsWritten layout.old names.old (map own_section o.now.sections) }
    requires tables { tables.now ≡ map (reloc_table o.now.relocs) (from 0 (length o.now.sections)) }
    requires symtab { symtab ≡ symtab_header o.now }
    requires few { length o.now.sections ≤ 1024 }
    ensures { OnOk result (IsWritten layout.new names.new (map own_section o.now.sections ++ map (reloc_section o.now) (relocated o.now 0 o.now.sections))) }
{
    let sections = o.sections();
    for i in 0..sections.len() {
        let rows = tables[i].as_slice();
        let head = reloc_head(symtab, i, rows.len());
        put_rel(alloc, layout, names, &head, sections[i].name.bytes(), rows)?;
    }
    Ok(())
}

fn table_head(kind: usize, size: usize, align: usize) -> Head
    ensures { result ≡ record { kind = kind; flags = 0; size = size; link = 0; info = 0; align = align; entry = 0 } }
{
    Head {
        kind,
        flags: 0,
        size,
        link: 0,
        info: 0,
        align,
        entry: 0,
    }
}

/// Puts a string table whose name has this offset.
fn put_strings(layout: &mut Layout, name: usize, text: &[u8]) -> Result<(), AllocError>
    ensures contents { OnOk result (layout.new.contents.items ≡ layout.old.contents.items ++ added (52 + length layout.old.contents.items) (text_section [] text.now)) }
    ensures rows { OnOk result (layout.new.rows.items ≡ layout.old.rows.items ++ row_with name (round_up (52 + length layout.old.contents.items) 1) (text_section [] text.now)) }
{
    put(
        layout,
        name,
        &table_head(STRTAB as usize, text.len(), 1),
        text,
    )
}

/// Puts the symbol table, whose header comes before those of the two string tables.
fn put_symbols(
    alloc: Global,
    layout: &mut Layout,
    names: &mut Names,
    symbols: &[Symbol],
    symtab: usize,
) -> Result<Names, AllocError>
    requires few { symtab ≤ 4096 }
    requires small { All (λ s. s.bind * 16 + s.kind < 256) symbols.now }
    ensures fit { OnOk result (All SymbolFits symbols.now) }
    ensures table { IfOk result (λ held. IsTable held (map (λ s. s.name) symbols.now)) }
    ensures written { (ss : List FileSection) (o : ObjectParts) → IsWritten layout.old names.old ss → o.symbols ≡ symbols.now → symtab ≡ symtab_header o → OnOk result (IsWritten layout.new names.new (ss ++ symtab_section o ∷ [])) }
{
    let mut held = Names::new(alloc)?;
    let rows = symbol_rows(alloc, &mut held, symbols)?;
    let head = Head {
        link: symtab + 1,
        info: 1 + locals(symbols),
        entry: 16,
        ..table_head(SYMTAB as usize, rows.as_slice().len(), 4)
    };
    put_named(alloc, layout, names, b".symtab", &head, &rows)?;
    Ok(held)
}

/// Puts the three tables behind the other sections.
pub(crate) fn put_tables(
    alloc: Global,
    layout: &mut Layout,
    names: &mut Names,
    o: &Object,
    symtab: usize,
) -> Result<(), AllocError>
    requires few { symtab ≤ 4096 }
    requires small { All (λ s. s.bind * 16 + s.kind < 256) o.now.symbols }
    requires symtab { symtab ≡ symtab_header o.now }
    requires front { IsWritten layout.old names.old (front_sections o.now) }
    ensures fit { OnOk result (All SymbolFits o.now.symbols) }
    ensures laid { OnOk result (IsLaid layout.new (section_names o.now) (file_sections o.now)) }
{
    let held = put_symbols(alloc, layout, names, o.symbols(), symtab)?;
    let name = names.add(alloc, b".strtab")?;
    put_strings(layout, name, held.text())?;
    let last = names.add(alloc, b".shstrtab")?;
    put_strings(layout, last, names.text())?;
    Ok(())
}
