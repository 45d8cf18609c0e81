//! Objects of sections, symbols and relocations, for the rows of tests.
#![tactic(auto)]

use elf_model::{Bytes, Home, Name, Object, Reloc, RelocKind, Section, Symbol, object};
use std::alloc::{AllocError, Global};

/// A symbol's name, value, binding, type and home.
pub type Row = (&'static [u8], u32, u8, u8, Home);

/// A relocation's section, offset, kind and symbol.
pub type Mark = (u32, u32, RelocKind, u32);

/// A section with contents.
pub fn section(
    alloc: Global,
    text: &[u8],
    flags: u32,
    align: u32,
    bytes: &[u8],
) -> Result<Section, AllocError> {
    Ok(Section {
        name: Name::new(Vec::from_slice(alloc, text)?),
        kind: 1,
        flags,
        align,
        entry: 0,
        size: (bytes.len() & 0xFFFF) as u32,
        bytes: Bytes::new(Vec::from_slice(alloc, bytes)?),
    })
}

/// A section of halfwords.
pub fn halfwords(
    alloc: Global,
    text: &[u8],
    flags: u32,
    halves: &[u16],
) -> Result<Section, AllocError> {
    let mut bytes = Vec::new(alloc);
    for half in halves {
        bytes.extend_from_slice(&half.to_le_bytes())?;
    }
    section(alloc, text, flags, 4, &bytes)
}

/// The object of these sections, symbols and relocations.
pub fn object_of(
    alloc: Global,
    sections: Vec<Section>,
    rows: &[Row],
    marks: &[Mark],
) -> Result<Option<Object>, AllocError> {
    let mut symbols = Vec::new(alloc);
    for row in rows {
        symbols.push(Symbol {
            name: Name::new(Vec::from_slice(alloc, row.0)?),
            value: row.1,
            size: 0,
            bind: row.2,
            kind: row.3,
            other: 0,
            home: row.4,
        })?;
    }
    let mut relocs = Vec::new(alloc);
    for mark in marks {
        relocs.push(Reloc {
            section: mark.0,
            offset: mark.1,
            kind: mark.2,
            symbol: mark.3,
        })?;
    }
    Ok(object(sections, symbols, relocs, 0x0500_0000))
}

/// `.text` with this code, `.init` with a return and a NOP, two words of data, 2 and 0, and a comment. The
/// symbols 0 to 4 are the mapping symbols of the code, one of the data, an absolute one, and a function at
/// the beginning of `.text`; behind them come others.
pub fn sample(
    alloc: Global,
    code: &[u16],
    rows: &[Row],
    marks: &[Mark],
) -> Result<Option<Object>, AllocError> {
    let sections = vec![in alloc;
        halfwords(alloc, b".text", 6, code)?,
        halfwords(alloc, b".init", 6, &[0x4770, 0xBF00])?,
        halfwords(alloc, b".data", 3, &[2, 0, 0, 0])?,
        halfwords(alloc, b".comment", 0, &[0, 0])?,
    ]?;
    let first: [Row; 5] = [
        (b"$t", 0, 0, 0, Home::Section(0)),
        (b"$t", 0, 0, 0, Home::Section(1)),
        (b"d", 0, 0, 1, Home::Section(2)),
        (b"a", 16, 0, 0, Home::Absolute),
        (b"f", 1, 0, 2, Home::Section(0)),
    ];
    let mut all = Vec::from_slice(alloc, &first)?;
    all.extend_from_slice(rows)?;
    object_of(alloc, sections, &all, marks)
}
