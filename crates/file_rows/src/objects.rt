//! Objects, limits and refusals.

use elf_model::{
    Bytes, Home, Limit, Name, Object, RangeKind, Refusal, Reloc, RelocKind, Section, Symbol,
    is_code, object, range_kind, within,
};
use std::alloc::{AllocError, Global};

/// A section with a name, type, flags, alignment, size and contents.
pub(crate) type Part = (&'static [u8], u32, u32, u32, u32, &'static [u8]);

/// A symbol with a name, value, size, binding, type and home.
pub(crate) type Row = (&'static [u8], u32, u32, u8, u8, Home);

/// A relocation's section, offset, kind and symbol.
pub(crate) type Mark = (u32, u32, RelocKind, u32);

fn section(alloc: Global, part: Part) -> Result<Section, AllocError> {
    Ok(Section {
        name: Name::new(Vec::from_slice(alloc, part.0)?),
        kind: part.1,
        flags: part.2,
        align: part.3,
        entry: 0,
        size: part.4,
        bytes: Bytes::new(Vec::from_slice(alloc, part.5)?),
    })
}

fn symbol(alloc: Global, row: Row) -> Result<Symbol, AllocError> {
    Ok(Symbol {
        name: Name::new(Vec::from_slice(alloc, row.0)?),
        value: row.1,
        size: row.2,
        bind: row.3,
        kind: row.4,
        other: 0,
        home: row.5,
    })
}

/// The object of these parts.
pub(crate) fn object_of(
    alloc: Global,
    parts: &[Part],
    rows: &[Row],
    marks: &[Mark],
) -> Result<Option<Object>, AllocError> {
    let mut sections = Vec::new(alloc);
    for part in parts {
        sections.push(section(alloc, *part)?)?;
    }
    let mut symbols = Vec::new(alloc);
    for row in rows {
        symbols.push(symbol(alloc, *row)?)?;
    }
    let mut relocs = Vec::new(alloc);
    for mark in marks {
        relocs.push(Reloc {
            section: mark.0,
            offset: mark.1,
            kind: mark.2,
            symbol: mark.3,
        })?;
    }
    Ok(object(sections, symbols, relocs, 0x0500_0000))
}

/// A section of code, a symbol of this binding and a local one, and a relocation of the latter.
fn small(
    alloc: Global,
    align: u32,
    first: u8,
    kind: RelocKind,
    offset: u32,
) -> Result<Option<Object>, AllocError> {
    let code: Part = (b".text", 1, 6, align, 4, &[5, 32, 112, 71]);
    let rows: [Row; 2] = [
        (b"f", 1, 4, first, 2, Home::Section(0)),
        (b"f", 1, 4, 0, 2, Home::Section(0)),
    ];
    object_of(alloc, &[code], &rows, &[(0, offset, kind, 1)])
}

#[test]
fn makes_objects(rt: HostRuntime) {
    let jump = RelocKind::ThmJump11;
    for (align, first, kind, offset, want) in [
        (4, 0, jump, 2, true),
        (4096, 0, jump, 2, true),
        (8192, 0, jump, 2, false),
        (3, 0, jump, 2, false),
        (4, 1, jump, 2, false),
        (4, 0, jump, 3, false),
        (4, 0, RelocKind::Abs32, 0, true),
        (4, 0, RelocKind::Abs32, 2, false),
        (4, 0, RelocKind::Other(0), 0, false),
        (4, 0, RelocKind::Other(3), 0, true),
    ] {
        let made = small(rt.alloc(), align, first, kind, offset).expect(&rt, "memory");
        assert_eq!(rt; made.is_some(), want, "{align} {first} {offset}");
    }
}

#[test]
fn compares_with_limits(rt: HostRuntime) {
    let o = small(rt.alloc(), 4, 0, RelocKind::Abs32, 0)
        .expect(&rt, "memory")
        .expect(&rt, "an object");
    for (sections, symbols, relocs, code, want) in [
        (1, 2, 1, 4, true),
        (0, 2, 1, 4, false),
        (1, 1, 1, 4, false),
        (1, 2, 0, 4, false),
        (1, 2, 1, 3, false),
    ] {
        let l = Limit {
            file: 0,
            sections,
            symbols,
            relocs,
            code,
        };
        assert_eq!(rt;
            within(&o, &l),
            want,
            "{sections} {symbols} {relocs} {code}"
        );
    }
    for section in o.sections() {
        assert!(rt; is_code(section));
    }
}

#[test]
fn names_refusals(rt: HostRuntime) {
    for (refusal, number, name) in [
        (Refusal::NotElf, 1, "NotElf"),
        (Refusal::SectionKind, 8, "SectionKind"),
        (Refusal::ReadsAndSetsFlags, 15, "ReadsAndSetsFlags"),
        (Refusal::LiveAtEntry { register: 12 }, 21, "LiveAtEntry"),
        (Refusal::Duplicate { symbol: 4 }, 27, "Duplicate"),
        (Refusal::TooLong, 31, "TooLong"),
    ] {
        assert_eq!(rt; refusal.number(), number, "{name}");
        assert_eq!(rt; refusal.name(), name, "{number}");
    }
}

/// What symbols of these names begin, where they are local and of no type.
#[test]
fn tells_mapping_symbols(rt: HostRuntime) {
    let names: [(&'static [u8], Option<RangeKind>); 5] = [
        (b"$t", Some(RangeKind::Code)),
        (b"$a.x", Some(RangeKind::Arm)),
        (b"$d.1", Some(RangeKind::Data)),
        (b"$tx", None),
        (b"f", None),
    ];
    for (name, want) in names {
        let row = (name, 0, 0, 0, 0, Home::Section(0));
        let s = symbol(rt.alloc(), row).expect(&rt, "memory");
        assert_eq!(rt; range_kind(&s), want, "{name:?}");
    }
}
