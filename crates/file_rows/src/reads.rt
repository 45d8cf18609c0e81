//! Objects of files, and the first fault of others.

use elf_model::Refusal::*;
use elf_model::{Deny, Limit, MapRow, Refusal, Reloc, RelocKind, RowKind, Spot};
use elf_read::{read_map, read_object};
use sample_files::{COMPILED, HARDENED, PLAIN};
use std::alloc::{AllocError, Global};
use std::process::Abort;

/// A file with some bytes at one place in place of its own.
fn changed(alloc: Global, file: &[u8], at: usize, new: &[u8]) -> Result<Vec<u8>, AllocError> {
    let mut file = Vec::from_slice(alloc, file)?;
    for (k, byte) in new.iter().enumerate() {
        if let Some(place) = at.checked_add(k)
            && place < file.len()
        {
            file[place] = *byte;
        }
    }
    Ok(file)
}

/// Why a file so changed is refused under a limit.
fn why(
    rt: &impl Abort,
    alloc: Global,
    file: &[u8],
    change: (usize, &[u8]),
    limit: &Limit,
) -> Option<Deny> {
    let file = changed(alloc, file, change.0, change.1).expect(rt, "memory");
    assert!(rt; file.len() < 2000);
    read_object(alloc, &file, limit).err()
}

fn at(refusal: Refusal, section: u32, offset: u32) -> Option<Deny> {
    Some(Deny::Refused(Spot {
        refusal,
        file: 0,
        section,
        offset,
    }))
}

#[test]
fn reads_the_file(rt: HostRuntime) {
    let read = read_object(rt.alloc(), &PLAIN, &Limit::INPUT).expect(&rt, "an object");
    assert_eq!(rt; read.dropped, 0);
    assert_eq!(rt; read.object.sections().len(), 1);
    assert_eq!(rt; read.object.symbols().len(), 2);
    assert_eq!(rt; read.object.flags(), 0x0500_0000);
}

#[test]
fn reads_the_file_of_a_compiler(rt: HostRuntime) {
    let read = read_object(rt.alloc(), &COMPILED, &Limit::INPUT).expect(&rt, "an object");
    assert_eq!(rt; read.dropped, 2);
    let names = [
        b".text".as_slice(),
        b".data".as_slice(),
        b".rodata".as_slice(),
        b".bss".as_slice(),
        b".comment".as_slice(),
        b".ARM.attributes".as_slice(),
    ];
    assert_eq!(rt; read.object.sections().len(), 6);
    for (section, name) in read.object.sections().iter().zip(names) {
        assert_eq!(rt; section.name.bytes(), name);
    }
    let rows = [
        (0, 0, RelocKind::MovwAbs, 2),
        (0, 4, RelocKind::MovtAbs, 2),
        (2, 0, RelocKind::Abs32, 1),
    ];
    assert_eq!(rt; read.object.relocs().len(), 3);
    for (reloc, (section, offset, kind, symbol)) in read.object.relocs().iter().zip(rows) {
        let want = Reloc {
            section,
            offset,
            kind,
            symbol,
        };
        assert_eq!(rt; *reloc, want);
    }
}

/// The rows of a map, which no input of `harden` may have, and an object without one.
#[test]
fn reads_maps(rt: HostRuntime) {
    let alloc = rt.alloc();
    let read = read_object(alloc, &HARDENED, &Limit::ANY).expect(&rt, "an object");
    let rows = read_map(alloc, &read.object).expect(&rt, "a map");
    assert_eq!(rt; rows.len(), 2);
    for (row, (section, old, new)) in rows.iter().zip([(0, 0, 0), (0, 2, 4)]) {
        let kind = RowKind::Start;
        let want = MapRow {
            section,
            old,
            new,
            kind,
        };
        assert_eq!(rt; *row, want);
    }
    let denied = read_object(alloc, &HARDENED, &Limit::INPUT).err();
    assert_eq!(rt; denied, at(SectionKind, 2, 276));
    let plain = read_object(alloc, &PLAIN, &Limit::ANY).expect(&rt, "an object");
    assert_eq!(rt; read_map(alloc, &plain.object).err(), at(SectionKind, 0, 0));
}

/// The null header and the null symbol, an odd value of a function, an absolute symbol.
#[test]
fn accepts_what_is_no_fault(rt: HostRuntime) {
    let rows: [(usize, &[u8]); 4] = [
        (144, &[255; 40]),
        (56, &[255; 16]),
        (92, &[5]),
        (102, &[0xF1, 0xFF]),
    ];
    for (place, new) in rows {
        let denied = why(&rt, rt.alloc(), &PLAIN, (place, new), &Limit::INPUT);
        assert_eq!(rt; denied, None, "{place}");
    }
}

/// Faults of the file's header and of what is cut off.
#[test]
fn refuses_file_headers(rt: HostRuntime) {
    let rows: [(&[u8], usize, u8, Refusal, u32); 13] = [
        (&[], 0, 0, NotElf, 0),
        (&PLAIN[..51], 0, 0x7F, NotElf, 0),
        (&PLAIN[..143], 0, 0x7F, BadTable, 32),
        (&PLAIN[..343], 0, 0x7F, BadTable, 32),
        (&PLAIN, 0, 0, NotElf, 0),
        (&PLAIN, 4, 2, NotArmRel, 4),
        (&PLAIN, 5, 2, NotArmRel, 5),
        (&PLAIN, 16, 2, NotArmRel, 16),
        (&PLAIN, 18, 3, NotArmRel, 18),
        (&PLAIN, 39, 4, NotArmRel, 36),
        (&PLAIN, 32, 145, BadTable, 32),
        (&PLAIN, 46, 41, BadTable, 46),
        (&PLAIN, 50, 1, BadTable, 50),
    ];
    for (file, place, new, refusal, offset) in rows {
        let denied = why(&rt, rt.alloc(), file, (place, &[new]), &Limit::INPUT);
        assert_eq!(rt; denied, at(refusal, 0, offset), "{place}");
    }
}

/// Faults of section headers; the first row has a symbol table in place of the code, before the other one.
#[test]
fn refuses_section_headers(rt: HostRuntime) {
    let table: [u8; 36] = [
        2, 0, 0, 0, 0, 0, 0, 0, 0, 0, 0, 0, 56, 0, 0, 0, 48, 0, 0, 0, 3, 0, 0, 0, 2, 0, 0, 0, 4, 0,
        0, 0, 16, 0, 0, 0,
    ];
    let rows: [(usize, &[u8], Refusal, u32, u32); 11] = [
        (188, &table, BadTable, 2, 228),
        (200, &[85, 1], BadTable, 1, 200),
        (244, &[47], BadTable, 2, 244),
        (248, &[1], BadTable, 2, 248),
        (248, &[9], BadTable, 2, 248),
        (268, &[2], BadTable, 2, 248),
        (188, &[9], BadTable, 1, 204),
        (216, &[3], BadTable, 1, 216),
        (216, &[0, 32], BadTable, 1, 216),
        (260, &[8], BadTable, 2, 260),
        (192, &[7], SectionKind, 1, 192),
    ];
    for (place, new, refusal, section, offset) in rows {
        let denied = why(&rt, rt.alloc(), &PLAIN, (place, new), &Limit::INPUT);
        assert_eq!(rt; denied, at(refusal, section, offset), "{place}");
    }
}

/// Faults of names and symbols; the last row makes the first symbol global and the second one local.
#[test]
fn refuses_names_and_symbols(rt: HostRuntime) {
    let turned: [u8; 17] = [16, 0, 1, 0, 4, 0, 0, 0, 1, 0, 0, 0, 4, 0, 0, 0, 2];
    let rows: [(usize, &[u8], Refusal, u32, u32); 10] = [
        (185, &[1], BadName, 1, 184),
        (304, &[33], BadName, 4, 304),
        (72, &[6], BadName, 2, 72),
        (84, &[48], BadSymbol, 2, 84),
        (84, &[5], BadSymbol, 2, 84),
        (102, &[5], BadSymbol, 2, 102),
        (102, &[0xF2, 0xFF], BadSymbol, 2, 102),
        (92, &[6], BadSymbol, 2, 92),
        (92, &[7], BadSymbol, 2, 92),
        (84, &turned, BadSymbol, 2, 100),
    ];
    for (place, new, refusal, section, offset) in rows {
        let denied = why(&rt, rt.alloc(), &PLAIN, (place, new), &Limit::INPUT);
        assert_eq!(rt; denied, at(refusal, section, offset), "{place}");
    }
}

#[test]
fn refuses_relocations_and_numbers(rt: HostRuntime) {
    let alloc = rt.alloc();
    let outside = why(&rt, alloc, &COMPILED, (69, &[9]), &Limit::INPUT);
    assert_eq!(rt; outside, at(BadReloc, 2, 68));
    let twice = why(&rt, alloc, &COMPILED, (72, &[0]), &Limit::INPUT);
    assert_eq!(rt; twice, at(BadReloc, 2, 72));
    let limit = Limit {
        sections: 4,
        ..Limit::INPUT
    };
    assert_eq!(rt;
        why(&rt, alloc, &PLAIN, (0, &[]), &limit),
        at(TooMany, 0, 48)
    );
}
