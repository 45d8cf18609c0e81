//! Generated objects.

use elf_model::{Home, Object, RelocKind};
use gen_object::generated;
use std::alloc::AllocError;
use std::process::Abort;

/// The bytes of the code of an object with one section.
fn code_of<'a>(rt: &impl Abort, o: &'a Object) -> &'a [u8] {
    let section = o.sections().first().expect(rt, "a section");
    assert_eq!(rt; section.name.bytes(), b".text".as_slice());
    assert_eq!(rt; (section.flags, section.align), (6, 4));
    section.bytes.as_slice()
}

/// A symbol's name, value, size, binding and type.
fn has_symbol(rt: &impl Abort, o: &Object, index: usize, want: (&[u8], u32, u32, u8, u8)) {
    let symbol = o.symbols().get(index).expect(rt, "a symbol");
    assert_eq!(rt; symbol.name.bytes(), want.0);
    assert_eq!(rt; (symbol.value, symbol.size), (want.1, want.2));
    assert_eq!(rt; (symbol.bind, symbol.kind), (want.3, want.4));
    assert!(rt; symbol.home == Home::Section(0));
}

#[test]
fn generates_one_function(rt: HostRuntime) -> Result<(), AllocError> {
    let o = generated(rt.alloc(), 0, 1)?;
    let code = [0x10, 0xB5, 0x07, 0x21, 0x48, 0x43, 0x40, 0x42, 0x10, 0xBD];
    assert_eq!(rt; code_of(&rt, &o), code.as_slice());
    assert_eq!(rt; o.symbols().len(), 2);
    has_symbol(&rt, &o, 0, (b"$t", 0, 0, 0, 0));
    has_symbol(&rt, &o, 1, (b"f0", 1, 10, 1, 2));
    assert!(rt; o.relocs().is_empty());
    assert_eq!(rt; o.flags(), 0x0500_0000);
    Ok(())
}

#[test]
fn generates_calls(rt: HostRuntime) -> Result<(), AllocError> {
    let o = generated(rt.alloc(), 7, 3)?;
    let code = [
        0x10, 0xB5, 0x07, 0x21, 0xCA, 0x43, 0xC2, 0x00, 0xFF, 0xF7, 0xFE, 0xFF, 0x10, 0xBD, 0x10,
        0xB5, 0xCA, 0x43, 0x01, 0x30, 0x40, 0x42, 0xFF, 0xF7, 0xFE, 0xFF, 0x10, 0xBD, 0x10, 0xB5,
        0x48, 0x43, 0x01, 0x30, 0x01, 0x30, 0x10, 0xBD,
    ];
    assert_eq!(rt; code_of(&rt, &o), code.as_slice());
    assert_eq!(rt; o.symbols().len(), 4);
    has_symbol(&rt, &o, 1, (b"f0", 1, 14, 1, 2));
    has_symbol(&rt, &o, 2, (b"f1", 15, 14, 1, 2));
    has_symbol(&rt, &o, 3, (b"f2", 29, 10, 1, 2));
    let mut calls = Vec::new(rt.alloc());
    for reloc in o.relocs() {
        assert!(rt; reloc.kind == RelocKind::ThmCall);
        calls.push((reloc.section, reloc.offset, reloc.symbol))?;
    }
    assert_eq!(rt; calls.as_slice(), [(0, 8, 2), (0, 22, 3)].as_slice());
    Ok(())
}
