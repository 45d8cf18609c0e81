//! What instructions make of registers and flags.

ghost use Rattle.std.specs.Prelude.{◌≡◌, ◌<◌, ◌+◌, ◌^◌, length, map};
ghost use Rattle.std.specs.List.Sorted.{IsStrictlyIncreasing};

use mark_word::Word;
use std::alloc::Global;
use std::process::Abort;
use thumb_decode::{ItPlace, decode};
use thumb_instr::Instr;
use thumb_table::{CodeBytes, Core, Memory, apply};

/// A code; r1 and r2 before it; r0, and N, Z, C and V as digits, behind it. Before it r0 is 7, C and V are set.
type Row = (u32, [u32; 2], u32, u32);

const ROWS: [Row; 46] = [
    (0x1888, [0xffffffff, 1], 0, 110),
    (0x1888, [0x7fffffff, 1], 0x80000000, 1001),
    (0x1a88, [0, 1], 0xffffffff, 1000),
    (0x1a88, [0x80000000, 1], 0x7fffffff, 11),
    (0xebd10002, [0x80000000, 0], 0x80000000, 1001),
    (0xea110002, [0xff, 0xf], 0xf, 11),
    (0xea310002, [0xff, 0xf], 0xf0, 11),
    (0xea510002, [0xf0, 0xf], 0xff, 11),
    (0xea710002, [0, 1], 0xfffffffe, 1011),
    (0xea910002, [0xff, 0xff], 0, 111),
    (0xeb410002, [0xffffffff, 0], 0, 11),
    (0xeb610002, [5, 5], 0, 11),
    (0xeb610002, [5, 6], 0xffffffff, 11),
    (0x4211, [0, 5], 7, 111),
    (0xea910f02, [4, 5], 7, 11),
    (0x42d1, [1, 0xffffffff], 7, 110),
    (0x4291, [5, 5], 7, 110),
    (0xf60170fb, [9, 0], 0x1004, 11),
    (0xf6a170fb, [9, 0], 0xfffff00e, 11),
    (0x2005, [0, 0], 5, 11),
    (0xf07f0005, [0, 0], 0xfffffffa, 1011),
    (0xfa11f002, [1, 0x100], 1, 11),
    (0xfa11f002, [1, 0x20], 0, 111),
    (0xfa31f002, [0xffffffff, 0x21], 0, 101),
    (0xfa51f002, [0x80000000, 0xff], 0xffffffff, 1011),
    (0xfa71f002, [1, 1], 0x80000000, 1011),
    (0xf3411007, [0xab5, 0], 0xffffffab, 11),
    (0xf3c11007, [0xab5, 0], 0xab, 11),
    (0xf361100b, [0xab5, 0], 0xb57, 11),
    (0xf36f0001, [0xab5, 0], 4, 11),
    (0xfa0ff0a1, [0x80001234, 0], 0xffff8000, 11),
    (0xfa4ff0b1, [0x80001234, 0], 0xffffff80, 11),
    (0xfa1ff091, [0x11223344, 0], 0x2233, 11),
    (0xfa5ff091, [0x11223344, 0], 0x33, 11),
    (0xba08, [0x1020304, 0], 0x4030201, 11),
    (0xba48, [0x1020304, 0], 0x2010403, 11),
    (0xbac8, [0x12340080, 0], 0xffff8000, 11),
    (0xfa91f0a1, [0xd, 0], 0xb0000000, 11),
    (0xfab1f081, [0x10000, 0], 0xf, 11),
    (0xfb01f002, [0x80000000, 3], 0x80000000, 11),
    (0xfb91f0f2, [0x80000000, 0xffffffff], 0x80000000, 11),
    (0xfb91f0f2, [0xfffffff9, 2], 0xfffffffd, 11),
    (0xfbb1f0f2, [0xfffffff9, 2], 0x7ffffffc, 11),
    (0xfb91f0f2, [7, 0], 0, 11),
    (0xfbb1f0f2, [7, 0], 0, 11),
    (0x4348, [0x40000000, 0], 0xc0000000, 1011),
];

/// A product's code; r1 to r3 before it; r0 and r3 behind it.
type Product = (u32, [u32; 3], [u32; 2]);

const PRODUCTS: [Product; 6] = [
    (0xfb013002, [3, 5, 0xa], [0x19, 0xa]),
    (0xfb013012, [3, 5, 0xa], [0xfffffffb, 0xa]),
    (0xfb813002, [0xffffffff, 2, 3], [0xffffffff, 0xfffffffe]),
    (0xfba13002, [0xffffffff, 2, 3], [1, 0xfffffffe]),
    (0xfbc13002, [0xffffffff, 2, 3], [7, 1]),
    (0xfbe13002, [0xffffffff, 2, 3], [9, 1]),
];

/// The instruction of a code of one halfword, or of two.
fn decoded(rt: &impl Abort, code: u32) -> Instr {
    let first = (code / 65536) as u16;
    let second = (code % 65536) as u16;
    let found = if first == 0 {
        decode(second, None, ItPlace::Outside)
    } else {
        decode(first, Some(second), ItPlace::Outside)
    };
    found.expect(rt, "an instruction")
}

fn registers(from: [u32; 3]) -> Core
    ensures { result.pc ≡ 0x8000 }
{
    let mut r = [Word::plain(0); 15];
    r[0] = Word::plain(7);
    r[1] = Word::plain(from[0]);
    r[2] = Word::plain(from[1]);
    r[3] = Word::plain(from[2]);
    Core {
        r,
        pc: 0x8000,
        n: false,
        z: false,
        c: true,
        v: true,
        it: 0,
    }
}

fn no_code(alloc: Global) -> CodeBytes
    ensures marks { IsStrictlyIncreasing (map (λ p. p.at) result.marks) }
    ensures stops { IsStrictlyIncreasing result.stops }
    ensures ends { result.base + length result.bytes < 2 ^ 32 }
{
    CodeBytes::new(0x8000, Vec::new(alloc), Vec::new(alloc), Vec::new(alloc))
}

/// N, Z, C and V as digits.
fn flags(s: &Core) -> u32 {
    let n = if s.n { 1000 } else { 0 };
    let z = if s.z { 100 } else { 0 };
    let c = if s.c { 10 } else { 0 };
    let v = if s.v { 1 } else { 0 };
    n + z + c + v
}

/// Carries out the instruction of a code.
fn carried(rt: &impl Abort, alloc: Global, code: u32, from: [u32; 3]) -> Core {
    let i = decoded(rt, code);
    let wide = code > 0xFFFF;
    let mut s = registers(from);
    let mut memory = Memory::new(0x9000, Vec::new(alloc));
    let done = apply(&i, wide, &no_code(alloc), &mut s, &mut memory);
    assert_eq!(rt; done, Ok(true), "{code:x}");
    assert_eq!(rt; s.pc, if wide { 0x8004 } else { 0x8002 }, "{code:x}");
    s
}

#[test]
fn computes_rows(rt: HostRuntime) {
    for (code, [a, b], word, set) in ROWS {
        let s = carried(&rt, rt.alloc(), code, [a, b, 0]);
        assert_eq!(rt; s.r[0], Word::plain(word), "{code:x}");
        assert_eq!(rt; flags(&s), set, "{code:x}");
    }
    for (code, from, to) in PRODUCTS {
        let s = carried(&rt, rt.alloc(), code, from);
        let found = [s.r[0].bits(), s.r[3].bits()];
        assert_eq!(rt; found, to, "{code:x}");
    }
}
