//! Decoding, encoding, listing and sets, at the rows of the tables.

use crate::code_tables::{ACCESSES, BRANCHES, DATA, PRODUCTS};
use bitflags::Flags;
use std::alloc::{AllocError, Global};
use std::process::Abort;
use std::test::Fail;
use thumb_decode::{ItPlace, decode, is_wide};
use thumb_encode::{Code, Width, encode};
use thumb_instr::{
    Access, AccessOp, Alu, AluOp, Branch, Call, Cond, Instr, Operand, Place, Reg, cond_reads,
    is_idempotent, reads, same, sets_flags, writes,
};
use thumb_text::{Line, list_line};

/// The codes of an instruction in one and in two halfwords.
fn codes(alloc: Global, i: &Instr) -> Result<String, AllocError> {
    let half = match encode(i, Width::Half) {
        Some(Code::Half(h)) => format!(in alloc; "{h:04x}")?,
        _ => String::from_str(alloc, "-")?,
    };
    match encode(i, Width::Full) {
        Some(Code::Full(first, second)) => format!(in alloc; "{half} {first:04x}{second:04x}"),
        _ => format!(in alloc; "{half} -"),
    }
}

/// An instruction at 0x1002 is listed by its address and this text.
fn is_listed(rt: &impl Abort, i: &Instr, text: &str) {
    let mut line = Line::new();
    list_line(i, 0xFFFF_FFFE, &mut line);
    list_line(i, 0x1002, &mut line);
    let bytes = line.bytes();
    assert!(rt; bytes.len() >= 10, "{text}");
    assert_eq!(rt; &bytes[..10], b"00001002  ".as_slice(), "{text}");
    assert_eq!(rt; &bytes[10..], text.as_bytes(), "{text}");
}

/// What stands behind the text of an instruction in its row.
fn told(alloc: Global, i: &Instr) -> Result<String, AllocError> {
    let codes = codes(alloc, i)?;
    let (read, written, set) = (reads(i).bits(), writes(i).bits(), sets_flags(i).bits());
    let twice = if is_idempotent(i) { "twice" } else { "once" };
    format!(in alloc; "{codes}; {read:x} {written:x} {set:x}; {twice}")
}

/// The instruction of a code of one halfword, or of two.
fn decoded(rt: &impl Abort, code: u32) -> Instr {
    let first = (code / 65536) as u16;
    let second = (code % 65536) as u16;
    let found = if first == 0 {
        assert!(rt; !is_wide(second), "{code:x}");
        decode(second, None, ItPlace::Outside)
    } else {
        assert!(rt; is_wide(first), "{code:x}");
        decode(first, Some(second), ItPlace::Outside)
    };
    found.expect(rt, "an instruction")
}

fn is_told(rt: &impl Abort, alloc: Global, row: &str) -> Result<(), Fail> {
    let (code, rest) = row.split_once("; ").ok_or("a code")?;
    let (text, rest) = rest.split_once("; ").ok_or("a text")?;
    let code = u32::from_str_radix(code, 16).expect(rt, "a code");
    let i = decoded(rt, code);
    is_listed(rt, &i, text);
    assert_eq!(rt; told(alloc, &i)?.as_str(), rest, "{row}");
    assert!(rt; same(&i, &i), "{row}");
    Ok(())
}

#[test]
fn tells_instructions(rt: HostRuntime) -> Result<(), Fail> {
    for table in [&DATA[..], &PRODUCTS[..], &ACCESSES[..], &BRANCHES[..]] {
        for row in table {
            is_told(&rt, rt.alloc(), row)?;
        }
    }
    Ok(())
}

/// In an IT block some halfwords set no flags, and the last may branch.
#[test]
fn decodes_in_blocks(rt: HostRuntime) {
    for (half, place, text) in [
        (0x2001, ItPlace::Last, "mov r0, #1"),
        (0x4148, ItPlace::Inside, "adc r0, r0, r1"),
        (0x4348, ItPlace::Inside, "mul r0, r1, r0"),
        (0x4770, ItPlace::Last, "bx lr"),
        (0xbd10, ItPlace::Last, "ldmia sp!, {r4,pc}"),
        (0xe7fe, ItPlace::Last, "b 0x00001002"),
    ] {
        match decode(half, None, place) {
            Ok(i) => is_listed(&rt, &i, text),
            Err(_) => assert!(rt; false, "{text}"),
        }
    }
}

/// What fits no field, and flags that are both read and set.
#[test]
fn has_no_code(rt: HostRuntime) {
    let r0 = Reg::new(0).expect(&rt, "r0");
    let far = Place::Offset {
        up: true,
        imm: 4096,
    };
    let rows = [
        Alu::new(AluOp::Adc, true, r0, r0, Operand::Imm(1)).map(Instr::Alu),
        Access::new(AccessOp::Ldr, r0, r0, far).map(Instr::Access),
        Branch::new(Cond::Al, 1 << 24).map(Instr::Branch),
        Branch::new(Cond::Ne, -(1 << 20) - 2).map(Instr::Branch),
        Call::new(-(1 << 24) - 2).map(Instr::Call),
    ];
    for row in rows {
        let i = row.expect(&rt, "an instruction");
        assert!(rt; encode(&i, Width::Half).is_none());
        assert!(rt; encode(&i, Width::Full).is_none());
    }
    let back = Branch::new(Cond::Al, -(1 << 24)).map(Instr::Branch);
    let back = back.expect(&rt, "the longest branch");
    assert_eq!(rt;
        encode(&back, Width::Full),
        Some(Code::Full(0xF400, 0x9000))
    );
}

#[test]
fn tells_flags_of_conditions(rt: HostRuntime) {
    let rows = [
        (Cond::Eq, 0x20000),
        (Cond::Ne, 0x20000),
        (Cond::Cs, 0x40000),
        (Cond::Cc, 0x40000),
        (Cond::Mi, 0x10000),
        (Cond::Pl, 0x10000),
        (Cond::Vs, 0x80000),
        (Cond::Vc, 0x80000),
        (Cond::Hi, 0x60000),
        (Cond::Ls, 0x60000),
        (Cond::Ge, 0x90000),
        (Cond::Lt, 0x90000),
        (Cond::Gt, 0xb0000),
        (Cond::Le, 0xb0000),
        (Cond::Al, 0),
    ];
    for (cond, want) in rows {
        assert_eq!(rt; cond_reads(cond).bits(), want, "{cond:?}");
    }
}
