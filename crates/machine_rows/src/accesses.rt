//! Loads, stores, branches and faults.

ghost use Rattle.std.specs.Prelude.{◌≡◌, ◌<◌, ◌+◌, ◌^◌, IfOk, length, map};
ghost use Rattle.std.specs.List.Sorted.{IsStrictlyIncreasing};

use mark_word::{Cell, Mark, Word, pieces};
use std::alloc::{AllocError, Global};
use std::test::Fail;
use thumb_instr::{
    Access, AccessOp, Call, Cond, Half, Instr, It, Literal, Multi, Pair, PairIndex, Place, Reg,
    RegSet, Trap, ZeroBranch,
};
use thumb_table::{CodeBytes, Core, FaultKind, Memory, PlaceMark, apply};

/// Two NOPs and the address of an entry.
fn code(alloc: Global) -> Result<CodeBytes, AllocError>
    ensures { IfOk result (λ c. IsStrictlyIncreasing (map (λ p. p.at) c.marks) × IsStrictlyIncreasing c.stops × (c.base + length c.bytes < 2 ^ 32)) }
{
    let bytes = Vec::from_slice(alloc, &[0x00, 0xbf, 0x00, 0xbf, 0x01, 0x80, 0x00, 0x00])?;
    let marks = vec![in alloc;
        PlaceMark {
            at: 0x8004,
            mark: Mark::Entry(0x8001)
        },
    ]?;
    let stops = Vec::new(alloc);
    Ok(CodeBytes::new(0x8000, bytes, marks, stops))
}

/// The address of an entry, a number, and the address at which a call ends, from 0x9000 on.
fn memory(alloc: Global) -> Result<Memory, AllocError>
    ensures { IfOk result (λ m. m.base + length m.cells < 2 ^ 32) }
{
    let mut cells = Vec::new(alloc);
    cells.extend_from_slice(&pieces(Word::entry(0x8001)))?;
    cells.extend_from_slice(&pieces(Word::plain(0x80)))?;
    cells.extend_from_slice(&pieces(Word::returning(0x7fff_ffff)))?;
    Ok(Memory::new(0x9000, cells))
}

/// Registers of which r0 and r1 have these words and the others 0.
fn registers(first: Word, second: Word, pc: u32) -> Core
    ensures { result.pc ≡ pc }
{
    let mut r = [Word::plain(0); 15];
    r[0] = first;
    r[1] = second;
    Core {
        r,
        pc,
        n: false,
        z: false,
        c: false,
        v: false,
        it: 0,
    }
}

/// Carries an instruction of two halfwords out over that code.
fn carried(
    alloc: Global,
    i: &Instr,
    s: &mut Core,
    m: &mut Memory,
) -> Result<Result<bool, FaultKind>, AllocError>
    requires room { s.old.pc + 4 < 2 ^ 32 }
    requires memory { m.old.base + length m.old.cells < 2 ^ 32 }
{
    let code = code(alloc)?;
    Ok(apply(i, true, &code, s, m))
}

fn reg(number: u8) -> Reg
    requires { number < 15 }
{
    Reg::new(number).unwrap()
}

/// An access of r0 or another register from r1 on.
fn access(op: AccessOp, t: u8, place: Place) -> Option<Instr>
    requires { t < 15 }
{
    Some(Instr::Access(Access::new(op, reg(t), reg(1), place)?))
}

fn above(imm: u16) -> Place {
    Place::Offset { up: true, imm }
}

/// A load of r0, and of pc, from r1 on.
fn pop(pc: bool) -> Option<Instr> {
    let list = RegSet::one(reg(0));
    Some(Instr::Multi(Multi::new(true, false, true, reg(1), list, pc)?))
}

#[test]
fn loads(rt: HostRuntime) -> Result<(), Fail> {
    for (op, imm, ordinary, word) in [
        (AccessOp::Ldr, 0, true, Word::entry(0x8001)),
        (AccessOp::Ldr, 2, false, Word::plain(0x80_0000)),
        (AccessOp::Ldrb, 0, false, Word::plain(1)),
        (AccessOp::Ldrb, 4, true, Word::plain(0x80)),
        (AccessOp::Ldrsb, 4, true, Word::plain(0xffff_ff80)),
        (AccessOp::Ldrh, 0, false, Word::plain(0x8001)),
        (AccessOp::Ldrsh, 0, false, Word::plain(0xffff_8001)),
    ] {
        let mut m = memory(rt.alloc())?;
        let mut s = registers(Word::plain(7), Word::plain(0x9000), 0x8000);
        let i = access(op, 0, above(imm)).ok_or("no access")?;
        assert_eq!(rt;
            carried(rt.alloc(), &i, &mut s, &mut m)?,
            Ok(ordinary),
            "{imm}"
        );
        assert_eq!(rt; s.r[0], word, "{imm}");
        assert_eq!(rt; s.pc, 0x8004, "{imm}");
    }
    Ok(())
}

#[test]
fn keeps_a_loaded_base(rt: HostRuntime) -> Result<(), Fail> {
    let mut m = memory(rt.alloc())?;
    let mut s = registers(Word::plain(7), Word::plain(0x9000), 0x8000);
    let i = access(AccessOp::Ldr, 1, Place::Post { up: true, imm: 4 }).ok_or("no access")?;
    assert_eq!(rt; carried(rt.alloc(), &i, &mut s, &mut m)?, Ok(true));
    assert_eq!(rt; s.r[1], Word::entry(0x8001));
    Ok(())
}

#[test]
fn stores(rt: HostRuntime) -> Result<(), Fail> {
    let marked = Word::entry(0x0205);
    for (op, word, ordinary, first, second) in [
        (AccessOp::Str, Word::plain(0x0201), true, 1, true),
        (AccessOp::Strb, Word::plain(0x0203), true, 3, false),
        (AccessOp::Strh, Word::plain(0x0203), true, 3, true),
        (AccessOp::Strb, marked, false, 5, false),
    ] {
        let mut m = memory(rt.alloc())?;
        let mut s = registers(word, Word::plain(0x9000), 0x8000);
        let i = access(op, 0, above(0)).ok_or("no access")?;
        assert_eq!(rt; carried(rt.alloc(), &i, &mut s, &mut m)?, Ok(ordinary));
        assert!(rt; m.cells().len() == 12);
        assert_eq!(rt; m.cells()[0], Cell::bare(first));
        assert_eq!(rt; m.cells()[1].piece().is_none(), second);
    }
    Ok(())
}

#[test]
fn pops(rt: HostRuntime) -> Result<(), Fail> {
    let mut m = memory(rt.alloc())?;
    let mut s = registers(Word::plain(7), Word::plain(0x9004), 0x8000);
    let i = pop(true).ok_or("no list")?;
    assert_eq!(rt; carried(rt.alloc(), &i, &mut s, &mut m)?, Ok(true));
    assert_eq!(rt; s.r[0], Word::plain(0x80));
    assert_eq!(rt; s.r[1], Word::plain(0x900c));
    assert_eq!(rt; s.pc, 0x7fff_fffe);
    Ok(())
}

#[test]
fn faults(rt: HostRuntime) -> Result<(), Fail> {
    let pair = Pair::new(true, reg(2), reg(3), reg(1), true, 0, PairIndex::Post);
    for (i, base, kind) in [
        (
            access(AccessOp::Ldr, 0, above(9)),
            0x9000,
            FaultKind::BadAddress,
        ),
        (
            access(AccessOp::Strb, 0, above(0)),
            0x8fff,
            FaultKind::BadAddress,
        ),
        (
            access(AccessOp::Ldr, 13, above(0)),
            0x9000,
            FaultKind::BadStack,
        ),
        (pair.map(Instr::Pair), 0x9006, FaultKind::BadAddress),
        (pair.map(Instr::Pair), 0x9002, FaultKind::Unaligned),
        (pop(true), 0x9000, FaultKind::BadJump),
        (Trap::new(0).map(Instr::Trap), 0x9000, FaultKind::Trap),
    ] {
        let mut m = memory(rt.alloc())?;
        let mut s = registers(Word::plain(7), Word::plain(base), 0x8000);
        let i = i.ok_or("no instruction")?;
        assert_eq!(rt; carried(rt.alloc(), &i, &mut s, &mut m)?, Err(kind));
        assert_eq!(rt; s.r[1], Word::plain(base));
        assert_eq!(rt; s.pc, 0x8000);
    }
    Ok(())
}

#[test]
fn moves_addresses(rt: HostRuntime) -> Result<(), Fail> {
    let entry = Word::entry(0x8001);
    let literal = Literal::new(reg(0), true, 0).map(Instr::Literal);
    let top = Half::new(true, reg(0), 0).map(Instr::Half);
    for (i, step, old, ordinary, word) in [
        (literal, 0u8, Word::plain(7), true, entry),
        (literal, 2, Word::plain(7), true, entry),
        (top, 4, Word::low(0x8001), true, entry),
        (top, 4, Word::plain(0x8001), false, Word::plain(0x8001)),
        (top, 0u8, Word::plain(0x7_0001), true, Word::plain(1)),
    ] {
        let mut m = memory(rt.alloc())?;
        let mut s = registers(old, Word::plain(0), 0x8000 + u32::from(step));
        let i = i.ok_or("no instruction")?;
        assert_eq!(rt; carried(rt.alloc(), &i, &mut s, &mut m)?, Ok(ordinary));
        assert_eq!(rt; s.r[0], word);
    }
    Ok(())
}

#[test]
fn goes_on(rt: HostRuntime) -> Result<(), Fail> {
    for (i, pc, it) in [
        (Call::new(-8).map(Instr::Call), 0x7ffc, 0),
        (
            ZeroBranch::new(true, reg(0), 6).map(Instr::ZeroBranch),
            0x800a,
            0,
        ),
        (
            ZeroBranch::new(false, reg(0), 6).map(Instr::ZeroBranch),
            0x8004,
            0,
        ),
        (It::new(Cond::Ne, 8).map(Instr::It), 0x8004, 0x18),
    ] {
        let mut m = memory(rt.alloc())?;
        let mut s = registers(Word::entry(0x8001), Word::plain(0), 0x8000);
        let i = i.ok_or("no instruction")?;
        assert_eq!(rt; carried(rt.alloc(), &i, &mut s, &mut m)?, Ok(true));
        assert_eq!(rt; s.pc, pc);
        assert_eq!(rt; s.it, it);
    }
    Ok(())
}
