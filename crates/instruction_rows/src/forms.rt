//! Registers, operands and constructors of instructions, at the edges of their fields.

ghost use Rattle.std.specs.Prelude.{◌≡◌, ◌≤◌};

use bitflags::Flags;
use mark_word::Shift;
use thumb_instr::{
    Access, AccessOp, Adr, Alu, AluOp, Branch, Call, CallReg, Cond, Div, Field, FieldOp, Half,
    Instr, It, Jump, Literal, LongMul, LongMulOp, Move, MoveOp, Mul, MulAcc, Multi, Nothing,
    NothingOp, Operand, Pair, PairIndex, Place, Reg, RegSet, ShiftBy, Test, TestOp, Trap, Unary,
    UnaryOp, Wide, WideOp, ZeroBranch, same,
};

const FIVE: Operand = Operand::Imm(5);

/// A byte of 0 that would be spread over the word.
const NONE: Operand = Operand::Imm(256);

fn r(number: u8) -> Reg
    requires { number ≤ 14 }
    ensures { result ≡ number }
{
    match Reg::new(number) {
        Some(r) => r,
        None => unreachable!(),
    }
}

fn list(bits: u32) -> RegSet {
    RegSet::from_bits_retain(bits)
}

#[test]
fn takes_registers_and_operands(rt: HostRuntime) {
    for (number, made) in [(0, true), (14, true), (15, false), (255, false)] {
        assert_eq!(rt; Reg::new(number).is_some(), made, "{number}");
    }
    for (imm12, valid) in [
        (255, true),
        (256, false),
        (257, true),
        (768, false),
        (4096, false),
    ] {
        assert_eq!(rt; Operand::Imm(imm12).is_valid(), valid, "{imm12}");
    }
    for (kind, amount, valid) in [
        (Shift::Lsl, 0, true),
        (Shift::Lsl, 32, false),
        (Shift::Lsr, 0, false),
        (Shift::Lsr, 32, true),
        (Shift::Asr, 33, false),
        (Shift::Ror, 0, false),
        (Shift::Ror, 31, true),
        (Shift::Ror, 32, false),
        (Shift::Rrx, 0, true),
        (Shift::Rrx, 1, false),
    ] {
        let x = Operand::Reg {
            m: r(3),
            kind,
            amount,
        };
        assert_eq!(rt; x.is_valid(), valid, "{kind:?} {amount}");
        assert_eq!(rt;
            Move::new(MoveOp::Mvn, true, r(3), x).is_some(),
            valid,
            "{kind:?}"
        );
    }
}

#[test]
fn makes_instructions(rt: HostRuntime) {
    let (a, b, c) = (r(0), r(1), r(2));
    let last = Place::Index { m: c, shift: 3 };
    let made = [
        Alu::new(AluOp::And, true, a, b, FIVE).is_some(),
        Test::new(TestOp::Cmp, a, FIVE).is_some(),
        ShiftBy::new(Shift::Ror, true, a, b, c).is_some(),
        Wide::new(WideOp::Add, a, b, 4095).is_some(),
        Half::new(true, a, 0xFFFF).is_some(),
        Field::new(FieldOp::Bfc, a, None, 0, 32).is_some(),
        Field::new(FieldOp::Bfi, a, Some(a), 31, 1).is_some(),
        Unary::new(UnaryOp::Sxtb, a, b, 24).is_some(),
        Unary::new(UnaryOp::Rev, a, b, 0).is_some(),
        Mul::new(true, a, a, a).is_some(),
        MulAcc::new(true, a, a, a, a).is_some(),
        LongMul::new(LongMulOp::Smlal, b, c, b, c).is_some(),
        Div::new(true, a, a, a).is_some(),
        Access::new(AccessOp::Ldr, a, b, last).is_some(),
        Pair::new(false, a, b, c, true, 1020, PairIndex::Pre).is_some(),
        Multi::new(true, false, true, r(13), list(0), true).is_some(),
        Multi::new(true, false, true, r(13), list(0x5FFF), false).is_some(),
        Literal::new(a, true, 4095).is_some(),
        Adr::new(a, false, 4095).is_some(),
        Branch::new(Cond::Al, -2).is_some(),
        ZeroBranch::new(true, a, 126).is_some(),
        Call::new(128).is_some(),
        Jump::new(r(14)).is_some(),
        CallReg::new(r(3)).is_some(),
        It::new(Cond::Eq, 1).is_some(),
        It::new(Cond::Eq, 15).is_some(),
        Nothing::new(NothingOp::Dmb, 15).is_some(),
        Nothing::new(NothingOp::Nop, 0).is_some(),
        Trap::new(255).is_some(),
    ];
    for (k, made) in made.iter().enumerate() {
        assert!(rt; *made, "{k}");
    }
}

#[test]
fn makes_no_other_instructions(rt: HostRuntime) {
    let (a, b, c) = (r(0), r(1), r(2));
    let past = Place::Index { m: c, shift: 4 };
    let made = [
        Alu::new(AluOp::And, true, a, b, NONE).is_some(),
        Move::new(MoveOp::Mvn, true, a, NONE).is_some(),
        Test::new(TestOp::Cmp, a, NONE).is_some(),
        ShiftBy::new(Shift::Rrx, true, a, b, c).is_some(),
        Wide::new(WideOp::Add, a, b, 4096).is_some(),
        Field::new(FieldOp::Bfc, a, Some(b), 0, 32).is_some(),
        Field::new(FieldOp::Bfi, a, None, 0, 32).is_some(),
        Field::new(FieldOp::Sbfx, a, Some(b), 31, 2).is_some(),
        Field::new(FieldOp::Ubfx, a, Some(b), 0, 0).is_some(),
        Unary::new(UnaryOp::Uxth, a, b, 4).is_some(),
        Unary::new(UnaryOp::Sxth, a, b, 32).is_some(),
        Unary::new(UnaryOp::Clz, a, b, 8).is_some(),
        LongMul::new(LongMulOp::Smlal, b, b, c, a).is_some(),
        Access::new(AccessOp::Ldr, a, b, past).is_some(),
        Pair::new(false, a, b, c, true, 1018, PairIndex::Pre).is_some(),
        Pair::new(false, a, b, c, true, 1024, PairIndex::Pre).is_some(),
        Multi::new(true, false, true, r(13), list(0), false).is_some(),
        Multi::new(true, false, true, r(13), list(0x2000), false).is_some(),
        Multi::new(true, false, true, r(13), list(0x8000), false).is_some(),
        Multi::new(true, false, true, r(13), list(0x10001), true).is_some(),
        Literal::new(a, true, 4096).is_some(),
        Adr::new(a, false, 4096).is_some(),
        Branch::new(Cond::Al, 1).is_some(),
        ZeroBranch::new(true, a, 128).is_some(),
        ZeroBranch::new(true, a, -2).is_some(),
        Call::new(-1).is_some(),
        It::new(Cond::Eq, 0).is_some(),
        It::new(Cond::Eq, 16).is_some(),
        Nothing::new(NothingOp::Dmb, 16).is_some(),
        Nothing::new(NothingOp::Nop, 1).is_some(),
        Trap::new(256).is_some(),
    ];
    for (k, made) in made.iter().enumerate() {
        assert!(rt; !*made, "{k}");
    }
}

#[test]
fn compares_instructions(rt: HostRuntime) {
    let mov = Move::new(MoveOp::Mov, false, r(14), FIVE).map(Instr::Move);
    let mov = mov.expect(&rt, "mov lr, #5");
    let mvn = Move::new(MoveOp::Mvn, false, r(14), FIVE).map(Instr::Move);
    let jump = Jump::new(r(14)).map(Instr::Jump);
    assert!(rt; !same(&mov, &mvn.expect(&rt, "mvn lr, #5")));
    assert!(rt; !same(&mov, &jump.expect(&rt, "bx lr")));
}
