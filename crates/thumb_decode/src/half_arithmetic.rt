//! Arithmetic of one halfword.

ghost use Rattle.std.specs.Prelude.{◌≡◌, ◌+◌, ◌*◌, ◌/◌, ◌%◌, ◌^◌, ◌<◌, [], ◌∷◌};
ghost use Rattle.thumb_instr.specs.Patterns.{decoded, refused};
ghost use Rattle.thumb_instr.specs.HalfRows.{high_add, high_compare, high_move};
ghost use Rattle.thumb_instr.specs.Meanings.{alu, plain};
ghost use Rattle.thumb_instr.specs.declared.refusals.BadInstr.TheVariants.{ReadsAndSetsFlags};
ghost use Rattle.thumb_decode.specs.Groups.{half_group};

use crate::half_branches::exchange;
use crate::making::{
    alu, bits, constant_of, low_reg, moves, mul, outside, plain, reg_of, shift_by, sp, test,
    zero_as_32,
};
use mark_word::Shift;
use thumb_instr::{AluOp, BadInstr, Instr, ItPlace, MoveOp, Operand, Reg, TestOp};

fn shifted(m: Reg, kind: Shift, amount: u8) -> Operand
    ensures { result ≡ Operand.Reg m kind amount }
{
    Operand::Reg { m, kind, amount }
}

/// Moves of a shifted register, and sums of three operands.
#[tactic(auto, unfolding(crate::specs::Groups::half_group, thumb_instr::specs::HalfRows::half_rows))]
pub(crate) fn shifted_move(h: u16, place: ItPlace) -> Result<Instr, BadInstr>
    requires { h / 2 ^ 13 % 2 ^ 3 ≡ 0 }
    ensures { result ≡ decoded 16 (half_group 3 0 place) h }
{
    let s = outside(place);
    let i = bits(h, 6, 5) as u8;
    let m = low_reg(h, 3);
    let d = low_reg(h, 0);
    match bits(h, 11, 5) {
        0 => {
            if i == 0 && !s {
                Err(BadInstr::Unpredictable)
            } else {
                moves(MoveOp::Mov, s, d, shifted(m, Shift::Lsl, i))
            }
        }
        1 => moves(MoveOp::Mov, s, d, shifted(m, Shift::Lsr, zero_as_32(i))),
        2 => moves(MoveOp::Mov, s, d, shifted(m, Shift::Asr, zero_as_32(i))),
        _ => three(h, place),
    }
}

#[tactic(auto, unfolding(crate::specs::Groups::half_group, thumb_instr::specs::HalfRows::half_rows))]
fn three(h: u16, place: ItPlace) -> Result<Instr, BadInstr>
    requires { h / 2 ^ 11 % 2 ^ 5 ≡ 3 }
    ensures { result ≡ decoded 16 (half_group 3 0 place) h }
{
    let s = outside(place);
    let n = low_reg(h, 3);
    let d = low_reg(h, 0);
    match bits(h, 9, 2) {
        0 => alu(AluOp::Add, s, d, n, plain(low_reg(h, 6))),
        1 => alu(AluOp::Sub, s, d, n, plain(low_reg(h, 6))),
        2 => alu(AluOp::Add, s, d, n, Operand::Imm(bits(h, 6, 3))),
        _ => alu(AluOp::Sub, s, d, n, Operand::Imm(bits(h, 6, 3))),
    }
}

/// One register and a number of 8 bits.
#[tactic(auto, unfolding(crate::specs::Groups::half_group, thumb_instr::specs::HalfRows::half_rows))]
pub(crate) fn constants(h: u16, place: ItPlace) -> Result<Instr, BadInstr>
    requires { h / 2 ^ 13 % 2 ^ 3 ≡ 1 }
    ensures { result ≡ decoded 16 (half_group 3 1 place) h }
{
    let d = low_reg(h, 8);
    let s = outside(place);
    let x = Operand::Imm(bits(h, 0, 8));
    match bits(h, 11, 2) {
        0 => moves(MoveOp::Mov, s, d, x),
        1 => test(TestOp::Cmp, d, x),
        2 => alu(AluOp::Add, s, d, d, x),
        _ => alu(AluOp::Sub, s, d, d, x),
    }
}

/// Two low registers; else a register that may be high.
#[tactic(auto, unfolding(crate::specs::Groups::half_group, thumb_instr::specs::HalfRows::half_rows))]
pub(crate) fn by_code(h: u16, place: ItPlace) -> Result<Instr, BadInstr>
    requires { h / 2 ^ 11 % 2 ^ 5 ≡ 8 }
    ensures { result ≡ decoded 16 (half_group 5 8 place) h }
{
    if bits(h, 10, 1) != 0 {
        return high(h, place);
    }
    let s = outside(place);
    let m = low_reg(h, 3);
    let d = low_reg(h, 0);
    match bits(h, 6, 4) {
        0 => alu(AluOp::And, s, d, d, plain(m)),
        1 => alu(AluOp::Eor, s, d, d, plain(m)),
        2 => shift_by(Shift::Lsl, s, d, d, m),
        3 => shift_by(Shift::Lsr, s, d, d, m),
        4 => shift_by(Shift::Asr, s, d, d, m),
        5 => with_carry(AluOp::Adc, s, d, m),
        6 => with_carry(AluOp::Sbc, s, d, m),
        7 => shift_by(Shift::Ror, s, d, d, m),
        8 => test(TestOp::Tst, d, plain(m)),
        9 => alu(AluOp::Rsb, s, d, m, Operand::Imm(0)),
        10 => test(TestOp::Cmp, d, plain(m)),
        11 => test(TestOp::Cmn, d, plain(m)),
        12 => alu(AluOp::Orr, s, d, d, plain(m)),
        13 => mul(s, d, m, d),
        14 => alu(AluOp::Bic, s, d, d, plain(m)),
        15 => moves(MoveOp::Mvn, s, d, plain(m)),
        _ => unreachable!(),
    }
}

/// A sum that reads the carry may not set flags.
fn with_carry(op: AluOp, s: bool, d: Reg, m: Reg) -> Result<Instr, BadInstr>
    ensures { result ≡ refused ((s, ReadsAndSetsFlags) ∷ []) (alu op s d d (plain m)) }
{
    if s {
        Err(BadInstr::ReadsAndSetsFlags)
    } else {
        alu(op, s, d, d, plain(m))
    }
}

#[tactic(auto, unfolding(crate::specs::Groups::half_group, thumb_instr::specs::HalfRows::half_rows))]
fn high(h: u16, place: ItPlace) -> Result<Instr, BadInstr>
    requires { h / 2 ^ 10 % 2 ^ 6 ≡ 17 }
    ensures { result ≡ decoded 16 (half_group 5 8 place) h }
{
    let m = bits(h, 3, 4);
    let d = 8 * bits(h, 7, 1) + bits(h, 0, 3);
    match bits(h, 8, 2) {
        0 => high_add(d, m),
        1 => high_compare(d, m),
        2 => high_move(d, m),
        _ => {
            if bits(h, 0, 3) == 0 {
                exchange(bits(h, 7, 1), m, place)
            } else {
                Err(BadInstr::Unknown)
            }
        }
    }
}

fn high_add(d: u16, m: u16) -> Result<Instr, BadInstr>
    requires d { d < 16 }
    requires m { m < 16 }
    ensures { result ≡ high_add d m }
{
    match (reg_of(d), reg_of(m)) {
        (Some(to), Some(from)) => {
            if d == 13 && m == 13 {
                Err(BadInstr::Unpredictable)
            } else {
                alu(AluOp::Add, false, to, to, plain(from))
            }
        }
        _ => Err(BadInstr::PcOperand),
    }
}

fn high_move(d: u16, m: u16) -> Result<Instr, BadInstr>
    requires d { d < 16 }
    requires m { m < 16 }
    ensures { result ≡ high_move d m }
{
    match (reg_of(d), reg_of(m)) {
        (Some(to), Some(from)) => {
            if d == 13 && m == 13 {
                Err(BadInstr::Unpredictable)
            } else {
                moves(MoveOp::Mov, false, to, plain(from))
            }
        }
        _ => Err(BadInstr::PcOperand),
    }
}

fn high_compare(n: u16, m: u16) -> Result<Instr, BadInstr>
    requires n { n < 16 }
    requires m { m < 16 }
    ensures { result ≡ high_compare n m }
{
    match (reg_of(n), reg_of(m)) {
        (Some(left), Some(right)) => {
            if n < 8 && m < 8 {
                Err(BadInstr::Unpredictable)
            } else {
                test(TestOp::Cmp, left, plain(right))
            }
        }
        _ => Err(BadInstr::PcOperand),
    }
}

/// An address near pc, which is none here, or above sp.
#[tactic(auto, unfolding(crate::specs::Groups::half_group, thumb_instr::specs::HalfRows::half_rows))]
pub(crate) fn address(h: u16, place: ItPlace) -> Result<Instr, BadInstr>
    requires { h / 2 ^ 12 % 2 ^ 4 ≡ 10 }
    ensures { result ≡ decoded 16 (half_group 4 10 place) h }
{
    if bits(h, 11, 1) == 0 {
        Err(BadInstr::PcOperand)
    } else {
        let x = Operand::Imm(constant_of(4 * bits(h, 0, 8)));
        alu(AluOp::Add, false, low_reg(h, 8), sp(), x)
    }
}
