//! Where sp may stand in data processing, and which operands read C (ARMv7-M ARM, A7.7).

ghost use Rattle.std.specs.Prelude.{◌≡◌, ◌==◌, ◌&&◌, ◌||◌, not, nat_lt, true, false};
ghost use Rattle.thumb_instr.specs.Sets.{sums_with_carry, takes_carry_in};
ghost use Rattle.thumb_instr.specs.DataRows.{names, is_rrx, is_add_or_sub, moves_sp, has_odd_sp, is_copy, takes_sp};

use crate::registers::is_sp;
use mark_word::Shift;
use thumb_instr::{AluOp, MoveOp, Operand, Reg, TestOp};

/// Whether an operand is made of sp.
#[tactic(auto, unfolding(thumb_instr::specs::DataRows::names))]
pub fn names_sp(x: &Operand) -> bool
    ensures { result ≡ names 13 x.now }
{
    match x {
        Operand::Imm(_) => false,
        Operand::Reg { m, .. } => is_sp(*m),
    }
}

/// Whether an operand is turned by RRX, which reads C.
#[tactic(auto, unfolding(thumb_instr::specs::DataRows::is_rrx))]
pub fn is_rrx(x: &Operand) -> bool
    ensures { result ≡ is_rrx x.now }
{
    match x {
        Operand::Imm(_) => false,
        Operand::Reg { kind, .. } => match kind {
            Shift::Rrx => true,
            _ => false,
        },
    }
}

/// Whether an operand may be added to sp in place.
#[tactic(auto, unfolding(thumb_instr::specs::DataRows::moves_sp))]
fn moves_sp(x: &Operand) -> bool
    ensures { result ≡ moves_sp x.now }
{
    match x {
        Operand::Imm(_) => true,
        Operand::Reg { kind, amount, .. } => match kind {
            Shift::Lsl => *amount < 4,
            _ => false,
        },
    }
}

fn is_add_or_sub(op: AluOp) -> bool
    ensures { result ≡ is_add_or_sub op }
{
    match op {
        AluOp::Add | AluOp::Sub => true,
        _ => false,
    }
}

/// Whether an operation adds C: ADC and SBC.
pub fn sums_with_carry(op: AluOp) -> bool
    ensures { result ≡ sums_with_carry op }
{
    match op {
        AluOp::Adc | AluOp::Sbc => true,
        _ => false,
    }
}

/// Whether a comparison may have sp as its first operand: CMN and CMP.
pub fn takes_sp(op: TestOp) -> bool
    ensures { result ≡ takes_sp op }
{
    match op {
        TestOp::Cmn | TestOp::Cmp => true,
        _ => false,
    }
}

/// Whether sp stands where it may not.
#[tactic(auto, unfolding(thumb_instr::specs::DataRows::has_odd_sp))]
pub fn has_odd_sp(op: AluOp, d: Reg, n: Reg, x: &Operand) -> bool
    ensures { result ≡ has_odd_sp op d n x.now }
{
    if names_sp(x) {
        return true;
    }
    if is_add_or_sub(op) {
        is_sp(d) && !(is_sp(n) && moves_sp(x))
    } else {
        is_sp(d) || is_sp(n)
    }
}

/// Whether a register is moved as it is, and may be sp on one side.
#[tactic(auto, unfolding(thumb_instr::specs::DataRows::is_copy))]
pub fn is_copy(op: MoveOp, s: bool, x: &Operand) -> bool
    ensures { result ≡ is_copy op s x.now }
{
    match op {
        MoveOp::Mvn => false,
        MoveOp::Mov => {
            if s {
                return false;
            }
            match x {
                Operand::Imm(_) => false,
                Operand::Reg { kind, amount, .. } => match kind {
                    Shift::Lsl => *amount == 0,
                    _ => false,
                },
            }
        }
    }
}
