//! The effects of instructions.

ghost use Rattle.std.specs.Prelude.{◌≡◌, ◌<◌, ◌+◌, ◌↔◌, ◌^◌, IsTrue, OnOk, IfOk, IfErr, length, map};
ghost use Rattle.std.specs.List.Sorted.{IsStrictlyIncreasing};
ghost use Rattle.thumb_table.specs.Steps.{carried_out, OrdinaryIf};
ghost use Rattle.thumb_table.specs.CoreStates.{state_of, site_of, width_of};
ghost use Rattle.thumb_table.specs.Views.{Turns, Fails};

use crate::accesses::apply_access;
use crate::arithmetic::{apply_alu, apply_move, apply_shift_by, apply_test, apply_wide};
use crate::bit_fields::{apply_field, apply_unary};
use crate::branches::{
    apply_branch, apply_call, apply_call_reg, apply_it, apply_jump, apply_nothing,
    apply_zero_branch,
};
use crate::cores::{fall, takes_effect};
use crate::literals::{apply_adr, apply_half, apply_literal};
use crate::multiple::apply_multi;
use crate::pairs::apply_pair;
use crate::products::{apply_div, apply_long_mul, apply_mul, apply_mul_acc};
use crate::proper::is_ordinary;
use crate::{CodeBytes, Core, FaultKind, Memory};
use thumb_instr::Instr;

/// Carries out an instruction that takes effect.
fn carry_out(
    i: &Instr,
    code: &CodeBytes,
    next: u32,
    s: &mut Core,
    m: &mut Memory,
) -> Result<(), FaultKind>
    requires marks { IsStrictlyIncreasing (map (λ p. p.at) code.now.marks) }
    requires memory { m.old.base + length m.old.cells < 2 ^ 32 }
    ensures done { OnOk result (Turns code.now i.now next s.old m.old s.new m.new) }
    ensures fault { IfErr result (λ kind. Fails code.now i.now next s.old m.old kind × (s.new ≡ s.old) × (m.new ≡ m.old)) }
{
    match i {
        Instr::Alu(i) => apply_alu(i, next, s),
        Instr::Move(i) => apply_move(i, next, s),
        Instr::Test(i) => apply_test(i, next, s),
        Instr::ShiftBy(i) => apply_shift_by(i, next, s),
        Instr::Wide(i) => apply_wide(i, next, s),
        Instr::Half(i) => apply_half(i, code, next, s),
        Instr::Field(i) => apply_field(i, next, s),
        Instr::Unary(i) => apply_unary(i, next, s),
        Instr::Mul(i) => apply_mul(i, next, s),
        Instr::MulAcc(i) => apply_mul_acc(i, next, s),
        Instr::LongMul(i) => apply_long_mul(i, next, s),
        Instr::Div(i) => apply_div(i, next, s),
        Instr::Access(i) => apply_access(i, next, s, m),
        Instr::Pair(i) => apply_pair(i, next, s, m),
        Instr::Multi(i) => apply_multi(i, next, s, m),
        Instr::Literal(i) => apply_literal(i, code, next, s),
        Instr::Adr(i) => apply_adr(i, next, s),
        Instr::Branch(i) => {
            apply_branch(i, next, s);
            Ok(())
        }
        Instr::ZeroBranch(i) => {
            apply_zero_branch(i, next, s);
            Ok(())
        }
        Instr::Call(i) => {
            apply_call(i, next, s);
            Ok(())
        }
        Instr::Jump(i) => apply_jump(i, next, s),
        Instr::CallReg(i) => apply_call_reg(i, next, s),
        Instr::It(i) => {
            apply_it(i, next, s);
            Ok(())
        }
        Instr::Nothing(i) => {
            apply_nothing(i, next, s);
            Ok(())
        }
        Instr::Trap(_) => Err(FaultKind::Trap),
    }
}

/// Carries an instruction out and says whether the step was ordinary; a fault leaves all as it was
/// (ARMv7-M ARM, A7.7).
pub fn apply(
    i: &Instr,
    wide: bool,
    code: &CodeBytes,
    s: &mut Core,
    m: &mut Memory,
) -> Result<bool, FaultKind>
    requires marks { IsStrictlyIncreasing (map (λ p. p.at) code.now.marks) }
    requires stops { IsStrictlyIncreasing code.now.stops }
    requires ends { code.now.base + length code.now.bytes < 2 ^ 32 }
    requires room { s.old.pc + width_of wide < 2 ^ 32 }
    requires memory { m.old.base + length m.old.cells < 2 ^ 32 }
    ensures done { OnOk result (carried_out code.now i.now (width_of wide) (state_of s.old m.old) ≡ Ok (state_of s.new m.new)) }
    ensures ordinary { IfOk result (λ b. IsTrue b ↔ OrdinaryIf i.now (site_of code.now s.old (width_of wide)) (state_of s.old m.old).core) }
    ensures fault { IfErr result (λ kind. (carried_out code.now i.now (width_of wide) (state_of s.old m.old) ≡ Err kind) × (s.new ≡ s.old) × (m.new ≡ m.old)) }
{
    let next = s.pc + if wide { 4 } else { 2 };
    if !takes_effect(s) {
        fall(next, s);
        return Ok(true);
    }
    let ordinary = is_ordinary(i, code, s, m);
    match carry_out(i, code, next, s, m) {
        Ok(()) => Ok(ordinary),
        Err(kind) => Err(kind),
    }
}
