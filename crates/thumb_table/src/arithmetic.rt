//! Arithmetic, logic, moves and tests.

ghost use Rattle.std.specs.Prelude.{◌≡◌, OnOk, IfErr};
ghost use Rattle.thumb_instr.specs.declared.instructions.Instr.TheVariants as instr;
ghost use Rattle.thumb_table.specs.Effects.{wide_value};
ghost use Rattle.thumb_table.specs.Views.{ChangesTo, Halts};

use crate::addresses::moved;
use crate::cores::fall;
use crate::flags::{set_flags, write_flagged, write_word};
use crate::operands::{moved_word, operand_value, shift_given};
use crate::values::{Computed, alu_result, tested};
use crate::{Core, FaultKind};
use mark_word::Word;
use thumb_instr::{Alu, Move, ShiftBy, Test, Wide, WideOp};

/// AND, BIC, ORR, ORN, EOR, ADD, ADC, SBC, SUB and RSB.
pub(crate) fn apply_alu(i: &Alu, next: u32, s: &mut Core) -> Result<(), FaultKind>
    ensures done { OnOk result (ChangesTo (instr.Alu i.now) next s.old s.new) }
    ensures fault { IfErr result (λ kind. Halts (instr.Alu i.now) next s.old kind × (s.new ≡ s.old)) }
{
    let x = operand_value(i.x, s);
    let r = alu_result(i.op, s.word(i.n).bits(), x, s.c);
    write_flagged(i.s, &r, i.d, Word::plain(r.value()), next, s)
}

/// MOV and MVN.
pub(crate) fn apply_move(i: &Move, next: u32, s: &mut Core) -> Result<(), FaultKind>
    ensures done { OnOk result (ChangesTo (instr.Move i.now) next s.old s.new) }
    ensures fault { IfErr result (λ kind. Halts (instr.Move i.now) next s.old kind × (s.new ≡ s.old)) }
{
    let x = operand_value(i.x, s);
    let word = moved_word(i.op, i.x, s);
    let r = Computed::logical(word.bits(), x.carry());
    write_flagged(i.s, &r, i.d, word, next, s)
}

/// TST, TEQ, CMN and CMP.
pub(crate) fn apply_test(i: &Test, next: u32, s: &mut Core) -> Result<(), FaultKind>
    ensures done { OnOk result (ChangesTo (instr.Test i.now) next s.old s.new) }
    ensures fault { IfErr result (λ kind. Halts (instr.Test i.now) next s.old kind × (s.new ≡ s.old)) }
{
    let x = operand_value(i.x, s);
    let r = alu_result(tested(i.op), s.word(i.n).bits(), x, s.c);
    set_flags(true, &r, s);
    fall(next, s);
    Ok(())
}

/// LSL, LSR, ASR and ROR by a register.
pub(crate) fn apply_shift_by(i: &ShiftBy, next: u32, s: &mut Core) -> Result<(), FaultKind>
    ensures done { OnOk result (ChangesTo (instr.ShiftBy i.now) next s.old s.new) }
    ensures fault { IfErr result (λ kind. Halts (instr.ShiftBy i.now) next s.old kind × (s.new ≡ s.old)) }
{
    let amount = (s.word(i.m).bits() % 256) as u8;
    let shifted = shift_given(s.word(i.n).bits(), i.kind, amount, false);
    let r = Computed::logical(shifted.value(), shifted.carry());
    write_flagged(i.s, &r, i.d, Word::plain(r.value()), next, s)
}

/// A register's value and a constant, added or taken away.
fn wide_value(op: WideOp, n: u32, imm: u16) -> u32
    ensures { result ≡ wide_value op n imm }
{
    match op {
        WideOp::Add => moved(true, u64::from(n), u32::from(imm)),
        WideOp::Sub => moved(false, u64::from(n), u32::from(imm)),
    }
}

/// ADDW and SUBW.
pub(crate) fn apply_wide(i: &Wide, next: u32, s: &mut Core) -> Result<(), FaultKind>
    ensures done { OnOk result (ChangesTo (instr.Wide i.now) next s.old s.new) }
    ensures fault { IfErr result (λ kind. Halts (instr.Wide i.now) next s.old kind × (s.new ≡ s.old)) }
{
    let n = s.word(i.n).bits();
    let sum = wide_value(i.op, n, i.imm);
    write_word(i.d, Word::plain(sum), next, s)
}
