//! Branches, calls, jumps, IT, and what does nothing.

ghost use Rattle.std.specs.Prelude.{◌≡◌, ◌/◌, ◌*◌, ◌+◌, ◌==◌, not, if◌then◌else◌, OnOk, IfErr};
ghost use Rattle.mark_word.specs.declared.marks.Mark.TheVariants as mark;
ghost use Rattle.thumb_instr.specs.declared.instructions.Instr.TheVariants as instr;
ghost use Rattle.thumb_table.specs.Effects.{branch_if, value};
ghost use Rattle.thumb_table.specs.Steps.{goes_on};
ghost use Rattle.thumb_table.specs.Values.{away};
ghost use Rattle.thumb_table.specs.CoreStates.{alone};
ghost use Rattle.thumb_table.specs.Views.{MovesOn, Faults};

use crate::addresses::away;
use crate::cores::{fall, holds};
use crate::{Core, FaultKind};
use mark_word::Word;
use thumb_instr::{Branch, Call, CallReg, It, Jump, Nothing, ZeroBranch, it_state};

/// Where control goes on.
fn chosen(taken: bool, target: u32, next: u32) -> u32
    ensures { result ≡ goes_on next (branch_if taken target).exit }
{
    if taken { target } else { next }
}

fn branch_target(i: &Branch, pc: u32) -> u32
    ensures { result ≡ away (pc + 4) i.now.offset }
{
    away(u64::from(pc) + 4, i.offset)
}

/// B, with a condition.
pub(crate) fn apply_branch(i: &Branch, next: u32, s: &mut Core)
    ensures { MovesOn (instr.Branch i.now) next s.old s.new }
{
    let target = branch_target(i, s.pc);
    let taken = holds(i.cond, s);
    fall(chosen(taken, target, next), s);
}

fn zero_branch_target(i: &ZeroBranch, pc: u32) -> u32
    ensures { result ≡ away (pc + 4) i.now.offset }
{
    away(u64::from(pc) + 4, i.offset)
}

fn is_taken(i: &ZeroBranch, s: &Core) -> bool
    ensures { result ≡ (if i.now.nonzero then not (value (alone s.now) i.now.n == 0) else value (alone s.now) i.now.n == 0) }
{
    if i.nonzero {
        s.word(i.n).bits() != 0
    } else {
        s.word(i.n).bits() == 0
    }
}

/// CBZ and CBNZ.
pub(crate) fn apply_zero_branch(i: &ZeroBranch, next: u32, s: &mut Core)
    ensures { MovesOn (instr.ZeroBranch i.now) next s.old s.new }
{
    let target = zero_branch_target(i, s.pc);
    let taken = is_taken(i, s);
    fall(chosen(taken, target, next), s);
}

/// The word that a call leaves in lr.
fn return_word(next: u32) -> Word
    ensures { result ≡ record { bits = next / 2 * 2 + 1; mark = mark.Return (next / 2 * 2 + 1) } }
{
    Word::returning(next / 2 * 2 + 1)
}

fn call_target(i: &Call, pc: u32) -> u32
    ensures { result ≡ away (pc + 4) i.now.offset }
{
    away(u64::from(pc) + 4, i.offset)
}

/// BL.
pub(crate) fn apply_call(i: &Call, next: u32, s: &mut Core)
    ensures { MovesOn (instr.Call i.now) next s.old s.new }
{
    let target = call_target(i, s.pc);
    s.r[14] = return_word(next);
    fall(target, s);
}

/// BX.
pub(crate) fn apply_jump(i: &Jump, next: u32, s: &mut Core) -> Result<(), FaultKind>
    ensures done { OnOk result (MovesOn (instr.Jump i.now) next s.old s.new) }
    ensures fault { IfErr result (λ kind. Faults (instr.Jump i.now) next s.old kind × (s.new ≡ s.old)) }
{
    let _ = next;
    let bits = s.word(i.m).bits();
    if bits % 2 != 1 {
        return Err(FaultKind::BadJump);
    }
    fall(bits - 1, s);
    Ok(())
}

/// BLX.
pub(crate) fn apply_call_reg(i: &CallReg, next: u32, s: &mut Core) -> Result<(), FaultKind>
    ensures done { OnOk result (MovesOn (instr.CallReg i.now) next s.old s.new) }
    ensures fault { IfErr result (λ kind. Faults (instr.CallReg i.now) next s.old kind × (s.new ≡ s.old)) }
{
    let bits = s.word(i.m).bits();
    if bits % 2 != 1 {
        return Err(FaultKind::BadJump);
    }
    s.r[14] = return_word(next);
    fall(bits - 1, s);
    Ok(())
}

/// IT.
pub(crate) fn apply_it(i: &It, next: u32, s: &mut Core)
    ensures { MovesOn (instr.It i.now) next s.old s.new }
{
    s.pc = next;
    s.it = it_state(i.first, i.mask);
}

/// NOP and the barriers.
pub(crate) fn apply_nothing(i: &Nothing, next: u32, s: &mut Core)
    ensures { MovesOn (instr.Nothing i.now) next s.old s.new }
{
    let _ = i;
    fall(next, s);
}
