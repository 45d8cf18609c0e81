//! One move of the machine: an instruction that is executed or skipped.

ghost use Rattle.std.specs.Prelude.{◌≡◌, ◌↔◌, ◌+◌, ◌<◌, ◌^◌, IsTrue, OnOk, IfOk, IfErr, length, map};
ghost use Rattle.thumb_table.specs.Steps.{step_of, skip_of, move, fetch, IsOrdinary};
ghost use Rattle.thumb_table.specs.CoreStates.{state_of};
ghost use Rattle.skip_machine.specs.Fetches.{as_fetched};
ghost use Rattle.skip_machine.specs.Machines.{IsSound, PassesOver};
ghost use Rattle.thumb_table.specs.Schedules.{OrdinaryStep};

use crate::fetches::{Fetched, fetch};
use thumb_decode::decode;
use thumb_instr::{it_after, place_in_block};
use thumb_table::{CodeBytes, Core, FaultKind, Memory, apply};

/// Moves past an instruction.
fn skip(f: &Fetched, s: &mut Core)
    requires { s.old.pc + (as_fetched f.now).width < 2 ^ 32 }
    ensures { PassesOver (as_fetched f.now) s.old s.new }
{
    s.pc += if f.wide { 4 } else { 2 };
    s.it = it_after(s.it);
}

/// Executes an instruction, and says whether the step was ordinary.
fn execute(f: &Fetched, code: &CodeBytes, s: &mut Core, m: &mut Memory) -> Result<bool, FaultKind>
    requires sound { IsSound code.now m.old }
    requires room { s.old.pc + (as_fetched f.now).width < 2 ^ 32 }
    ensures done { OnOk result (step_of code.now (Some (as_fetched f.now)) (state_of s.old m.old) ≡ Ok (state_of s.new m.new)) }
    ensures ordinary { IfOk result (λ b. IsTrue b ↔ IsOrdinary code.now (Some (as_fetched f.now)) (state_of s.old m.old)) }
    ensures fault { IfErr result (λ kind. (step_of code.now (Some (as_fetched f.now)) (state_of s.old m.old) ≡ Err kind) × (s.new ≡ s.old) × (m.new ≡ m.old)) }
{
    match decode(f.first, Some(f.second), place_in_block(s.it)) {
        Ok(i) => apply(&i, f.wide, code, s, m),
        Err(why) => Err(FaultKind::BadCode(why)),
    }
}

/// One step, executed or skipped, and whether it was ordinary; a fault leaves all as it was.
pub(crate) fn make_move(
    skipped: bool,
    code: &CodeBytes,
    s: &mut Core,
    m: &mut Memory,
) -> Result<bool, FaultKind>
    requires { IsSound code.now m.old }
    ensures done { OnOk result (move code.now skipped (state_of s.old m.old) ≡ Ok (state_of s.new m.new)) }
    ensures ordinary { IfOk result (λ b. IsTrue b ↔ OrdinaryStep code.now skipped (state_of s.old m.old)) }
    ensures fault { IfErr result (λ kind. (move code.now skipped (state_of s.old m.old) ≡ Err kind) × (s.new ≡ s.old) × (m.new ≡ m.old)) }
{
    match fetch(code, s.pc) {
        None => Err(FaultKind::BadFetch),
        Some(f) => {
            if skipped {
                skip(&f, s);
                Ok(true)
            } else {
                execute(&f, code, s, m)
            }
        }
    }
}
