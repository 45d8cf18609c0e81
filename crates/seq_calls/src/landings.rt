//! Landings of calls that do not return.

ghost use Rattle.std.specs.Prelude.{◌≡◌, ◌<◌, ◌+◌, ◌++◌, ◌∷◌, [], length, take, ℕ, Bool};
ghost use Rattle.thumb_instr.specs.declared.instructions.Instr.{Instr as Instruction};
ghost use Rattle.thumb_table.specs.States.{Core};
ghost use Rattle.seq_core.specs.Builders.{AreCoded, Do};

use seq_core::{Goal, Seq, Step};
use thumb_instr::{Instr, Trap};

/// Adds UDF of 0 behind a call of at most seven steps, `copies` times: what the call would come back to. The
/// steps before the landing do what they did, with the landing as their end and as where the call comes back to.
pub fn with_landing(s: &Seq, copies: u8) -> Seq
    requires room { length s.now.steps < 8 }
    requires open { s.now.landing ≡ length s.now.steps }
    ensures steps { result ≡ record { steps = s.now.steps ++ record { instr = Instr.Trap (record { imm = 0 }); goal = Goal.Nowhere; copies = copies } ∷ []; landing = length s.now.steps } }
    ensures works { (test : Core → Bool) (i : Instruction) (lost : ℕ → Bool) → Do test i lost copies s.now.steps → Do test i lost copies (take result.landing result.steps) }
    ensures coded { AreCoded s.now.steps → AreCoded result.steps }
{
    let mut r = Seq::new();
    r.push_all(s.steps());
    r.land(Step {
        instr: Instr::Trap(Trap { imm: 0 }),
        goal: Goal::Nowhere,
        copies,
    });
    r
}
