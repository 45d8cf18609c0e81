//! Guards of sequences.

ghost use Rattle.std.specs.Prelude.{◌≡◌, ◌<◌, ◌+◌, ◌∷◌, length};
ghost use Rattle.seq_core.specs.Builders.{AreCoded};
ghost use Rattle.seq_core.specs.Groups.{branching};
ghost use Rattle.seq_core.specs.Replaced.{leading};
ghost use Rattle.it_expand.specs.Expanded.{GuardDoes};

use seq_core::{Goal, Seq, Step, guards_work, steps_do};
use thumb_instr::{Branch, Cond, Instr};

/// A branch to the end on a condition.
fn guard(c: Cond, copies: u8) -> Step
    ensures { result ≡ leading copies Goal.End (branching c) }
{
    Step {
        instr: Instr::Branch(Branch { cond: c, offset: 0 }),
        goal: Goal::End,
        copies,
    }
}

/// A branch to the end before the steps of a sequence.
fn behind_guard(s: &Seq, c: Cond, copies: u8) -> Seq
    requires { length s.now.steps < 8 }
    ensures { result ≡ record { steps = leading copies Goal.End (branching c) ∷ s.now.steps; landing = s.now.landing + 1 } }
{
    let steps = s.steps();
    let landing = s.landing() as usize;
    let mut r = Seq::new();
    r.push(guard(c, copies));
    r.push_all(&steps[..landing]);
    r.land_all(&steps[landing..]);
    r
}

/// A sequence under a guard: a branch to its end on a condition, `copies` times, stands before its steps, of
/// which there are seven at most. With the inverse of a condition that may fail it does under that condition
/// what it did: where the condition fails, control goes to the end and nothing has changed.
pub fn guarded(s: &Seq, c: Cond, copies: u8) -> Seq
    requires { length s.now.steps < 8 }
    ensures steps { result ≡ record { steps = leading copies Goal.End (branching c) ∷ s.now.steps; landing = s.now.landing + 1 } }
    ensures works { GuardDoes c copies s.now result }
    ensures coded { AreCoded s.now.steps → AreCoded result.steps }
{
    guards_work();
    steps_do();
    behind_guard(s, c, copies)
}
