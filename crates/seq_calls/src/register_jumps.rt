//! BX.

ghost use Rattle.std.specs.Prelude.{◌≡◌, ◌∷◌, []};
ghost use Rattle.seq_core.specs.Replaced.{leading};
ghost use Rattle.seq_core.specs.declared.classes.Class.TheVariants as class;

use seq_core::{Builder, Class, Goal, Need, Seq, Step, need_of, register_jumps_work, steps_do};
use thumb_instr::{Instr, Reg};

/// The instruction alone.
fn itself(i: &Instr, copies: u8) -> Seq
    ensures { result ≡ record { steps = leading copies Goal.Nowhere i.now ∷ []; landing = 1 } }
{
    let mut s = Seq::new();
    s.push(Step {
        instr: *i,
        goal: Goal::Nowhere,
        copies,
    });
    s
}

/// Builds the sequences of BX (ARMv7-M ARM, A7.7.20), which stays itself.
pub struct RegisterJump;

impl Builder for RegisterJump {
    ghost builds = { λ b. class.RegisterJump };

    fn class(&self) -> Class {
        Class::RegisterJump
    }

    fn need(&self, i: &Instr) -> Need {
        need_of(Class::RegisterJump, i)
    }

    fn build(&self, i: &Instr, _scratch: &[Reg], copies: u8) -> Seq {
        register_jumps_work();
        steps_do();
        itself(i, copies)
    }
}
