//! Class SpStep.

ghost use Rattle.std.specs.Prelude.{◌≡◌, length, true};
ghost use Rattle.seq_core.specs.Built.{as_steps};
ghost use Rattle.seq_core.specs.Classes.{steps_stack};
ghost use Rattle.seq_core.specs.Replaced.{stack_stepped};

use crate::laws::stack_steps_work;
use seq_core::{Builder, Class, Need, Seq, moved, need_of, sequence};
use thumb_instr::{Alu, Instr, Reg, Wide};

/// Builds the sequences of class SpStep: of sums and differences of sp that are put into sp.
#[derive(Clone, Copy, Debug)]
pub struct SpStep;

/// The sequence of a sum or difference that moves sp.
fn stack_stepped(i: &Instr, q: Reg, copies: u8) -> Seq
    requires { steps_stack i.now ≡ true }
    ensures { result ≡ record { steps = as_steps copies (stack_stepped i.now q); landing = length (stack_stepped i.now q) } }
{
    match i {
        Instr::Alu(x) => {
            let first = Instr::Alu(Alu { d: q, ..*x });
            sequence(&[first, moved(false, x.d, q)], copies)
        }
        Instr::Wide(x) => {
            let first = Instr::Wide(Wide { d: q, ..*x });
            sequence(&[first, moved(false, x.d, q)], copies)
        }
        _ => unreachable!(),
    }
}

impl Builder for SpStep {
    ghost use Rattle.seq_core.specs.declared.classes.Class.TheVariants as class;

    ghost builds = { λ _. class.SpStep };

    fn class(&self) -> Class {
        Class::SpStep
    }

    fn need(&self, i: &Instr) -> Need {
        need_of(Class::SpStep, i)
    }

    fn build(&self, i: &Instr, scratch: &[Reg], copies: u8) -> Seq {
        stack_steps_work();
        stack_stepped(i, scratch[0], copies)
    }
}
