//! Class Twice.

ghost use Rattle.std.specs.Prelude.{◌≡◌};
ghost use Rattle.seq_core.specs.Straight.{own_goal, twice_steps};

use seq_core::{
    Builder, Class, Goal, Need, Seq, Step, classes_tell_meanings, decodes_are_apart,
    halves_in_place, idempotent_decodes_in_place, more_may_be_lost, need_of, steps_do,
};
use thumb_instr::{Instr, Reg, decodes_are_formed};

/// Builds the sequences of class Twice.
#[derive(Clone, Copy, Debug)]
pub struct Twice;

/// What the number of an instruction leads to.
fn own_goal(i: &Instr) -> Goal
    ensures { result ≡ own_goal i.now }
{
    match i {
        Instr::Branch(_) => Goal::Target,
        Instr::Literal(_) => Goal::Word,
        _ => Goal::Nowhere,
    }
}

/// The instruction itself.
fn in_place(i: &Instr, copies: u8) -> Seq
    ensures { result ≡ record { steps = twice_steps copies i.now; landing = 1 } }
{
    let mut s = Seq::new();
    s.push(Step {
        instr: *i,
        goal: own_goal(i),
        copies,
    });
    s
}

impl Builder for Twice {
    ghost use Rattle.seq_core.specs.declared.classes.Class.TheVariants as class;

    ghost builds = { λ _. class.Twice };

    fn class(&self) -> Class {
        Class::Twice
    }

    fn need(&self, i: &Instr) -> Need {
        need_of(Class::Twice, i)
    }

    fn build(&self, i: &Instr, scratch: &[Reg], copies: u8) -> Seq {
        let _ = scratch;
        idempotent_decodes_in_place();
        halves_in_place();
        decodes_are_formed();
        decodes_are_apart();
        classes_tell_meanings();
        more_may_be_lost();
        steps_do();
        in_place(i, copies)
    }
}
