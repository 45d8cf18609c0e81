//! CBZ and CBNZ.

ghost use Rattle.std.specs.Prelude.{◌≡◌, length};
ghost use Rattle.seq_core.specs.Replaced.{zero_branched};
ghost use Rattle.seq_core.specs.declared.classes.Class.TheVariants as class;

use crate::steps::{branches, two};
use seq_core::{
    Builder, Class, Goal, Need, Seq, Step, decodes_are_apart, need_of, steps_do, zero_branches_work,
};
use thumb_instr::{Instr, Reg};

/// The inverse branch to the end, and a branch to the target.
fn zero_branched(i: &Instr, copies: u8) -> Seq
    ensures { result ≡ record { steps = zero_branched copies i.now; landing = length (zero_branched copies i.now) } }
{
    match i {
        Instr::ZeroBranch(x) => {
            let inverse = thumb_instr::ZeroBranch {
                nonzero: !x.nonzero,
                n: x.n,
                offset: 0,
            };
            let passes = Step {
                instr: Instr::ZeroBranch(inverse),
                goal: Goal::End,
                copies,
            };
            two(passes, branches(copies))
        }
        _ => Seq::new(),
    }
}

/// Builds the sequences of CBZ and CBNZ (ARMv7-M ARM, A7.7.21): the inverse one passes by a branch to the target,
/// so that the target may be anywhere.
pub struct ZeroBranch;

impl Builder for ZeroBranch {
    ghost builds = { λ b. class.ZeroBranch };

    fn class(&self) -> Class {
        Class::ZeroBranch
    }

    fn need(&self, i: &Instr) -> Need {
        need_of(Class::ZeroBranch, i)
    }

    fn build(&self, i: &Instr, _scratch: &[Reg], copies: u8) -> Seq {
        zero_branches_work();
        steps_do();
        decodes_are_apart();
        zero_branched(i, copies)
    }
}
