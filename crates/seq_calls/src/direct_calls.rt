//! BL.

ghost use Rattle.std.specs.Prelude.{◌≡◌};
ghost use Rattle.seq_core.specs.Replaced.{called};
ghost use Rattle.seq_core.specs.declared.classes.Class.TheVariants as class;

use crate::steps::{branches, links, two};
use seq_core::{Builder, Class, Need, Seq, direct_calls_work, need_of, steps_do};
use thumb_instr::{Instr, Reg};

/// The return address, and a branch.
fn called(copies: u8) -> Seq
    ensures { result ≡ record { steps = called copies; landing = 2 } }
{
    two(links(copies), branches(copies))
}

/// Builds the sequences of BL (ARMv7-M ARM, A7.7.18): the address to return to goes to lr, and a branch follows.
pub struct DirectCall;

impl Builder for DirectCall {
    ghost builds = { λ b. class.DirectCall };

    fn class(&self) -> Class {
        Class::DirectCall
    }

    fn need(&self, i: &Instr) -> Need {
        need_of(Class::DirectCall, i)
    }

    fn build(&self, _i: &Instr, _scratch: &[Reg], copies: u8) -> Seq {
        direct_calls_work();
        steps_do();
        called(copies)
    }
}
