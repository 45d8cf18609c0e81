//! Class Pop.

ghost use Rattle.std.specs.Prelude.{◌≡◌};

use crate::laws::moved_lists_work;
use crate::lists::moved_list;
use seq_core::{Builder, Class, Need, Seq, need_of};
use thumb_instr::{Instr, Reg};

/// Builds the sequences of class Pop: of loads of a list from sp upwards, which moves behind it.
#[derive(Clone, Copy, Debug)]
pub struct Pop;

impl Builder for Pop {
    ghost use Rattle.seq_core.specs.declared.classes.Class.TheVariants as class;

    ghost builds = { λ _. class.Pop };

    fn class(&self) -> Class {
        Class::Pop
    }

    fn need(&self, i: &Instr) -> Need {
        need_of(Class::Pop, i)
    }

    fn build(&self, i: &Instr, scratch: &[Reg], copies: u8) -> Seq {
        moved_lists_work();
        moved_list(i, scratch[0], copies)
    }
}
