//! Class Push.

ghost use Rattle.std.specs.Prelude.{◌≡◌};

use crate::laws::moved_lists_work;
use crate::lists::moved_list;
use seq_core::{Builder, Class, Need, Seq, need_of};
use thumb_instr::{Instr, Reg};

/// Builds the sequences of class Push: of stores of a list below sp, which moves there.
#[derive(Clone, Copy, Debug)]
pub struct Push;

impl Builder for Push {
    ghost use Rattle.seq_core.specs.declared.classes.Class.TheVariants as class;

    ghost builds = { λ _. class.Push };

    fn class(&self) -> Class {
        Class::Push
    }

    fn need(&self, i: &Instr) -> Need {
        need_of(Class::Push, i)
    }

    fn build(&self, i: &Instr, scratch: &[Reg], copies: u8) -> Seq {
        moved_lists_work();
        moved_list(i, scratch[0], copies)
    }
}
