//! Class MultiBack.

ghost use Rattle.std.specs.Prelude.{◌≡◌};

use crate::laws::moved_lists_work;
use crate::lists::moved_list;
use seq_core::{Builder, Class, Need, Seq, need_of};
use thumb_instr::{Instr, Reg};

/// Builds the sequences of class MultiBack: of other loads and stores of a list that move their base.
#[derive(Clone, Copy, Debug)]
pub struct MultiBack;

impl Builder for MultiBack {
    ghost use Rattle.seq_core.specs.declared.classes.Class.TheVariants as class;

    ghost builds = { λ _. class.MultiBack };

    fn class(&self) -> Class {
        Class::MultiBack
    }

    fn need(&self, i: &Instr) -> Need {
        need_of(Class::MultiBack, i)
    }

    fn build(&self, i: &Instr, scratch: &[Reg], copies: u8) -> Seq {
        moved_lists_work();
        moved_list(i, scratch[0], copies)
    }
}
