//! Class ThroughFlags: MULS.

ghost use Rattle.std.specs.Prelude.{◌≡◌, length};
ghost use Rattle.seq_core.specs.Built.{as_steps};
ghost use Rattle.seq_core.specs.Straight.{flagged};

use seq_core::{
    Builder, Class, Need, Seq, decodes_are_apart, flagged_products_work, full_codes_are_rows,
    moved, need_of, plain_steps_do, sequence,
};
use thumb_instr::{Instr, Mul, Reg, decodes_are_formed};

/// Builds the sequences of class ThroughFlags.
#[derive(Clone, Copy, Debug)]
pub struct ThroughFlags;

/// A product without flags into a free register, and a move that sets them.
fn flagged(i: &Instr, q: Reg, copies: u8) -> Seq
    ensures { result ≡ record { steps = as_steps copies (flagged i.now q); landing = length (as_steps copies (flagged i.now q)) } }
{
    match i {
        Instr::Mul(x) => {
            let product = Mul {
                s: false,
                d: q,
                ..*x
            };
            sequence(&[Instr::Mul(product), moved(true, x.d, q)], copies)
        }
        _ => Seq::new(),
    }
}

impl Builder for ThroughFlags {
    ghost use Rattle.seq_core.specs.declared.classes.Class.TheVariants as class;

    ghost builds = { λ _. class.ThroughFlags };

    fn class(&self) -> Class {
        Class::ThroughFlags
    }

    fn need(&self, i: &Instr) -> Need {
        need_of(Class::ThroughFlags, i)
    }

    fn build(&self, i: &Instr, scratch: &[Reg], copies: u8) -> Seq {
        flagged_products_work();
        decodes_are_formed();
        decodes_are_apart();
        full_codes_are_rows();
        plain_steps_do();
        flagged(i, scratch[0], copies)
    }
}
