//! BLX of a register.

ghost use Rattle.std.specs.Prelude.{◌≡◌, length};
ghost use Rattle.seq_core.specs.Replaced.{register_called};
ghost use Rattle.seq_core.specs.declared.classes.Class.TheVariants as class;

use crate::steps::{copies_link, jumps, links, two};
use seq_core::{
    Builder, Class, Need, Seq, link_calls_work, need_of, register_calls_work, steps_do,
};
use thumb_instr::{Instr, Reg, decodes_are_formed};

/// The steps that call by a register, by way of a copy where a scratch register is given.
fn register_called(i: &Instr, scratch: &[Reg], copies: u8) -> Seq
    ensures { result ≡ record { steps = register_called copies i.now scratch.now; landing = length (register_called copies i.now scratch.now) } }
{
    match i {
        Instr::CallReg(x) => match scratch.first() {
            None => two(links(copies), jumps(x.m, copies)),
            Some(q) => {
                let mut s = two(copies_link(*q, copies), links(copies));
                s.push(jumps(*q, copies));
                s
            }
        },
        _ => Seq::new(),
    }
}

/// Builds the sequences of BLX (ARMv7-M ARM, A7.7.19): the address to return to goes to lr, and a jump by the
/// register follows; BLX of lr jumps by a copy of it.
pub struct RegisterCall;

impl Builder for RegisterCall {
    ghost builds = { λ b. class.RegisterCall };

    fn class(&self) -> Class {
        Class::RegisterCall
    }

    fn need(&self, i: &Instr) -> Need {
        need_of(Class::RegisterCall, i)
    }

    fn build(&self, i: &Instr, scratch: &[Reg], copies: u8) -> Seq {
        register_calls_work();
        link_calls_work();
        steps_do();
        decodes_are_formed();
        register_called(i, scratch, copies)
    }
}
