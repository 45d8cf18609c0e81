//! Class PopReturn.

ghost use Rattle.std.specs.Prelude.{◌≡◌, false, length, true};
ghost use Rattle.thumb_instr.specs.Operands.{is_list};
ghost use Rattle.seq_core.specs.Built.{as_steps};
ghost use Rattle.seq_core.specs.Builders.{HasRow};
ghost use Rattle.seq_core.specs.Classes.{has_pc};
ghost use Rattle.seq_core.specs.Replaced.{popped, with_link};

use crate::laws::returns_work;
use crate::lists::transfer;
use bitflags::Flags;
use seq_core::{
    Builder, Class, Need, Seq, count_registers, decodes_use_stack, moved, need_of, sequence, summed,
};
use thumb_instr::{Instr, Jump, Multi, Reg, RegSet};

/// Builds the sequences of class PopReturn: of loads of a list with pc, which pop it and return.
#[derive(Clone, Copy, Debug)]
pub struct PopReturn;

/// sp.
fn stack() -> Reg
    ensures { result ≡ 13 }
{
    Reg::new(13).unwrap()
}

/// lr.
fn link() -> Reg
    ensures { result ≡ 14 }
{
    Reg::new(14).unwrap()
}

/// The list of a return, with lr in place of pc.
fn with_link(i: &Multi) -> RegSet
    requires row { HasRow (Instr.Multi i.now) }
    requires pc { i.now.pc ≡ true }
    ensures set { result ≡ with_link i.now.list }
    ensures list { is_list result.0 false ≡ true }
{
    decodes_use_stack();
    RegSet::from_bits_retain(i.list.bits() + RegSet::LR.bits())
}

/// The sequence of a return by a list. sp is set before the jump.
fn popped(i: &Instr, q: Reg, copies: u8) -> Seq
    requires row { HasRow i.now }
    requires pc { has_pc i.now ≡ true }
    ensures { result ≡ record { steps = as_steps copies (popped i.now q); landing = length (popped i.now q) } }
{
    match i {
        Instr::Multi(i) => {
            let list = transfer(true, stack(), with_link(i));
            let step = summed(true, q, stack(), 4 * (count_registers(i.list) + 1));
            let back = moved(false, stack(), q);
            let jump = Instr::Jump(Jump { m: link() });
            sequence(&[list, step, back, jump], copies)
        }
        _ => unreachable!(),
    }
}

impl Builder for PopReturn {
    ghost use Rattle.seq_core.specs.declared.classes.Class.TheVariants as class;

    ghost builds = { λ _. class.PopReturn };

    fn class(&self) -> Class {
        Class::PopReturn
    }

    fn need(&self, i: &Instr) -> Need {
        need_of(Class::PopReturn, i)
    }

    fn build(&self, i: &Instr, scratch: &[Reg], copies: u8) -> Seq {
        returns_work();
        popped(i, scratch[0], copies)
    }
}
