//! Class BaseCopy: loads of what has their base.

ghost use Rattle.std.specs.Prelude.{◌≡◌, false, true, length};
ghost use Rattle.seq_core.specs.Built.{as_steps};
ghost use Rattle.seq_core.specs.Classes.{loads_own_base};
ghost use Rattle.seq_core.specs.Replaced.{base_copied, copy_loading};
ghost use Rattle.thumb_table.specs.Effects.{registers};

use seq_core::{
    Builder, Class, Need, Seq, decodes_are_apart, decodes_copy_bases, decodes_load_several,
    full_codes_are_rows, made_steps_are_coded, moved, need_of, plain_steps_do, sequence,
    sole_register,
};
use thumb_instr::{
    Access, AccessOp, Instr, Multi, Pair, PairIndex, Place, Reg, decodes_are_formed,
};

/// Builds the sequences of class BaseCopy.
#[derive(Clone, Copy, Debug)]
pub struct BaseCopy;

/// The load of a list from another base: of one register it is LDR.
fn list_loading(x: &Multi, q: Reg) -> Instr
    requires { x.now.pc ≡ false }
    ensures { result ≡ copy_loading x.now.down q x.now.list (registers x.now.list.0) }
{
    match sole_register(x.list) {
        Some(t) => Instr::Access(Access {
            op: AccessOp::Ldr,
            t,
            n: q,
            place: Place::Offset { up: true, imm: 0 },
        }),
        None => Instr::Multi(Multi {
            load: true,
            down: x.down,
            back: false,
            n: q,
            list: x.list,
            pc: false,
        }),
    }
}

/// The load is from a copy of its base.
fn base_copied(i: &Instr, q: Reg, copies: u8) -> Seq
    requires { loads_own_base i.now ≡ true }
    ensures { result ≡ record { steps = as_steps copies (base_copied i.now q); landing = length (as_steps copies (base_copied i.now q)) } }
{
    match i {
        Instr::Pair(x) => {
            let load = Instr::Pair(Pair {
                load: true,
                n: q,
                index: PairIndex::Offset,
                ..*x
            });
            sequence(&[moved(false, q, x.n), load], copies)
        }
        Instr::Multi(x) => sequence(&[moved(false, q, x.n), list_loading(x, q)], copies),
        _ => Seq::new(),
    }
}

impl Builder for BaseCopy {
    ghost use Rattle.seq_core.specs.declared.classes.Class.TheVariants as class;

    ghost builds = { λ _. class.BaseCopy };

    fn class(&self) -> Class {
        Class::BaseCopy
    }

    fn need(&self, i: &Instr) -> Need {
        need_of(Class::BaseCopy, i)
    }

    fn build(&self, i: &Instr, scratch: &[Reg], copies: u8) -> Seq {
        decodes_copy_bases();
        decodes_load_several();
        made_steps_are_coded();
        decodes_are_formed();
        decodes_are_apart();
        full_codes_are_rows();
        plain_steps_do();
        base_copied(i, scratch[0], copies)
    }
}
