//! Class WriteBack: accesses that move their base.

ghost use Rattle.std.specs.Prelude.{◌≡◌, true, length};
ghost use Rattle.seq_core.specs.Accepted.{moves_by_byte};
ghost use Rattle.seq_core.specs.Built.{as_steps};
ghost use Rattle.seq_core.specs.Straight.{written_back};

use seq_core::{
    Builder, Class, Need, Seq, decodes_are_apart, decodes_load_several, full_codes_are_rows,
    made_steps_are_coded, moved, moves_are_constants, need_of, plain_steps_do, post_accesses_work,
    post_pairs_work, pre_accesses_work, pre_pairs_work, sequence, summed,
};
use thumb_instr::{Access, Instr, Pair, PairIndex, Place, Reg, decodes_are_formed};

/// Builds the sequences of class WriteBack.
#[derive(Clone, Copy, Debug)]
pub struct WriteBack;

fn access_back(x: &Access, q: Reg, copies: u8) -> Seq
    requires { moves_by_byte (Instr.Access x.now) ≡ true }
    ensures { result ≡ record { steps = as_steps copies (written_back (Instr.Access x.now) q); landing = length (as_steps copies (written_back (Instr.Access x.now) q)) } }
{
    let at = Instr::Access(Access {
        place: Place::Offset { up: true, imm: 0 },
        ..*x
    });
    match x.place {
        Place::Pre { up, imm } => sequence(
            &[summed(up, q, x.n, imm), moved(false, x.n, q), at],
            copies,
        ),
        Place::Post { up, imm } => sequence(
            &[at, summed(up, q, x.n, imm), moved(false, x.n, q)],
            copies,
        ),
        Place::Offset { .. } | Place::Index { .. } => Seq::new(),
    }
}

fn pair_back(x: &Pair, q: Reg, copies: u8) -> Seq
    ensures { result ≡ record { steps = as_steps copies (written_back (Instr.Pair x.now) q); landing = length (as_steps copies (written_back (Instr.Pair x.now) q)) } }
{
    let at = Instr::Pair(Pair {
        up: true,
        imm: 0,
        index: PairIndex::Offset,
        ..*x
    });
    match x.index {
        PairIndex::Pre => sequence(
            &[summed(x.up, q, x.n, x.imm), moved(false, x.n, q), at],
            copies,
        ),
        PairIndex::Post => sequence(
            &[at, summed(x.up, q, x.n, x.imm), moved(false, x.n, q)],
            copies,
        ),
        PairIndex::Offset => Seq::new(),
    }
}

/// The base moves by way of a free register, before the access or behind it.
fn written_back(i: &Instr, q: Reg, copies: u8) -> Seq
    requires { moves_by_byte i.now ≡ true }
    ensures { result ≡ record { steps = as_steps copies (written_back i.now q); landing = length (as_steps copies (written_back i.now q)) } }
{
    match i {
        Instr::Access(x) => access_back(x, q, copies),
        Instr::Pair(x) => pair_back(x, q, copies),
        _ => Seq::new(),
    }
}

impl Builder for WriteBack {
    ghost use Rattle.seq_core.specs.declared.classes.Class.TheVariants as class;

    ghost builds = { λ _. class.WriteBack };

    fn class(&self) -> Class {
        Class::WriteBack
    }

    fn need(&self, i: &Instr) -> Need {
        need_of(Class::WriteBack, i)
    }

    fn build(&self, i: &Instr, scratch: &[Reg], copies: u8) -> Seq {
        pre_accesses_work();
        post_accesses_work();
        pre_pairs_work();
        post_pairs_work();
        moves_are_constants();
        decodes_load_several();
        made_steps_are_coded();
        decodes_are_formed();
        decodes_are_apart();
        full_codes_are_rows();
        plain_steps_do();
        written_back(i, scratch[0], copies)
    }
}
