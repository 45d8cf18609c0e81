//! Class Through: what reads a register that it writes.

ghost use Rattle.std.specs.Prelude.{◌≡◌, ◌≢◌, ◌∷◌, [], false, length};
ghost use Rattle.seq_core.specs.Groups.{IsFree, moving};
ghost use Rattle.seq_core.specs.Built.{as_steps, through_one, through_two};

use mark_word::Shift;
use seq_core::{
    Builder, Class, Need, Seq, decodes_are_apart, decodes_keep_flags, decodes_reach,
    full_codes_are_rows, made_steps_are_coded, moved, need_of, needs_are_small, plain_steps_do,
    scratch_registers_suffice, sequence,
};
use thumb_instr::{
    Access, AccessOp, Adr, Alu, AluOp, Div, Field, FieldOp, Half, Instr, Literal, LongMul, Move,
    Mul, MulAcc, Operand, Reg, ShiftBy, Unary, Wide, decodes_are_formed, reads,
};

/// Builds the sequences of class Through.
#[derive(Clone, Copy, Debug)]
pub struct Through;

/// An instruction into a free register, and a move from there.
fn and_back(first: Instr, d: Reg, q: Reg, copies: u8) -> Seq
    ensures { result ≡ record { steps = as_steps copies (first ∷ moving false d q ∷ []); landing = 2 } }
{
    sequence(&[first, moved(false, d, q)], copies)
}

fn alu_through(x: &Alu, q: Reg, copies: u8) -> Seq
    ensures { result ≡ record { steps = as_steps copies (through_one (Instr.Alu x.now) q); landing = length (as_steps copies (through_one (Instr.Alu x.now) q)) } }
{
    match x.x {
        Operand::Reg { m, .. } if m.number() == 13 => {
            let sum = Alu {
                op: AluOp::Add,
                s: false,
                d: q,
                n: m,
                x: Operand::Reg {
                    m: x.d,
                    kind: Shift::Lsl,
                    amount: 0,
                },
            };
            and_back(Instr::Alu(sum), x.d, q, copies)
        }
        _ => and_back(Instr::Alu(Alu { d: q, ..*x }), x.d, q, copies),
    }
}

fn field_through(x: &Field, q: Reg, copies: u8) -> Seq
    ensures { result ≡ record { steps = as_steps copies (through_one (Instr.Field x.now) q); landing = length (as_steps copies (through_one (Instr.Field x.now) q)) } }
{
    match x.op {
        FieldOp::Bfi | FieldOp::Bfc => {
            let insert = Field {
                op: FieldOp::Bfi,
                d: x.d,
                n: Some(q),
                lsb: x.lsb,
                width: x.width,
            };
            sequence(&[moved(false, q, x.d), Instr::Field(insert)], copies)
        }
        _ => and_back(Instr::Field(Field { d: q, ..*x }), x.d, q, copies),
    }
}

fn access_through(x: &Access, q: Reg, copies: u8) -> Seq
    ensures { result ≡ record { steps = as_steps copies (through_one (Instr.Access x.now) q); landing = length (as_steps copies (through_one (Instr.Access x.now) q)) } }
{
    let first = Instr::Access(Access { t: q, ..*x });
    match x.op {
        AccessOp::Str | AccessOp::Strb | AccessOp::Strh => sequence(&[first], copies),
        _ => and_back(first, x.t, q, copies),
    }
}

#[tactic(auto, unfolding(thumb_instr::specs::Sets::writes_of))]
fn long_through(x: &LongMul, q: Reg, copies: u8) -> Seq
    requires { IsFree (Instr.LongMul x.now) q }
    ensures { result ≡ record { steps = as_steps copies (through_one (Instr.LongMul x.now) q); landing = length (as_steps copies (through_one (Instr.LongMul x.now) q)) } }
{
    if reads(&Instr::LongMul(*x)).has(x.lo) {
        and_back(Instr::LongMul(LongMul { lo: q, ..*x }), x.lo, q, copies)
    } else {
        and_back(Instr::LongMul(LongMul { hi: q, ..*x }), x.hi, q, copies)
    }
}

fn half_through(x: &Half, q: Reg, copies: u8) -> Seq
    ensures { result ≡ record { steps = as_steps copies (through_one (Instr.Half x.now) q); landing = length (as_steps copies (through_one (Instr.Half x.now) q)) } }
{
    let first = Instr::Half(Half { d: q, ..*x });
    if x.top {
        sequence(&[first], copies)
    } else {
        and_back(first, x.d, q, copies)
    }
}

/// The sequence of an instruction that reads one of its destinations, by way of a free register.
fn through_one(i: &Instr, q: Reg, copies: u8) -> Seq
    requires { IsFree i.now q }
    ensures { result ≡ record { steps = as_steps copies (through_one i.now q); landing = length (as_steps copies (through_one i.now q)) } }
{
    match i {
        Instr::Alu(x) => alu_through(x, q, copies),
        Instr::Move(x) => and_back(Instr::Move(Move { d: q, ..*x }), x.d, q, copies),
        Instr::ShiftBy(x) => and_back(Instr::ShiftBy(ShiftBy { d: q, ..*x }), x.d, q, copies),
        Instr::Wide(x) => and_back(Instr::Wide(Wide { d: q, ..*x }), x.d, q, copies),
        Instr::Half(x) => half_through(x, q, copies),
        Instr::Field(x) => field_through(x, q, copies),
        Instr::Unary(x) => and_back(Instr::Unary(Unary { d: q, ..*x }), x.d, q, copies),
        Instr::Mul(x) => and_back(Instr::Mul(Mul { d: q, ..*x }), x.d, q, copies),
        Instr::MulAcc(x) => and_back(Instr::MulAcc(MulAcc { d: q, ..*x }), x.d, q, copies),
        Instr::LongMul(x) => long_through(x, q, copies),
        Instr::Div(x) => and_back(Instr::Div(Div { d: q, ..*x }), x.d, q, copies),
        Instr::Access(x) => access_through(x, q, copies),
        Instr::Literal(x) => and_back(Instr::Literal(Literal { t: q, ..*x }), x.t, q, copies),
        Instr::Adr(x) => and_back(Instr::Adr(Adr { d: q, ..*x }), x.d, q, copies),
        Instr::Test(_) | Instr::Pair(_) | Instr::Multi(_) | Instr::Branch(_) => sequence(
            &[*i],
            copies,
        ),
        Instr::ZeroBranch(_) | Instr::Call(_) | Instr::Jump(_) => sequence(&[*i], copies),
        Instr::CallReg(_) | Instr::It(_) | Instr::Nothing(_) | Instr::Trap(_) => sequence(
            &[*i],
            copies,
        ),
    }
}

/// The sequence of a long product that reads both of its destinations, by way of two free registers.
fn through_two(i: &Instr, a: Reg, b: Reg, copies: u8) -> Seq
    requires { a ≢ b }
    ensures { result ≡ record { steps = as_steps copies (through_two i.now a b); landing = length (as_steps copies (through_two i.now a b)) } }
{
    match i {
        Instr::LongMul(x) => sequence(
            &[
                Instr::LongMul(LongMul { lo: a, hi: b, ..*x }),
                moved(false, x.lo, a),
                moved(false, x.hi, b),
            ],
            copies,
        ),
        _ => Seq::new(),
    }
}

impl Builder for Through {
    ghost use Rattle.seq_core.specs.declared.classes.Class.TheVariants as class;

    ghost builds = { λ _. class.Through };

    fn class(&self) -> Class {
        Class::Through
    }

    fn need(&self, i: &Instr) -> Need {
        need_of(Class::Through, i)
    }

    fn build(&self, i: &Instr, scratch: &[Reg], copies: u8) -> Seq {
        scratch_registers_suffice();
        needs_are_small();
        decodes_keep_flags();
        decodes_reach();
        made_steps_are_coded();
        decodes_are_formed();
        decodes_are_apart();
        full_codes_are_rows();
        plain_steps_do();
        if scratch.len() == 1 {
            through_one(i, scratch[0], copies)
        } else {
            through_two(i, scratch[0], scratch[1], copies)
        }
    }
}
