//! Class LongSum: SMLAL and UMLAL.

ghost use Rattle.std.specs.Prelude.{◌≡◌, ◌≢◌, length};
ghost use Rattle.seq_core.specs.Built.{as_steps};
ghost use Rattle.seq_core.specs.Replaced.{long_summed, without_sum};
ghost use Rattle.seq_core.specs.Through.{register_sum};

use mark_word::Shift;
use seq_core::{
    Builder, Class, Need, Seq, decodes_are_apart, full_codes_are_rows, long_sums_work,
    made_steps_are_coded, moved, need_of, plain_steps_do, sequence,
};
use thumb_instr::{Alu, AluOp, Instr, LongMul, LongMulOp, Operand, Reg, decodes_are_formed};

/// Builds the sequences of class LongSum.
#[derive(Clone, Copy, Debug)]
pub struct LongSum;

/// The product alone.
fn without_sum(op: LongMulOp) -> LongMulOp
    ensures { result ≡ without_sum op }
{
    match op {
        LongMulOp::Smlal => LongMulOp::Smull,
        LongMulOp::Umlal => LongMulOp::Umull,
        _ => op,
    }
}

/// A sum of registers, with flags or not.
fn register_sum(op: AluOp, s: bool, d: Reg, n: Reg, m: Reg) -> Instr
    ensures { result ≡ register_sum op s d n m }
{
    Instr::Alu(Alu {
        op,
        s,
        d,
        n,
        x: Operand::Reg {
            m,
            kind: Shift::Lsl,
            amount: 0,
        },
    })
}

/// A product into two free registers, the low sum into a third, the high sum with its carry, and two moves.
fn long_summed(i: &Instr, a: Reg, b: Reg, c: Reg, copies: u8) -> Seq
    requires { a ≢ b }
    ensures { result ≡ record { steps = as_steps copies (long_summed i.now a b c); landing = length (as_steps copies (long_summed i.now a b c)) } }
{
    match i {
        Instr::LongMul(x) => {
            let product = LongMul {
                op: without_sum(x.op),
                lo: a,
                hi: b,
                ..*x
            };
            sequence(
                &[
                    Instr::LongMul(product),
                    register_sum(AluOp::Add, true, c, x.lo, a),
                    register_sum(AluOp::Adc, false, a, x.hi, b),
                    moved(false, x.lo, c),
                    moved(false, x.hi, a),
                ],
                copies,
            )
        }
        _ => Seq::new(),
    }
}

impl Builder for LongSum {
    ghost use Rattle.seq_core.specs.declared.classes.Class.TheVariants as class;

    ghost builds = { λ _. class.LongSum };

    fn class(&self) -> Class {
        Class::LongSum
    }

    fn need(&self, i: &Instr) -> Need {
        need_of(Class::LongSum, i)
    }

    fn build(&self, i: &Instr, scratch: &[Reg], copies: u8) -> Seq {
        long_sums_work();
        made_steps_are_coded();
        decodes_are_formed();
        decodes_are_apart();
        full_codes_are_rows();
        plain_steps_do();
        long_summed(i, scratch[0], scratch[1], scratch[2], copies)
    }
}
