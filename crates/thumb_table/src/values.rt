//! The results of sums and logical operations (ARMv7-M ARM, A7.7).

ghost use Rattle.std.specs.Prelude.{◌≡◌};
ghost use Rattle.thumb_table.specs.Effects.{given_if};
ghost use Rattle.thumb_table.specs.Values.{computed, logical, summed, tested, inverted, is_negative};

use mark_word::{Shifted, Sum, add_flags};
use std::marker::Model;
use thumb_instr::{AluOp, TestOp};

/// An operand's value, and the carry that it gives; one that is not shifted or turned gives none.
#[derive(Clone, Copy, Debug)]
pub(crate) struct Given {
    value: u32,
    carry: Option<bool>,
}

impl Model for Given {
    ghost use Rattle.thumb_table.specs.Values.{Given};

    ghost Value = { Given };

    ghost view = { λ g. record { value = g.value; carry = g.carry } };

    ghost inverse = { λ g. record { value = g.value; carry = g.carry } };
}

impl Given {
    /// A number with the carry that goes with it, if there is one.
    pub(crate) fn new(gives: bool, s: Shifted) -> Given
        ensures { result ≡ given_if gives s }
    {
        Given {
            value: s.value,
            carry: if gives { Some(s.carry) } else { None },
        }
    }

    pub(crate) fn value(&self) -> u32
        ensures { result ≡ self.now.value }
    {
        self.value
    }

    pub(crate) fn carry(&self) -> Option<bool>
        ensures { result ≡ self.now.carry }
    {
        self.carry
    }
}

/// The result of a sum or a logical operation. Where it has no carry or overflow, the flag stays.
#[derive(Clone, Copy, Debug)]
pub(crate) struct Computed {
    value: u32,
    carry: Option<bool>,
    overflow: Option<bool>,
}

impl Model for Computed {
    ghost use Rattle.thumb_table.specs.Values.{Computed};

    ghost Value = { Computed };

    ghost view = { λ r. record { value = r.value; carry = r.carry; overflow = r.overflow } };

    ghost inverse = { λ r. record { value = r.value; carry = r.carry; overflow = r.overflow } };
}

impl Computed {
    /// The result of a logical operation.
    pub(crate) fn logical(value: u32, carry: Option<bool>) -> Computed
        ensures { result ≡ logical value carry }
    {
        Computed {
            value,
            carry,
            overflow: None,
        }
    }

    /// The result of a sum.
    pub(crate) fn summed(s: Sum) -> Computed
        ensures { result ≡ summed s }
    {
        Computed {
            value: s.value,
            carry: Some(s.carry),
            overflow: Some(s.overflow),
        }
    }

    pub(crate) fn value(&self) -> u32
        ensures { result ≡ self.now.value }
    {
        self.value
    }

    pub(crate) fn carry(&self) -> Option<bool>
        ensures { result ≡ self.now.carry }
    {
        self.carry
    }

    pub(crate) fn overflow(&self) -> Option<bool>
        ensures { result ≡ self.now.overflow }
    {
        self.overflow
    }
}

/// All bits turned over.
pub(crate) fn inverted(n: u32) -> u32
    ensures { result ≡ inverted n }
{
    u32::MAX - n
}

/// Whether bit 31 is set.
pub(crate) fn is_negative(n: u32) -> bool
    ensures { result ≡ is_negative n }
{
    n / 0x8000_0000 == 1
}

/// The operation whose flags a test sets.
pub(crate) fn tested(op: TestOp) -> AluOp
    ensures { result ≡ tested op }
{
    match op {
        TestOp::Tst => AluOp::And,
        TestOp::Teq => AluOp::Eor,
        TestOp::Cmn => AluOp::Add,
        TestOp::Cmp => AluOp::Sub,
    }
}

/// The result of an operation on a register's value, an operand's and the carry flag.
pub(crate) fn alu_result(op: AluOp, n: u32, x: Given, c: bool) -> Computed
    ensures { result ≡ computed op n x c }
{
    let y = x.value();
    match op {
        AluOp::And => Computed::logical(n & y, x.carry()),
        AluOp::Bic => Computed::logical(n & inverted(y), x.carry()),
        AluOp::Orr => Computed::logical(n | y, x.carry()),
        AluOp::Orn => Computed::logical(n | inverted(y), x.carry()),
        AluOp::Eor => Computed::logical(n ^ y, x.carry()),
        AluOp::Add => Computed::summed(add_flags(n, y, false)),
        AluOp::Adc => Computed::summed(add_flags(n, y, c)),
        AluOp::Sbc => Computed::summed(add_flags(n, inverted(y), c)),
        AluOp::Sub => Computed::summed(add_flags(n, inverted(y), true)),
        AluOp::Rsb => Computed::summed(add_flags(inverted(n), y, true)),
    }
}
