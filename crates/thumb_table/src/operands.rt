//! The values of second operands.

ghost use Rattle.std.specs.Prelude.{◌≡◌, true};
ghost use Rattle.thumb_instr.specs.Operands.{is_operand};
ghost use Rattle.thumb_table.specs.Effects.{operand, moved_word, is_whole, shift_given};
ghost use Rattle.mark_word.specs.Formulas.{is_rrx};
ghost use Rattle.thumb_table.specs.CoreStates.{alone};

use crate::Core;
use crate::values::{Given, inverted};
use mark_word::{Shift, Shifted, Word, expand_imm, shift_c};
use thumb_instr::{MoveOp, Operand};

/// Whether a shift is RRX.
fn is_rrx(kind: Shift) -> bool
    ensures { result ≡ is_rrx kind }
{
    match kind {
        Shift::Rrx => true,
        _ => false,
    }
}

/// A number that is shifted, with the carry that this gives: none where the amount is 0, but for RRX.
pub(crate) fn shift_given(n: u32, kind: Shift, amount: u8, carry: bool) -> Given
    ensures { result ≡ shift_given n kind amount carry }
{
    let gives = amount != 0 || is_rrx(kind);
    Given::new(gives, shift_c(n, kind, amount, carry))
}

/// The value of an operand, with the carry that it gives.
pub(crate) fn operand_value(x: Operand, s: &Core) -> Given
    requires { is_operand x ≡ true }
    ensures { result ≡ operand x (alone s.now) }
{
    match x {
        Operand::Imm(i) => {
            let constant = match expand_imm(i, false) {
                Some(shifted) => shifted,
                None => Shifted {
                    value: 0,
                    carry: false,
                },
            };
            Given::new(i / 1024 % 4 != 0, constant)
        }
        Operand::Reg { m, kind, amount } => shift_given(s.word(m).bits(), kind, amount, s.c),
    }
}

/// Whether a shift leaves a number as it is, whatever the carry.
pub(crate) fn keeps(kind: Shift, amount: u8) -> bool
    ensures { result ≡ is_whole kind amount }
{
    match kind {
        Shift::Lsl => amount == 0,
        _ => false,
    }
}

/// The word that is moved. A register that isn't shifted keeps its mark.
pub(crate) fn moved_word(op: MoveOp, x: Operand, s: &Core) -> Word
    requires { is_operand x ≡ true }
    ensures { result ≡ moved_word op x (alone s.now) }
{
    match op {
        MoveOp::Mov => match x {
            Operand::Imm(_) => Word::plain(operand_value(x, s).value()),
            Operand::Reg { m, kind, amount } => {
                if keeps(kind, amount) {
                    s.word(m)
                } else {
                    Word::plain(operand_value(x, s).value())
                }
            }
        },
        MoveOp::Mvn => Word::plain(inverted(operand_value(x, s).value())),
    }
}
