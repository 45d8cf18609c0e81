//! Operands, places and targets.

ghost use Rattle.std.specs.Prelude.{◌≡◌, ◌+◌, ◌<◌, ◌≤◌, ◌++◌, codes, length, true};
ghost use Rattle.thumb_instr.specs.Operands.{is_operand};
ghost use Rattle.std.specs.Fmt.{decimal};
ghost use Rattle.thumb_text.specs.Names.{register};
ghost use Rattle.thumb_text.specs.Pieces.{directed, followed, constant, shifting, operand, memory, pair_place, branched, beside};

use crate::Line;
use crate::names::shift_name;
use mark_word::{Shift, expand_imm};
use thumb_instr::{Operand, PairIndex, Place, Reg};

/// The value of a constant of 12 bits.
fn constant(imm12: u16) -> u32
    requires { imm12 < 4096 }
    ensures { result ≡ constant imm12 }
{
    match expand_imm(imm12, false) {
        Some(shifted) => shifted.value,
        None => 0,
    }
}

/// The place that a pair's fields name.
pub(crate) fn pair_place(index: PairIndex, up: bool, imm: u16) -> Place
    ensures { result ≡ pair_place index up imm }
{
    match index {
        PairIndex::Offset => Place::Offset { up, imm },
        PairIndex::Pre => Place::Pre { up, imm },
        PairIndex::Post => Place::Post { up, imm },
    }
}

/// Where a branch goes.
pub(crate) fn branched(at: u32, offset: i32) -> u32
    ensures { result ≡ branched at offset }
{
    at.wrapping_add(4).wrapping_add_signed(offset)
}

/// The address that a literal or ADR names.
pub(crate) fn beside(at: u32, up: bool, imm: u16) -> u32
    ensures { result ≡ beside at up imm }
{
    let rounded = at.wrapping_add(4) / 4 * 4;
    if up {
        rounded.wrapping_add(u32::from(imm))
    } else {
        rounded.wrapping_sub(u32::from(imm))
    }
}

impl Line {
    /// Appends how a register is shifted.
    fn push_shifting(&mut self, kind: Shift, amount: u8)
        requires { length self.old ≤ 50 }
        ensures text { self.new ≡ self.old ++ followed (codes ", ") (shifting kind amount) }
        ensures short { length self.new ≤ length self.old + 18 }
    {
        match kind {
            Shift::Rrx => self.push_text(", rrx"),
            Shift::Lsl if amount == 0 => {}
            _ => {
                self.push_comma();
                self.begin(shift_name(kind));
                self.push_number(u32::from(amount));
            }
        }
    }

    /// Appends an operand behind others.
    pub(crate) fn push_operand(&mut self, x: Operand)
        requires operand { is_operand x ≡ true }
        requires room { length self.old ≤ 40 }
        ensures text { self.new ≡ self.old ++ followed (codes ", ") (operand x) }
        ensures short { length self.new ≤ length self.old + 23 }
    {
        match x {
            Operand::Imm(imm12) => {
                self.push_comma();
                self.push_number(constant(imm12));
            }
            Operand::Reg { m, kind, amount } => {
                self.push_next(m);
                self.push_shifting(kind, amount);
            }
        }
    }

    /// Appends a base register and a number behind it, in brackets that are still open.
    fn push_offset(&mut self, n: Reg, up: bool, imm: u16)
        requires { length self.old ≤ 40 }
        ensures text { self.new ≡ self.old ++ (codes "[" ++ register n ++ codes ", " ++ directed up imm) }
        ensures short { length self.new ≤ length self.old + 18 }
    {
        self.push(b'[');
        self.push_register(n);
        self.push_comma();
        self.push_directed(up, u32::from(imm));
    }

    /// Appends a base register and one that is added to it.
    fn push_index(&mut self, n: Reg, m: Reg, shift: u8)
        requires { length self.old ≤ 40 }
        ensures { self.new ≡ self.old
            ++ (codes "[" ++ register n ++ codes ", " ++ register m
            ++ codes ", lsl #" ++ decimal shift ++ codes "]") }
    {
        self.push(b'[');
        self.push_two(n, m);
        self.push_text(", lsl #");
        self.push_decimal(u32::from(shift));
        self.push(b']');
    }

    /// Appends a place in memory.
    pub(crate) fn push_memory(&mut self, n: Reg, place: Place)
        requires { length self.old ≤ 40 }
        ensures { self.new ≡ self.old ++ memory n place }
    {
        match place {
            Place::Offset { up, imm } => {
                self.push_offset(n, up, imm);
                self.push_text("]");
            }
            Place::Pre { up, imm } => {
                self.push_offset(n, up, imm);
                self.push_text("]!");
            }
            Place::Post { up, imm } => {
                self.push(b'[');
                self.push_register(n);
                self.push_text("], ");
                self.push_directed(up, u32::from(imm));
            }
            Place::Index { m, shift } => self.push_index(n, m, shift),
        }
    }
}
