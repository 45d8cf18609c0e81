//! Instructions of which sequences are made, and sequences of them.

ghost use Rattle.std.specs.Prelude.{◌≡◌, ◌<◌, ◌≤◌, true, length};
ghost use Rattle.thumb_instr.specs.Meanings.{constant_of};
ghost use Rattle.thumb_table.specs.Effects.{registers};
ghost use Rattle.seq_core.specs.Bases.{summing};
ghost use Rattle.seq_core.specs.Built.{as_steps};
ghost use Rattle.seq_core.specs.Constants.{is_move};
ghost use Rattle.seq_core.specs.Groups.{moving};
ghost use Rattle.seq_core.specs.Lists.{sole};

use crate::{Goal, Seq, Step, code_of_move};
use mark_word::Shift;
use thumb_instr::{Alu, AluOp, Instr, Move, MoveOp, Operand, Reg, RegSet};

/// MOV of a register, which sets flags or not.
pub fn moved(s: bool, d: Reg, m: Reg) -> Instr
    ensures { result ≡ moving s d m }
{
    Instr::Move(Move {
        op: MoveOp::Mov,
        s,
        d,
        x: Operand::Reg {
            m,
            kind: Shift::Lsl,
            amount: 0,
        },
    })
}

/// ADD or SUB of a number by which a base moves.
pub fn summed(up: bool, d: Reg, n: Reg, imm: u16) -> Instr
    requires { is_move imm ≡ true }
    ensures { result ≡ summing up d n (constant_of imm) }
{
    let op = if up { AluOp::Add } else { AluOp::Sub };
    Instr::Alu(Alu {
        op,
        s: false,
        d,
        n,
        x: Operand::Imm(code_of_move(imm)),
    })
}

/// A register by its number.
fn numbered(k: u8) -> Reg
    requires { k < 15 }
    ensures { result ≡ k }
{
    Reg::new(k).unwrap()
}

/// The register of a set that has one alone.
pub fn sole_register(list: RegSet) -> Option<Reg>
    ensures { result ≡ sole (registers list.0) }
{
    let mut found = None;
    'each: for k in 0..15u8 {
        let r = numbered(k);
        if list.has(r) {
            if found.is_some() {
                return None;
            }
            found = Some(r);
        }
    }
    found
}

/// How many registers a set has.
pub fn count_registers(list: RegSet) -> u16
    ensures value { result ≡ length (registers list.0) }
    ensures range { result ≤ 15 }
{
    let mut count = 0;
    'each: for k in 0..15u8 {
        if list.has(numbered(k)) {
            count += 1;
        }
    }
    count
}

/// The sequence of at most eight instructions whose numbers lead nowhere.
pub fn sequence(instrs: &[Instr], copies: u8) -> Seq
    requires { length instrs.now ≤ 8 }
    ensures { result ≡ record { steps = as_steps copies instrs.now; landing = length instrs.now } }
{
    let mut s = Seq::new();
    'each: for i in instrs {
        s.push(Step {
            instr: *i,
            goal: Goal::Nowhere,
            copies,
        });
    }
    s
}
