//! Steps of calls and branches.

ghost use Rattle.std.specs.Prelude.{◌≡◌, ◌∷◌, [], false};
ghost use Rattle.seq_core.specs.Groups.{moving};
ghost use Rattle.seq_core.specs.Replaced.{branches, jumping, leading, links};

use mark_word::Shift;
use seq_core::{Goal, Seq, Step};
use thumb_instr::{Adr, Branch, Cond, Instr, Jump, Move, MoveOp, Operand, Reg};

/// lr, to which a call writes the address that it returns to.
pub(crate) fn link() -> Reg
    ensures { result ≡ 14 }
{
    Reg::new(14).unwrap()
}

/// ADR of where the call comes back to, into lr.
pub(crate) fn links(copies: u8) -> Step
    ensures { result ≡ links copies }
{
    Step {
        instr: Instr::Adr(Adr {
            d: link(),
            up: true,
            imm: 0,
        }),
        goal: Goal::Landing,
        copies,
    }
}

/// A branch to the target.
pub(crate) fn branches(copies: u8) -> Step
    ensures { result ≡ branches copies }
{
    Step {
        instr: Instr::Branch(Branch {
            cond: Cond::Al,
            offset: 0,
        }),
        goal: Goal::Target,
        copies,
    }
}

/// A jump to a register.
pub(crate) fn jumps(m: Reg, copies: u8) -> Step
    ensures { result ≡ leading copies Goal.Nowhere (jumping m) }
{
    Step {
        instr: Instr::Jump(Jump { m }),
        goal: Goal::Nowhere,
        copies,
    }
}

/// MOV of lr to a register.
pub(crate) fn copies_link(q: Reg, copies: u8) -> Step
    ensures { result ≡ leading copies Goal.Nowhere (moving false q 14) }
{
    Step {
        instr: Instr::Move(Move {
            op: MoveOp::Mov,
            s: false,
            d: q,
            x: Operand::Reg {
                m: link(),
                kind: Shift::Lsl,
                amount: 0,
            },
        }),
        goal: Goal::Nowhere,
        copies,
    }
}

/// A sequence of two steps.
pub(crate) fn two(first: Step, second: Step) -> Seq
    ensures { result ≡ record { steps = first ∷ second ∷ []; landing = 2 } }
{
    let mut s = Seq::new();
    s.push(first);
    s.push(second);
    s
}
