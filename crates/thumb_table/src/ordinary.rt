//! Which uses of words are ordinary: words with marks are only moved, stored and loaded whole, tested for
//! zero, jumped to or completed.

ghost use Rattle.std.specs.Prelude.{◌≡◌, ◌<◌, ◌+◌, ◌↔◌, ◌^◌, [], ◌∷◌, ◌++◌, IsTrue, true, All, length, map};
ghost use Rattle.std.specs.List.Sorted.{IsStrictlyIncreasing};
ghost use Rattle.thumb_table.specs.States.{read};
ghost use Rattle.thumb_table.specs.Ordinary.{IsPlain, IsLow, in_operand, in_move, is_zero_test as is_zero_test_of, in_source, in_field, in_sum, in_place, in_part, used};
ghost use Rattle.thumb_table.specs.CoreStates.{alone};

use crate::Core;
use crate::operands::keeps;
use mark_word::Mark;
use thumb_instr::{AccessOp, FieldOp, Instr, LongMulOp, MoveOp, Operand, Place, Reg, TestOp};

pub(crate) fn is_plain(mark: Mark) -> bool
    ensures { IsTrue result ↔ IsPlain mark }
{
    match mark {
        Mark::Plain => true,
        _ => false,
    }
}

pub(crate) fn is_low(mark: Mark) -> bool
    ensures { IsTrue result ↔ IsLow mark }
{
    match mark {
        Mark::Low(_) => true,
        _ => false,
    }
}

/// Whether a register has a number.
fn one(n: Reg, s: &Core) -> bool
    ensures { IsTrue result ↔ All (λ r. IsPlain (read (alone s.now) r).mark) (n ∷ []) }
{
    is_plain(s.word(n).mark())
}

fn two(n: Reg, m: Reg, s: &Core) -> bool
    ensures { IsTrue result ↔ All (λ r. IsPlain (read (alone s.now) r).mark) (n ∷ m ∷ []) }
{
    one(n, s) && one(m, s)
}

fn three(n: Reg, m: Reg, a: Reg, s: &Core) -> bool
    ensures { IsTrue result ↔ All (λ r. IsPlain (read (alone s.now) r).mark) (n ∷ m ∷ a ∷ []) }
{
    one(n, s) && two(m, a, s)
}

fn in_operand(x: Operand, s: &Core) -> bool
    ensures { IsTrue result ↔ All (λ r. IsPlain (read (alone s.now) r).mark) (in_operand x) }
{
    match x {
        Operand::Imm(_) => true,
        Operand::Reg { m, .. } => one(m, s),
    }
}

fn with_operand(n: Reg, x: Operand, s: &Core) -> bool
    ensures { IsTrue result ↔ All (λ r. IsPlain (read (alone s.now) r).mark) (n ∷ in_operand x) }
{
    one(n, s) && in_operand(x, s)
}

fn in_move(op: MoveOp, x: Operand, s: &Core) -> bool
    ensures { IsTrue result ↔ All (λ r. IsPlain (read (alone s.now) r).mark) (in_move op x) }
{
    match op {
        MoveOp::Mvn => in_operand(x, s),
        MoveOp::Mov => match x {
            Operand::Imm(_) => true,
            Operand::Reg { m, kind, amount } => keeps(kind, amount) || one(m, s),
        },
    }
}

fn is_zero_test(op: TestOp, x: Operand) -> bool
    ensures { result ≡ is_zero_test_of op x }
{
    match op {
        TestOp::Cmp => match x {
            Operand::Imm(i) => i == 0,
            Operand::Reg { .. } => false,
        },
        _ => false,
    }
}

fn in_source(n: Option<Reg>, s: &Core) -> bool
    ensures { IsTrue result ↔ All (λ r. IsPlain (read (alone s.now) r).mark) (in_source n) }
{
    match n {
        None => true,
        Some(n) => one(n, s),
    }
}

fn in_field(op: FieldOp, d: Reg, n: Option<Reg>, s: &Core) -> bool
    ensures { IsTrue result ↔ All (λ r. IsPlain (read (alone s.now) r).mark) (in_field op d n) }
{
    match op {
        FieldOp::Sbfx | FieldOp::Ubfx => in_source(n, s),
        FieldOp::Bfi => one(d, s) && in_source(n, s),
        FieldOp::Bfc => one(d, s),
    }
}

fn in_sum(op: LongMulOp, lo: Reg, hi: Reg, s: &Core) -> bool
    ensures { IsTrue result ↔ All (λ r. IsPlain (read (alone s.now) r).mark) (in_sum op lo hi) }
{
    match op {
        LongMulOp::Smull | LongMulOp::Umull => true,
        LongMulOp::Smlal | LongMulOp::Umlal => two(lo, hi, s),
    }
}

fn in_place(place: Place, s: &Core) -> bool
    ensures { IsTrue result ↔ All (λ r. IsPlain (read (alone s.now) r).mark) (in_place place) }
{
    match place {
        Place::Index { m, .. } => one(m, s),
        _ => true,
    }
}

fn in_part(op: AccessOp, t: Reg, s: &Core) -> bool
    ensures { IsTrue result ↔ All (λ r. IsPlain (read (alone s.now) r).mark) (in_part op t) }
{
    match op {
        AccessOp::Strb | AccessOp::Strh => one(t, s),
        _ => true,
    }
}

fn with_sum(n: Reg, m: Reg, op: LongMulOp, lo: Reg, hi: Reg, s: &Core) -> bool
    ensures { IsTrue result ↔ All (λ r. IsPlain (read (alone s.now) r).mark) (n ∷ m ∷ in_sum op lo hi) }
{
    two(n, m, s) && in_sum(op, lo, hi, s)
}

fn in_address(n: Reg, place: Place, s: &Core) -> bool
    ensures { IsTrue result ↔ All (λ r. IsPlain (read (alone s.now) r).mark) (n ∷ in_place place) }
{
    one(n, s) && in_place(place, s)
}

fn in_access(n: Reg, place: Place, op: AccessOp, t: Reg, s: &Core) -> bool
    ensures { IsTrue result ↔ All (λ r. IsPlain (read (alone s.now) r).mark) ((n ∷ in_place place) ++ in_part op t) }
{
    in_address(n, place, s) && in_part(op, t, s)
}

/// Whether the registers whose words an instruction uses as numbers have numbers.
pub(crate) fn uses_numbers(i: &Instr, s: &Core) -> bool
    ensures { IsTrue result ↔ All (λ r. IsPlain (read (alone s.now) r).mark) (used i.now) }
{
    match i {
        Instr::Alu(i) => with_operand(i.n, i.x, s),
        Instr::Move(i) => in_move(i.op, i.x, s),
        Instr::Test(i) => is_zero_test(i.op, i.x) || with_operand(i.n, i.x, s),
        Instr::ShiftBy(i) => two(i.n, i.m, s),
        Instr::Wide(i) => one(i.n, s),
        Instr::Field(i) => in_field(i.op, i.d, i.n, s),
        Instr::Unary(i) => one(i.m, s),
        Instr::Mul(i) => two(i.n, i.m, s),
        Instr::MulAcc(i) => three(i.n, i.m, i.a, s),
        Instr::LongMul(i) => with_sum(i.n, i.m, i.op, i.lo, i.hi, s),
        Instr::Div(i) => two(i.n, i.m, s),
        Instr::Access(i) => in_access(i.n, i.place, i.op, i.t, s),
        Instr::Pair(i) => one(i.n, s),
        Instr::Multi(i) => one(i.n, s),
        _ => true,
    }
}
