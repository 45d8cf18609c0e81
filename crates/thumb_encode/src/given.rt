//! What holds of every instruction. The functions do nothing: their contracts are facts of what they are given.

ghost use Rattle.std.specs.Prelude.{◌≡◌, ◌≤◌, true};
ghost use Rattle.thumb_instr.specs.Formed.{IsRegister, IsSource, OperandNamesRegisters, PlaceNamesRegisters, NamesRegisters, TakesFields};

use thumb_instr::{Instr, Operand, Place, Reg};

fn register(r: Reg)
    ensures { IsRegister r }
{
    let _number = r.number();
}

fn source(n: Option<Reg>)
    ensures { IsSource n }
{
    match n {
        None => (),
        Some(r) => register(r),
    }
}

fn operand(x: Operand)
    ensures { OperandNamesRegisters x }
{
    match x {
        Operand::Imm(_) => (),
        Operand::Reg { m, .. } => register(m),
    }
}

fn place(p: Place)
    ensures { PlaceNamesRegisters p }
{
    match p {
        Place::Index { m, .. } => register(m),
        _ => (),
    }
}

fn three(d: Reg, n: Reg, m: Reg)
    ensures first { IsRegister d }
    ensures second { IsRegister n }
    ensures third { IsRegister m }
{
    register(d);
    register(n);
    register(m);
}

fn four(d: Reg, n: Reg, m: Reg, a: Reg)
    ensures first { IsRegister d }
    ensures second { IsRegister n }
    ensures third { IsRegister m }
    ensures fourth { IsRegister a }
{
    three(d, n, m);
    register(a);
}

fn with_operand(d: Reg, n: Reg, x: Operand)
    ensures first { IsRegister d }
    ensures second { IsRegister n }
    ensures third { OperandNamesRegisters x }
{
    register(d);
    register(n);
    operand(x);
}

fn with_source(d: Reg, n: Option<Reg>)
    ensures first { IsRegister d }
    ensures second { IsSource n }
{
    register(d);
    source(n);
}

fn with_place(t: Reg, n: Reg, p: Place)
    ensures first { IsRegister t }
    ensures second { IsRegister n }
    ensures third { PlaceNamesRegisters p }
{
    register(t);
    register(n);
    place(p);
}

/// Whoever reads a field knows what its instruction takes.
fn offset(_offset: i32) {}

fn number(_number: u16) {}

/// An instruction names registers, and takes its fields.
pub(crate) fn given(i: &Instr)
    ensures registers { NamesRegisters i.now }
    ensures fields { TakesFields i.now }
{
    match i {
        Instr::Alu(a) => with_operand(a.d, a.n, a.x),
        Instr::Move(a) => with_operand(a.d, a.d, a.x),
        Instr::Test(a) => with_operand(a.n, a.n, a.x),
        Instr::ShiftBy(a) => three(a.d, a.n, a.m),
        Instr::Wide(a) => three(a.d, a.n, a.n),
        Instr::Half(a) => register(a.d),
        Instr::Field(a) => with_source(a.d, a.n),
        Instr::Unary(a) => three(a.d, a.m, a.m),
        Instr::Mul(a) => three(a.d, a.n, a.m),
        Instr::MulAcc(a) => four(a.d, a.n, a.m, a.a),
        Instr::LongMul(a) => four(a.lo, a.hi, a.n, a.m),
        Instr::Div(a) => three(a.d, a.n, a.m),
        Instr::Access(a) => with_place(a.t, a.n, a.place),
        Instr::Pair(a) => three(a.t, a.u, a.n),
        Instr::Multi(a) => register(a.n),
        Instr::Literal(a) => register(a.t),
        Instr::Adr(a) => register(a.d),
        Instr::Branch(a) => offset(a.offset),
        Instr::ZeroBranch(a) => register(a.n),
        Instr::Call(a) => offset(a.offset),
        Instr::Jump(a) => register(a.m),
        Instr::CallReg(a) => register(a.m),
        Instr::It(a) => number(a.mask as u16),
        Instr::Nothing(a) => number(a.option as u16),
        Instr::Trap(a) => number(a.imm as u16),
    }
}
