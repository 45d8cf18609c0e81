//! What holds of every instruction. The functions do nothing: their contracts are facts of what they are given.

ghost use Rattle.std.specs.Prelude.{◌≡◌, ◌≤◌, ℕ, true};
ghost use Rattle.thumb_instr.specs.Formed.{IsRegister, IsSource, OperandNamesRegisters, PlaceNamesRegisters};
ghost use Rattle.thumb_instr.specs.Sets.{is_member, reads_of};
ghost use Rattle.liveness.specs.Members.{ReadsRegisters};

use thumb_instr::{Instr, Operand, Place, Reg};

fn register(r: Reg)
    ensures { IsRegister r }
{
    let _number = r.number();
}

fn two(n: Reg, m: Reg)
    ensures first { IsRegister n }
    ensures second { IsRegister m }
{
    register(n);
    register(m);
}

fn four(n: Reg, m: Reg, a: Reg, d: Reg)
    ensures first { IsRegister n }
    ensures second { IsRegister m }
    ensures third { IsRegister a }
    ensures fourth { IsRegister d }
{
    two(n, m);
    two(a, d);
}

fn source(n: Option<Reg>)
    ensures { IsSource n }
{
    match n {
        None => (),
        Some(r) => register(r),
    }
}

fn operand(x: Operand)
    ensures { OperandNamesRegisters x }
{
    match x {
        Operand::Imm(_) => (),
        Operand::Reg { m, .. } => register(m),
    }
}

fn with_operand(n: Reg, x: Operand)
    ensures first { IsRegister n }
    ensures second { OperandNamesRegisters x }
{
    register(n);
    operand(x);
}

fn with_source(d: Reg, n: Option<Reg>)
    ensures first { IsRegister d }
    ensures second { IsSource n }
{
    register(d);
    source(n);
}

fn place(p: Place)
    ensures { PlaceNamesRegisters p }
{
    match p {
        Place::Index { m, .. } => register(m),
        _ => (),
    }
}

fn with_place(n: Reg, t: Reg, p: Place)
    ensures first { IsRegister n }
    ensures second { IsRegister t }
    ensures third { PlaceNamesRegisters p }
{
    two(n, t);
    place(p);
}

/// What an instruction reads has numbers of registers.
fn reads_registers(i: &Instr)
    ensures { ReadsRegisters i.now }
{
    match i {
        Instr::Alu(a) => with_operand(a.n, a.x),
        Instr::Move(a) => operand(a.x),
        Instr::Test(a) => with_operand(a.n, a.x),
        Instr::ShiftBy(a) => two(a.n, a.m),
        Instr::Wide(a) => register(a.n),
        Instr::Half(a) => register(a.d),
        Instr::Field(a) => with_source(a.d, a.n),
        Instr::Unary(a) => register(a.m),
        Instr::Mul(a) => two(a.n, a.m),
        Instr::MulAcc(a) => four(a.n, a.m, a.a, a.a),
        Instr::LongMul(a) => four(a.n, a.m, a.lo, a.hi),
        Instr::Div(a) => two(a.n, a.m),
        Instr::Access(a) => with_place(a.n, a.t, a.place),
        Instr::Pair(a) => four(a.n, a.t, a.u, a.u),
        Instr::Multi(a) => register(a.n),
        Instr::ZeroBranch(a) => register(a.n),
        Instr::Jump(a) => register(a.m),
        Instr::CallReg(a) => register(a.m),
        Instr::Literal(_) | Instr::Adr(_) | Instr::Branch(_) | Instr::Call(_) => (),
        Instr::It(_) | Instr::Nothing(_) | Instr::Trap(_) => (),
    }
}

/// What an instruction reads is a member.
pub(crate) fn reads_members(i: &Instr)
    ensures { (k : ℕ) → reads_of i.now k ≡ true → is_member k ≡ true }
{
    reads_registers(i);
}
