//! The line of an instruction.

ghost use Rattle.std.specs.Prelude.{◌≡◌, ◌≤◌, ◌++◌, length};
ghost use Rattle.thumb_text.specs.Listing.{text_of, line_of};

use crate::Line;
use thumb_instr::Instr;

impl Line {
    /// Appends the name and the operands of an instruction at an address.
    fn push_instr(&mut self, i: &Instr, at: u32)
        requires { length self.old ≤ 10 }
        ensures { self.new ≡ self.old ++ text_of i.now at }
    {
        match i {
            Instr::Alu(i) => self.push_alu(i),
            Instr::Move(i) => self.push_move(i),
            Instr::Test(i) => self.push_test(i),
            Instr::ShiftBy(i) => self.push_shift_by(i),
            Instr::Wide(i) => self.push_wide(i),
            Instr::Half(i) => self.push_half(i),
            Instr::Field(i) => self.push_field(i),
            Instr::Unary(i) => self.push_unary(i),
            Instr::Mul(i) => self.push_mul(i),
            Instr::MulAcc(i) => self.push_mul_acc(i),
            Instr::LongMul(i) => self.push_long_mul(i),
            Instr::Div(i) => self.push_div(i),
            Instr::Access(i) => self.push_access(i),
            Instr::Pair(i) => self.push_pair(i),
            Instr::Multi(i) => self.push_multi(i),
            Instr::Literal(i) => self.push_literal(i, at),
            Instr::Adr(i) => self.push_adr(i, at),
            Instr::Branch(i) => self.push_branch(i, at),
            Instr::ZeroBranch(i) => self.push_zero_branch(i, at),
            Instr::Call(i) => self.push_call(i, at),
            Instr::Jump(i) => self.push_jump(i),
            Instr::CallReg(i) => self.push_call_reg(i),
            Instr::It(i) => self.push_it(i),
            Instr::Nothing(i) => self.push_nothing(i),
            Instr::Trap(i) => self.push_trap(i),
        }
    }
}

/// Sets a line to the listing of an instruction at an address: the address in eight hexadecimal digits,
/// two spaces, the name, and the operands. It has no line end. Branches, literals and ADR show the
/// address that they name, modulo 2^32.
#[tactic(auto, unfolding(crate::specs::Listing::line_of))]
pub fn list_line(i: &Instr, at: u32, out: &mut Line)
    ensures { out.new ≡ line_of i.now at }
{
    out.clear();
    out.push_word(at);
    out.push_text("  ");
    out.push_instr(i, at);
}
