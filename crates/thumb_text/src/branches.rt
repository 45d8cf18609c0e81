//! The texts of branches, calls, jumps, IT, barriers and the trap.

ghost use Rattle.std.specs.Prelude.{◌≡◌, ◌+◌, ◌≤◌, ◌++◌, length};
ghost use Rattle.thumb_text.specs.Names.{branch_name};
ghost use Rattle.thumb_text.specs.Listing.{branch_text, zero_branch_text, call_text, jump_text, call_reg_text, it_text, nothing_text, trap_text};

use crate::Line;
use crate::names::{cond_name, nothing_name, zero_branch_name};
use crate::operands::branched;
use thumb_instr::{Branch, Call, CallReg, Cond, It, Jump, Nothing, NothingOp, Trap, ZeroBranch};

impl Line {
    /// Appends the name of a branch: a condition stands behind it, unless it always holds.
    fn push_branch_name(&mut self, cond: Cond)
        requires { length self.old ≤ 12 }
        ensures text { self.new ≡ self.old ++ branch_name cond }
        ensures short { length self.new ≤ length self.old + 6 }
    {
        self.push(b'b');
        match cond {
            Cond::Al => {}
            _ => self.push_text(cond_name(cond)),
        }
    }

    pub(crate) fn push_branch(&mut self, i: &Branch, at: u32)
        requires { length self.old ≤ 12 }
        ensures { self.new ≡ self.old ++ branch_text i.now at }
    {
        self.push_branch_name(i.cond);
        self.push(b' ');
        self.push_address(branched(at, i.offset));
    }

    pub(crate) fn push_zero_branch(&mut self, i: &ZeroBranch, at: u32)
        requires { length self.old ≤ 12 }
        ensures { self.new ≡ self.old ++ zero_branch_text i.now at }
    {
        self.begin(zero_branch_name(i.nonzero));
        self.push_register(i.n);
        self.push_comma();
        self.push_address(branched(at, i.offset));
    }

    pub(crate) fn push_call(&mut self, i: &Call, at: u32)
        requires { length self.old ≤ 12 }
        ensures { self.new ≡ self.old ++ call_text i.now at }
    {
        self.begin("bl");
        self.push_address(branched(at, i.offset));
    }

    pub(crate) fn push_jump(&mut self, i: &Jump)
        requires { length self.old ≤ 12 }
        ensures { self.new ≡ self.old ++ jump_text i.now }
    {
        self.begin("bx");
        self.push_register(i.m);
    }

    pub(crate) fn push_call_reg(&mut self, i: &CallReg)
        requires { length self.old ≤ 12 }
        ensures { self.new ≡ self.old ++ call_reg_text i.now }
    {
        self.begin("blx");
        self.push_register(i.m);
    }

    pub(crate) fn push_it(&mut self, i: &It)
        requires { length self.old ≤ 12 }
        ensures { self.new ≡ self.old ++ it_text i.now }
    {
        self.begin("it");
        self.push_text(cond_name(i.first));
        self.push_comma();
        self.push_number(u32::from(i.mask));
    }

    pub(crate) fn push_nothing(&mut self, i: &Nothing)
        requires { length self.old ≤ 12 }
        ensures { self.new ≡ self.old ++ nothing_text i.now }
    {
        match i.op {
            NothingOp::Nop => self.push_text("nop"),
            _ => {
                self.begin(nothing_name(i.op));
                self.push_number(u32::from(i.option));
            }
        }
    }

    pub(crate) fn push_trap(&mut self, i: &Trap)
        requires { length self.old ≤ 12 }
        ensures { self.new ≡ self.old ++ trap_text i.now }
    {
        self.begin("udf");
        self.push_number(u32::from(i.imm));
    }
}
