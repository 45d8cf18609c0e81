//! The texts of arithmetic, logic, moves, tests and bit fields.

ghost use Rattle.std.specs.Prelude.{◌≡◌, ◌≤◌, ◌++◌, length};
ghost use Rattle.thumb_text.specs.Listing.{alu_text, move_text, test_text, shift_by_text, wide_text, half_text, field_text, unary_text};

use crate::Line;
use crate::names::{
    alu_name, field_name, half_name, move_name, shift_name, test_name, unary_name, wide_name,
};
use thumb_instr::{Alu, Field, Half, Move, ShiftBy, Test, Unary, Wide};

impl Line {
    pub(crate) fn push_alu(&mut self, i: &Alu)
        requires { length self.old ≤ 12 }
        ensures { self.new ≡ self.old ++ alu_text i.now }
    {
        self.begin_with_flags(alu_name(i.op), i.s);
        self.push_two(i.d, i.n);
        self.push_operand(i.x);
    }

    pub(crate) fn push_move(&mut self, i: &Move)
        requires { length self.old ≤ 12 }
        ensures { self.new ≡ self.old ++ move_text i.now }
    {
        self.begin_with_flags(move_name(i.op), i.s);
        self.push_register(i.d);
        self.push_operand(i.x);
    }

    pub(crate) fn push_test(&mut self, i: &Test)
        requires { length self.old ≤ 12 }
        ensures { self.new ≡ self.old ++ test_text i.now }
    {
        self.begin(test_name(i.op));
        self.push_register(i.n);
        self.push_operand(i.x);
    }

    pub(crate) fn push_shift_by(&mut self, i: &ShiftBy)
        requires { length self.old ≤ 12 }
        ensures { self.new ≡ self.old ++ shift_by_text i.now }
    {
        self.begin_with_flags(shift_name(i.kind), i.s);
        self.push_three(i.d, i.n, i.m);
    }

    pub(crate) fn push_wide(&mut self, i: &Wide)
        requires { length self.old ≤ 12 }
        ensures { self.new ≡ self.old ++ wide_text i.now }
    {
        self.begin(wide_name(i.op));
        self.push_two(i.d, i.n);
        self.push_comma();
        self.push_number(u32::from(i.imm));
    }

    pub(crate) fn push_half(&mut self, i: &Half)
        requires { length self.old ≤ 12 }
        ensures { self.new ≡ self.old ++ half_text i.now }
    {
        self.begin(half_name(i.top));
        self.push_register(i.d);
        self.push_comma();
        self.push_number(u32::from(i.imm));
    }

    pub(crate) fn push_field(&mut self, i: &Field)
        requires { length self.old ≤ 12 }
        ensures { self.new ≡ self.old ++ field_text i.now }
    {
        self.begin(field_name(i.op));
        self.push_register(i.d);
        if let Some(n) = i.n {
            self.push_next(n);
        }
        self.push_comma();
        self.push_number(u32::from(i.lsb));
        self.push_comma();
        self.push_number(u32::from(i.width));
    }

    pub(crate) fn push_unary(&mut self, i: &Unary)
        requires { length self.old ≤ 12 }
        ensures { self.new ≡ self.old ++ unary_text i.now }
    {
        self.begin(unary_name(i.op));
        self.push_two(i.d, i.m);
        if i.turn != 0 {
            self.push_text(", ror #");
            self.push_decimal(u32::from(i.turn));
        }
    }
}
