//! The texts of products and quotients.

ghost use Rattle.std.specs.Prelude.{◌≡◌, ◌≤◌, ◌++◌, length};
ghost use Rattle.thumb_text.specs.Listing.{mul_text, mul_acc_text, long_mul_text, div_text};

use crate::Line;
use crate::names::{div_name, long_mul_name, mul_acc_name};
use thumb_instr::{Div, LongMul, Mul, MulAcc};

impl Line {
    pub(crate) fn push_mul(&mut self, i: &Mul)
        requires { length self.old ≤ 12 }
        ensures { self.new ≡ self.old ++ mul_text i.now }
    {
        self.begin_with_flags("mul", i.s);
        self.push_three(i.d, i.n, i.m);
    }

    pub(crate) fn push_mul_acc(&mut self, i: &MulAcc)
        requires { length self.old ≤ 12 }
        ensures { self.new ≡ self.old ++ mul_acc_text i.now }
    {
        self.begin(mul_acc_name(i.minus));
        self.push_three(i.d, i.n, i.m);
        self.push_next(i.a);
    }

    pub(crate) fn push_long_mul(&mut self, i: &LongMul)
        requires { length self.old ≤ 12 }
        ensures { self.new ≡ self.old ++ long_mul_text i.now }
    {
        self.begin(long_mul_name(i.op));
        self.push_three(i.lo, i.hi, i.n);
        self.push_next(i.m);
    }

    pub(crate) fn push_div(&mut self, i: &Div)
        requires { length self.old ≤ 12 }
        ensures { self.new ≡ self.old ++ div_text i.now }
    {
        self.begin(div_name(i.signed));
        self.push_three(i.d, i.n, i.m);
    }
}
