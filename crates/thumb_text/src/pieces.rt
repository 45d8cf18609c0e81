//! Registers, numbers and addresses, and what stands between operands.

ghost use Rattle.std.specs.Prelude.{◌≡◌, ◌+◌, ◌<◌, ◌≤◌, ◌++◌, codes, length};
ghost use Rattle.std.specs.Fmt.{decimal};
ghost use Rattle.thumb_text.specs.Names.{register, flag_mark};
ghost use Rattle.thumb_text.specs.Pieces.{hex_word, numeral, directed, address, base};

use crate::Line;
use thumb_instr::Reg;

impl Line {
    /// Appends a name, and the space before operands.
    pub(crate) fn begin(&mut self, name: &str)
        requires { length self.old + length name.now ≤ 79 }
        ensures text { self.new ≡ self.old ++ (name.now ++ codes " ") }
        ensures short { length self.new ≤ length self.old + length name.now + 1 }
    {
        self.push_text(name);
        self.push(b' ');
    }

    /// Appends a name, `s` where flags are set, and the space before operands.
    pub(crate) fn begin_with_flags(&mut self, name: &str, s: bool)
        requires { length self.old + length name.now ≤ 78 }
        ensures text { self.new ≡ self.old ++ (name.now ++ flag_mark s ++ codes " ") }
        ensures short { length self.new ≤ length self.old + length name.now + 2 }
    {
        self.push_text(name);
        if s {
            self.push(b's');
        }
        self.push(b' ');
    }

    /// Appends what stands between operands.
    pub(crate) fn push_comma(&mut self)
        requires { length self.old ≤ 78 }
        ensures text { self.new ≡ self.old ++ codes ", " }
        ensures short { length self.new ≤ length self.old + 2 }
    {
        self.push_text(", ");
    }

    /// Appends the name of a register.
    pub(crate) fn push_register(&mut self, r: Reg)
        requires { length self.old ≤ 77 }
        ensures text { self.new ≡ self.old ++ register r }
        ensures short { length self.new ≤ length self.old + 3 }
        ensures shorter { r < 10 → length self.new ≤ length self.old + 2 }
    {
        let number = r.number();
        if number == 13 {
            self.push_text("sp");
        } else if number == 14 {
            self.push_text("lr");
        } else {
            self.push(b'r');
            self.push_small(u32::from(number));
        }
    }

    /// Appends a further register.
    pub(crate) fn push_next(&mut self, r: Reg)
        requires { length self.old ≤ 60 }
        ensures text { self.new ≡ self.old ++ (codes ", " ++ register r) }
        ensures short { length self.new ≤ length self.old + 5 }
    {
        self.push_comma();
        self.push_register(r);
    }

    /// Appends two registers.
    pub(crate) fn push_two(&mut self, d: Reg, n: Reg)
        requires { length self.old ≤ 50 }
        ensures text { self.new ≡ self.old ++ (register d ++ (codes ", " ++ register n)) }
        ensures short { length self.new ≤ length self.old + 8 }
    {
        self.push_register(d);
        self.push_next(n);
    }

    /// Appends three registers.
    pub(crate) fn push_three(&mut self, d: Reg, n: Reg, m: Reg)
        requires { length self.old ≤ 50 }
        ensures text { self.new ≡ self.old
            ++ (register d ++ ((codes ", " ++ register n) ++ (codes ", " ++ register m))) }
        ensures short { length self.new ≤ length self.old + 13 }
    {
        self.push_two(d, n);
        self.push_next(m);
    }

    /// Appends a base register, which is marked where it moves.
    pub(crate) fn push_base(&mut self, n: Reg, back: bool)
        requires { length self.old ≤ 50 }
        ensures text { self.new ≡ self.old ++ base n back }
        ensures short { length self.new ≤ length self.old + 4 }
    {
        self.push_register(n);
        if back {
            self.push(b'!');
        }
    }

    /// Appends a number.
    pub(crate) fn push_number(&mut self, n: u32)
        requires { length self.old ≤ 60 }
        ensures text { self.new ≡ self.old ++ numeral n }
        ensures short { length self.new ≤ length self.old + 11 }
    {
        self.push(b'#');
        self.push_decimal(n);
    }

    /// Appends a number upwards or downwards; downwards 0 has its sign too.
    pub(crate) fn push_directed(&mut self, up: bool, n: u32)
        requires { length self.old ≤ 60 }
        ensures text { self.new ≡ self.old ++ directed up n }
        ensures short { length self.new ≤ length self.old + 12 }
    {
        if up {
            self.push_number(n);
        } else {
            self.push_text("#-");
            self.push_decimal(n);
        }
    }

    /// Appends an address of code.
    pub(crate) fn push_address(&mut self, at: u32)
        requires { length self.old ≤ 60 }
        ensures text { self.new ≡ self.old ++ address at }
        ensures short { length self.new ≤ length self.old + 10 }
    {
        self.push_text("0x");
        self.push_word(at);
    }
}
