//! The registers of a list.

ghost use Rattle.std.specs.Prelude.{◌≡◌, ◌+◌, ◌<◌, ◌≤◌, ◌||◌, ◌++◌, [], codes, length, true, false, MatchOption, if◌then◌else◌};
ghost use Rattle.thumb_instr.specs.Operands.{has};
ghost use Rattle.thumb_text.specs.Names.{register};
ghost use Rattle.thumb_text.specs.Pieces.{separated, names_of, has_any, transferred};

use crate::Line;
use thumb_instr::{Reg, RegSet};

/// The register of a number, if a set has it.
fn member(list: &RegSet, number: u8) -> Option<Reg>
    requires { number ≤ 14 }
    ensures { MatchOption result (has list.now.0 number ≡ false)
        (λ r. (r ≡ number) × (has list.now.0 number ≡ true)) }
{
    match Reg::new(number) {
        Some(r) => { if list.has(r) { Some(r) } else { None } }
        None => None,
    }
}

impl Line {
    /// Appends what stands between registers, unless none came before.
    fn push_separator(&mut self, some: bool)
        requires { length self.old ≤ 79 }
        ensures text { self.new ≡ self.old ++ (if some then codes "," else []) }
        ensures short { length self.new ≤ length self.old + 1 }
    {
        if some {
            self.push(b',');
        }
    }

    /// Appends the register of a number, if a set has it, where `some` says whether one came before;
    /// whether one has come now.
    fn push_member(&mut self, list: &RegSet, number: u8, some: bool) -> bool
        requires register { number ≤ 14 }
        requires room { length self.old ≤ 76 }
        ensures text { self.new ≡ self.old
            ++ (if has list.now.0 number then (if some then codes "," else []) ++ register number else []) }
        ensures some { result ≡ (some || has list.now.0 number) }
        ensures short { length self.new ≤ length self.old + 4 }
        ensures shorter { number < 10 → length self.new ≤ length self.old + 3 }
    {
        match member(list, number) {
            Some(r) => {
                self.push_separator(some);
                self.push_register(r);
                true
            }
            None => some,
        }
    }

    /// Appends the names of the registers of a set; whether there is one.
    fn push_members(&mut self, list: &RegSet) -> bool
        requires { length self.old ≤ 23 }
        ensures text { self.new ≡ self.old ++ separated (codes ",") (names_of list.now.0 15) }
        ensures some { result ≡ has_any (names_of list.now.0 15) }
        ensures short { length self.new ≤ length self.old + 50 }
    {
        let mut some = false;
        for number in 0..15 {
            some = self.push_member(list, number, some);
        }
        some
    }

    /// Appends the registers that words are transferred of or to.
    pub(crate) fn push_list(&mut self, list: &RegSet, pc: bool)
        requires { length self.old ≤ 22 }
        ensures { self.new ≡ self.old ++ transferred list.now.0 pc }
    {
        self.push(b'{');
        let some = self.push_members(list);
        if pc {
            self.push_separator(some);
            self.push_text("pc");
        }
        self.push(b'}');
    }
}
