//! The texts of loads, stores and addresses of code.

ghost use Rattle.std.specs.Prelude.{◌≡◌, ◌≤◌, ◌++◌, length};
ghost use Rattle.thumb_text.specs.Listing.{access_text, pair_text, multi_text, literal_text, adr_text};

use crate::Line;
use crate::names::{access_name, multi_name, pair_name};
use crate::operands::{beside, pair_place};
use thumb_instr::{Access, Adr, Literal, Multi, Pair};

impl Line {
    pub(crate) fn push_access(&mut self, i: &Access)
        requires { length self.old ≤ 12 }
        ensures { self.new ≡ self.old ++ access_text i.now }
    {
        self.begin(access_name(i.op));
        self.push_register(i.t);
        self.push_comma();
        self.push_memory(i.n, i.place);
    }

    pub(crate) fn push_pair(&mut self, i: &Pair)
        requires { length self.old ≤ 12 }
        ensures { self.new ≡ self.old ++ pair_text i.now }
    {
        self.begin(pair_name(i.load));
        self.push_two(i.t, i.u);
        self.push_comma();
        self.push_memory(i.n, pair_place(i.index, i.up, i.imm));
    }

    pub(crate) fn push_multi(&mut self, i: &Multi)
        requires { length self.old ≤ 10 }
        ensures { self.new ≡ self.old ++ multi_text i.now }
    {
        self.begin(multi_name(i.load, i.down));
        self.push_base(i.n, i.back);
        self.push_comma();
        self.push_list(&i.list, i.pc);
    }

    pub(crate) fn push_literal(&mut self, i: &Literal, at: u32)
        requires { length self.old ≤ 12 }
        ensures { self.new ≡ self.old ++ literal_text i.now at }
    {
        self.begin("ldr");
        self.push_register(i.t);
        self.push_comma();
        self.push_address(beside(at, i.up, i.imm));
    }

    pub(crate) fn push_adr(&mut self, i: &Adr, at: u32)
        requires { length self.old ≤ 12 }
        ensures { self.new ≡ self.old ++ adr_text i.now at }
    {
        self.begin("adr");
        self.push_register(i.d);
        self.push_comma();
        self.push_address(beside(at, i.up, i.imm));
    }
}
