//! What sequences need.

ghost use Rattle.std.specs.Prelude.{◌≡◌, ◌≤◌};
ghost use Rattle.thumb_instr.specs.Sets.{reads_of};
ghost use Rattle.mark_word.specs.Formulas.{one_if};
ghost use Rattle.seq_core.specs.Needs.{calls_link, changes_flags, need_of, read_destinations, registers_of};

use crate::Class;
use thumb_instr::{Instr, LongMul, Reg, reads};

/// How many scratch registers a sequence needs, and whether it changes flags that its instruction leaves.
#[derive(Clone, Copy, Debug, PartialEq, Eq)]
pub struct Need {
    pub registers: u8,
    pub flags: bool,
}

/// 1 where the instruction reads the register, else 0.
fn reads_it(i: &Instr, d: Reg) -> u8
    ensures { result ≡ one_if (reads_of i.now d) }
{
    if reads(i).has(d) { 1 } else { 0 }
}

/// How many destinations of an instruction it reads.
fn read_destinations(i: &Instr) -> u8
    ensures { result ≡ read_destinations i.now }
{
    match i {
        Instr::Alu(x) => reads_it(i, x.d),
        Instr::Move(x) => reads_it(i, x.d),
        Instr::ShiftBy(x) => reads_it(i, x.d),
        Instr::Wide(x) => reads_it(i, x.d),
        Instr::Field(x) => reads_it(i, x.d),
        Instr::Unary(x) => reads_it(i, x.d),
        Instr::Mul(x) => reads_it(i, x.d),
        Instr::MulAcc(x) => reads_it(i, x.d),
        Instr::LongMul(x) => reads_it(i, x.lo) + reads_it(i, x.hi),
        Instr::Div(x) => reads_it(i, x.d),
        Instr::Access(x) => reads_it(i, x.t),
        _ => 0,
    }
}

/// Whether the instruction calls by the register in which it puts the return address.
fn calls_link(i: &Instr) -> bool
    ensures { result ≡ calls_link i.now }
{
    match i {
        Instr::CallReg(i) => i.m.number() == 14,
        _ => false,
    }
}

fn registers_of(class: Class, i: &Instr) -> u8
    ensures { result ≡ registers_of class i.now }
{
    match class {
        Class::Twice | Class::DirectCall | Class::RegisterJump | Class::ZeroBranch => 0,
        Class::Through => read_destinations(i),
        Class::ThroughFlags | Class::WriteBack | Class::BaseCopy => 1,
        Class::Push | Class::Pop | Class::PopReturn | Class::SpStep | Class::MultiBack => 1,
        Class::LongSum => 3,
        Class::RegisterCall => { if calls_link(i) { 1 } else { 0 } }
    }
}

/// What the sequence of an instruction of the class needs.
pub fn need_of(class: Class, i: &Instr) -> Need
    ensures { result ≡ need_of class i.now }
{
    Need {
        registers: registers_of(class, i),
        flags: matches!(class, Class::LongSum),
    }
}
