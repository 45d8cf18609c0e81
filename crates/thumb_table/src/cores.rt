//! The processor's registers and flags.

ghost use Rattle.std.specs.Prelude.{◌≡◌};
ghost use Rattle.thumb_instr.specs.Blocks.{it_after as it_after_of};
ghost use Rattle.thumb_table.specs.States.{is_askew, read};
ghost use Rattle.thumb_table.specs.Conditions.{holds};
ghost use Rattle.thumb_table.specs.Steps.{takes_effect};
ghost use Rattle.thumb_table.specs.CoreStates.{alone};

use mark_word::Word;
use thumb_instr::{Cond, Reg, block_condition, it_after};

/// r0 to r12, sp and lr; pc; the flags; the IT state (ARMv7-M ARM, B1.4).
#[derive(Clone, Copy, Debug)]
pub struct Core {
    pub r: [Word; 15],
    pub pc: u32,
    pub n: bool,
    pub z: bool,
    pub c: bool,
    pub v: bool,
    pub it: u8,
}

impl Core {
    /// The word of a register.
    pub(crate) fn word(&self, r: Reg) -> Word
        ensures { result ≡ read (alone self.now) r }
    {
        self.r[r.number() as usize]
    }
}

/// Whether a condition holds (ARMv7-M ARM, A7.3).
pub(crate) fn holds(cond: Cond, s: &Core) -> bool
    ensures { result ≡ holds cond (alone s.now) }
{
    match cond {
        Cond::Eq => s.z,
        Cond::Ne => !s.z,
        Cond::Cs => s.c,
        Cond::Cc => !s.c,
        Cond::Mi => s.n,
        Cond::Pl => !s.n,
        Cond::Vs => s.v,
        Cond::Vc => !s.v,
        Cond::Hi => s.c && !s.z,
        Cond::Ls => !(s.c && !s.z),
        Cond::Ge => s.n == s.v,
        Cond::Lt => !(s.n == s.v),
        Cond::Gt => !s.z && s.n == s.v,
        Cond::Le => !(!s.z && s.n == s.v),
        Cond::Al => true,
    }
}

/// Whether an instruction takes effect: outside of a block, or under a condition that holds.
pub(crate) fn takes_effect(s: &Core) -> bool
    ensures { result ≡ takes_effect (alone s.now) }
{
    holds(block_condition(s.it), s)
}

/// Whether a write would make sp no multiple of 4.
pub(crate) fn is_askew(d: Reg, w: Word) -> bool
    ensures { result ≡ is_askew (d, w) }
{
    d.number() == 13 && w.bits() % 4 != 0
}

/// Falls to the next instruction.
pub(crate) fn fall(next: u32, s: &mut Core)
    ensures { s.new ≡ record s.old { pc = next; it = it_after_of s.old.it } }
{
    s.pc = next;
    s.it = it_after(s.it);
}
