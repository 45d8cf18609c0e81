//! Set operations, by members.

ghost use Rattle.std.specs.Prelude.{◌≡◌, ◌≢◌, ◌<◌, ◌≤◌, ℕ, ◌&&◌, ◌↔◌, IsTrue, not, true, false};
ghost use Rattle.thumb_instr.specs.Operands.{has};

use bitflags::Flags;
use thumb_instr::RegSet;

/// The members of the first that the second has not.
pub(crate) fn minus(a: RegSet, b: RegSet) -> RegSet
    ensures { (k : ℕ) → has result.0 k ≡ (has a.0 k && not (has b.0 k)) }
{
    a.with(b).symmetric_difference(b)
}

/// Whether a number, at most 31, is a member.
pub(crate) fn is_member(a: RegSet, k: u8) -> bool
    requires { k < 32 }
    ensures { result ≡ has a.0 k }
{
    (a.bits() >> k) % 2 == 1
}

/// Whether the second has a member that the first has not, all of the first's being in it too.
pub(crate) fn differ(a: RegSet, b: RegSet) -> bool
    requires { (k : ℕ) → has a.0 k ≡ true → has b.0 k ≡ true }
    ensures { IsTrue result ↔ ((k : ℕ) × (has a.0 k ≡ false) × (has b.0 k ≡ true)) }
{
    a.bits() != b.bits()
}

/// A set has no member from 32 on.
pub(crate) fn is_word(a: RegSet)
    ensures { (k : ℕ) → 32 ≤ k → has a.0 k ≡ false }
{
    let _bits = a.bits();
}
