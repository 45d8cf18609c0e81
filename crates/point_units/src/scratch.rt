//! Which registers the sequence of an instruction may spoil.

ghost use Rattle.std.specs.Prelude.{◌≡◌, ◌<◌, ◌≤◌, ◌++◌, ◌||◌, ℕ, All, IfOk, OnOk};
ghost use Rattle.thumb_instr.specs.Operands.{has};
ghost use Rattle.thumb_instr.specs.Sets.{reads_of, writes_of};
ghost use Rattle.liveness.specs.Spots.{picked};
ghost use Rattle.point_units.specs.Scratch.{has_live_flag, scratch_of};
ghost use Rattle.point_units.specs.Spots.{free_in};

use bitflags::Flags;
use std::alloc::{AllocError, Global};
use thumb_instr::{Instr, Reg, RegSet, reads, writes};

// The order in which they are chosen.
const ORDER: [u8; 13] = [12, 0, 1, 2, 3, 4, 5, 6, 7, 8, 9, 10, 11];

/// What is live, read or written.
fn busy(i: &Instr, live: RegSet) -> RegSet
    ensures { (k : ℕ) → has result.0 k ≡ (has live.0 k || (reads_of i.now k || writes_of i.now k)) }
{
    live.with(reads(i).with(writes(i)))
}

fn free_register(busy: RegSet, n: u8) -> Option<Reg>
    requires { n ≤ 14 }
    ensures { result ≡ free_in busy n }
{
    match Reg::new(n) {
        Some(r) if !busy.has(r) => Some(r),
        _ => None,
    }
}

/// Adds those of some registers that are not busy.
fn push_free(free: &mut Vec<Reg>, busy: RegSet, order: &[u8]) -> Result<(), AllocError>
    requires { All (λ n. n ≤ 14) order.now }
    ensures { OnOk result (free.new.items ≡ free.old.items ++ picked (free_in busy) order.now) }
{
    for n in order {
        if let Some(r) = free_register(busy, *n) {
            free.push(r)?;
        }
    }
    Ok(())
}

/// The registers of r0 to r12 that are dead behind an instruction which neither reads nor writes them, in the
/// order in which they are chosen.
pub(crate) fn scratch_of(alloc: Global, i: &Instr, live: RegSet) -> Result<Vec<Reg>, AllocError>
    ensures { IfOk result (λ v. v.items ≡ scratch_of (has live.0) i.now) }
{
    let mut free = Vec::new(alloc);
    push_free(&mut free, busy(i, live), &ORDER)?;
    Ok(free)
}

/// Whether a number, at most 31, is a member.
fn is_member(set: RegSet, k: u8) -> bool
    requires { k < 32 }
    ensures { result ≡ has set.0 k }
{
    (set.bits() >> k) % 2 == 1
}

/// Whether one of the four flags is live.
pub(crate) fn has_live_flag(live: RegSet) -> bool
    ensures { result ≡ has_live_flag (has live.0) }
{
    is_member(live, 16) || is_member(live, 17) || is_member(live, 18) || is_member(live, 19)
}
