//! What stands in the way of sets that are settled.

ghost use Rattle.std.specs.Prelude.{◌≡◌, ◌<◌, ◌++◌, IfOk, OnOk, All, Contains, length, slice_get, Some, ℕ};
ghost use Rattle.liveness.specs.Paths.{NamesPoints};
ghost use Rattle.liveness.specs.Spots.{first_member, entry_spot, is_call, first_after, spot_at_call, call_spot, picked, all_spots};

use crate::Live;
use crate::members::is_member;
use code_ranges::spot_of;
use elf_model::{Refusal, Spot};
use flow_recover::{Exit, Flow, Point};
use std::alloc::{AllocError, Global};
use thumb_instr::RegSet;

// r12 and the flags, and these with lr.
const UNSET_AT_ENTRY: [u8; 5] = [12, 16, 17, 18, 19];

const LOST_IN_CALL: [u8; 6] = [12, 14, 16, 17, 18, 19];

/// The first of some numbers that is a member.
fn first_member(set: RegSet, among: &[u8]) -> Option<u8>
    requires { All (λ k. k < 32) among.now }
    ensures { result ≡ first_member among.now set }
{
    for k in among {
        if is_member(set, *k) {
            return Some(*k);
        }
    }
    None
}

/// The lowest member that an entry must not have live.
fn entry_spot(f: &Flow, sets: &Live, p: u32) -> Option<Spot>
    requires sized { length sets.now.sets ≡ length f.now.points }
    requires there { p < length f.now.points }
    ensures { result ≡ entry_spot f.now.points sets.now.sets p }
{
    let x = f.points()[p as usize];
    match first_member(sets.before(p), &UNSET_AT_ENTRY) {
        None => None,
        Some(register) => Some(spot_of(Refusal::LiveAtEntry { register }, x.section, x.offset)),
    }
}

fn is_call(exit: Exit) -> bool
    ensures { result ≡ is_call exit }
{
    matches!(exit, Exit::Call)
}

/// The lowest member that a call must not have live where it returns to.
fn first_after(sets: &Live, next: Option<u32>) -> Option<u8>
    requires { (q : ℕ) → next ≡ Some q → q < length sets.now.sets }
    ensures { result ≡ first_after sets.now.sets next }
{
    match next {
        None => None,
        Some(q) => first_member(sets.before(q), &LOST_IN_CALL),
    }
}

fn call_spot(sets: &Live, x: &Point) -> Option<Spot>
    requires { (q : ℕ) → x.now.next ≡ Some q → q < length sets.now.sets }
    ensures { result ≡ call_spot sets.now.sets x.now }
{
    if !is_call(x.exit) {
        return None;
    }
    match first_after(sets, x.next) {
        None => None,
        Some(register) => Some(spot_of(Refusal::LiveAtReturn { register }, x.section, x.offset)),
    }
}

fn push_entries(spots: &mut Vec<Spot>, f: &Flow, sets: &Live) -> Result<(), AllocError>
    requires flow { NamesPoints f.now }
    requires sized { length sets.now.sets ≡ length f.now.points }
    ensures { OnOk result (spots.new.items ≡ spots.old.items ++ picked (entry_spot f.now.points sets.now.sets) f.now.entries) }
{
    for p in f.entries() {
        if let Some(spot) = entry_spot(f, sets, *p) {
            spots.push(spot)?;
        }
    }
    Ok(())
}

fn push_calls(spots: &mut Vec<Spot>, f: &Flow, sets: &Live) -> Result<(), AllocError>
    requires flow { NamesPoints f.now }
    requires sized { length sets.now.sets ≡ length f.now.points }
    ensures { OnOk result (spots.new.items ≡ spots.old.items ++ picked (call_spot sets.now.sets) f.now.points) }
{
    for x in f.points() {
        if let Some(spot) = call_spot(sets, x) {
            spots.push(spot)?;
        }
    }
    Ok(())
}

/// All that stands in the way, in no order.
pub(crate) fn spots_of(alloc: Global, f: &Flow, sets: &Live) -> Result<Vec<Spot>, AllocError>
    requires flow { NamesPoints f.now }
    requires sized { length sets.now.sets ≡ length f.now.points }
    ensures { IfOk result (λ spots. spots.items ≡ all_spots f.now sets.now.sets) }
{
    let mut spots = Vec::new(alloc);
    push_entries(&mut spots, f, sets)?;
    push_calls(&mut spots, f, sets)?;
    Ok(spots)
}
