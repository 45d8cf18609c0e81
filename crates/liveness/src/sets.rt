//! The members that are live before each point, as far as they are found.

ghost use Rattle.std.specs.Prelude.{◌≡◌, ◌≢◌, ◌<◌, ◌≤◌, ◌+◌, ◌-◌, ◌^◌, ℕ, ◌||◌, ◌↔◌, IsTrue, IfOk, true, false, length, slice_get};
ghost use Rattle.thumb_instr.specs.Operands.{has};
ghost use Rattle.flow_recover.specs.declared.flows.Point.{Point};
ghost use Rattle.liveness.specs.Paths.{Leads, NamesPoints};
ghost use Rattle.liveness.specs.Members.{HoldMembers};
ghost use Rattle.liveness.specs.Sets.{holds_at, next_holds, target_holds, successors_hold, gains, holds_after};

use crate::Boundary;
use crate::instructions::reads_members;
use crate::members::{differ, is_word, minus};
use crate::points::{always_writes, boundary_of, leaves, passes, uses_at};
use flow_recover::{Exit, Flow, Point};
use std::alloc::{AllocError, Global};
use std::marker::Model;
use thumb_instr::RegSet;

/// A set for each point, and how many turns made them.
#[derive(Debug, Drop)]
pub struct Live {
    sets: Vec<RegSet>,
    turns: u64,
}

impl Model for Live {
    ghost use Rattle.liveness.specs.Sets.{LiveParts};
    ghost use Rattle.liveness.specs.Members.{HoldMembers};

    ghost Value = { LiveParts };

    ghost view = { λ l. record { sets = l.sets.items; turns = l.turns } };

    ghost invariant = { λ l. HoldMembers l.sets.items };
}

/// The set of the next point, if there is one.
fn next_set(sets: &[RegSet], next: Option<u32>) -> RegSet
    requires { (q : ℕ) → next ≡ Some q → q < length sets.now }
    ensures { (k : ℕ) → has result.0 k ≡ next_holds sets.now next k }
{
    match next {
        None => RegSet::none(),
        Some(q) => sets[q as usize],
    }
}

/// The set of a branch's target.
fn target_set(sets: &[RegSet], exit: Exit) -> RegSet
    requires { (q : ℕ) → exit ≡ Exit.Branch q → q < length sets.now }
    ensures { (k : ℕ) → has result.0 k ≡ target_holds sets.now exit k }
{
    match exit {
        Exit::Branch(q) => sets[q as usize],
        Exit::Falls | Exit::Transfer | Exit::Call | Exit::Return | Exit::Stops => RegSet::none(),
    }
}

/// The members of the successors' sets.
fn successors(sets: &[RegSet], x: &Point) -> RegSet
    requires { (q : ℕ) → Leads x.now q → q < length sets.now }
    ensures { (k : ℕ) → has result.0 k ≡ successors_hold sets.now x.now k }
{
    next_set(sets, x.next).with(target_set(sets, x.exit))
}

/// What a turn adds to a point's set.
fn gains(b: &Boundary, sets: &[RegSet], x: &Point) -> RegSet
    requires { (q : ℕ) → Leads x.now q → q < length sets.now }
    ensures { (k : ℕ) → has result.0 k ≡ gains b.now sets.now x.now k }
{
    let passed = minus(successors(sets, x), always_writes(x)).only_if(passes(x));
    uses_at(b, x).with(passed)
}

/// An empty set for each point.
fn empty_sets(alloc: Global, points: &[Point]) -> Result<Vec<RegSet>, AllocError>
    ensures sized { IfOk result (λ sets. length sets.items ≡ length points.now) }
    ensures empty { IfOk result (λ sets. (p k : ℕ) → holds_at sets.items p k ≡ false) }
{
    let mut sets = Vec::new(alloc);
    for _x in points {
        sets.push(RegSet::none())?;
    }
    Ok(sets)
}

impl Live {
    /// An empty set for each point, and no turns.
    pub fn new(alloc: Global, f: &Flow) -> Result<Live, AllocError>
        requires { NamesPoints f.now }
        ensures sized { IfOk result (λ l. length l.sets ≡ length f.now.points) }
        ensures empty { IfOk result (λ l. (p k : ℕ) → holds_at l.sets p k ≡ false) }
        ensures turns { IfOk result (λ l. l.turns ≡ 0) }
    {
        Ok(Live {
            sets: empty_sets(alloc, f.points())?,
            turns: 0,
        })
    }

    /// Adds to the set of the point `p` what the point uses, and what its successors' sets hold and it
    /// passes on. Whether the set grew.
    pub fn settle(&mut self, f: &Flow, b: &Boundary, p: u32) -> bool
        requires more { self.old.turns < 2 ^ 64 - 1 }
        requires flow { NamesPoints f.now }
        requires sized { length self.old.sets ≡ length f.now.points }
        requires there { p < length f.now.points }
        ensures turns { self.new.turns ≡ self.old.turns + 1 }
        ensures sized { length self.new.sets ≡ length self.old.sets }
        ensures others { (q : ℕ) → q ≢ p → slice_get self.new.sets q ≡ slice_get self.old.sets q }
        ensures set { (x : Point) → slice_get f.now.points p ≡ Some x → (k : ℕ) → holds_at self.new.sets p k ≡ (holds_at self.old.sets p k || gains b.now self.old.sets x k) }
        ensures grew { IsTrue result ↔ ((k : ℕ) × (holds_at self.old.sets p k ≡ false) × (holds_at self.new.sets p k ≡ true)) }
        ensures words { (k : ℕ) → 32 ≤ k → holds_at self.new.sets p k ≡ false }
        ensures members { HoldMembers self.new.sets }
    {
        let x = f.points()[p as usize];
        reads_members(&x.instr);
        let old = self.sets[p as usize];
        let set = old.with(gains(b, &self.sets, &x));
        self.sets[p as usize] = set;
        self.turns += 1;
        is_word(set);
        differ(old, set)
    }

    /// The set of the point `p`.
    pub fn before(&self, p: u32) -> RegSet
        requires { p < length self.now.sets }
        ensures { slice_get self.now.sets p ≡ Some result }
    {
        self.sets[p as usize]
    }

    /// How many turns made the sets.
    pub fn turns(&self) -> u64
        ensures { result ≡ self.now.turns }
    {
        self.turns
    }

    /// What the sets hold after the point `p`: its boundary set where control leaves the flow, and the
    /// members of its successors' sets elsewhere.
    pub fn after(&self, f: &Flow, b: &Boundary, p: u32) -> RegSet
        requires flow { NamesPoints f.now }
        requires sized { length self.now.sets ≡ length f.now.points }
        requires there { p < length f.now.points }
        ensures { (x : Point) → slice_get f.now.points p ≡ Some x → (k : ℕ) → has result.0 k ≡ holds_after b.now self.now.sets x k }
    {
        let x = f.points()[p as usize];
        after_point(b, &self.sets, &x)
    }
}

fn after_point(b: &Boundary, sets: &[RegSet], x: &Point) -> RegSet
    requires { (q : ℕ) → Leads x.now q → q < length sets.now }
    ensures { (k : ℕ) → has result.0 k ≡ holds_after b.now sets.now x.now k }
{
    if leaves(x.exit) {
        boundary_of(b, x.exit)
    } else {
        successors(sets, x)
    }
}
