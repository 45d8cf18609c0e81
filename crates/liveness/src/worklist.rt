//! Points that wait to be settled, until none does.

ghost use Rattle.std.specs.Prelude.{◌≡◌, ◌+◌, ◌<◌, ◌≤◌, ◌==◌, ◌^◌, ℕ, Some, Contains, IfOk, count_by, length, slice_get};
ghost use Rattle.index_links.specs.Links.{Edge};
ghost use Rattle.liveness.specs.Paths.{NamesPoints};
ghost use Rattle.liveness.specs.Edges.{edges_of};
ghost use Rattle.liveness.specs.Work.{IsWorking, AreSettled};

use crate::edges::edges_of;
use crate::{Boundary, Live};
use flow_recover::Flow;
use index_links::{EdgeLists, Pending};
use std::alloc::{AllocError, Global};

/// All points wait.
fn all_pending(alloc: Global, count: u32) -> Result<Pending, AllocError>
    ensures size { IfOk result (λ w. w.size ≡ count) }
    ensures all { IfOk result (λ w. (p : ℕ) → p < count → Contains w.waiting p) }
    ensures few { IfOk result (λ w. length w.waiting ≤ count) }
{
    let mut pending = Pending::new(alloc, count)?;
    for p in 0..count {
        let _put = pending.put(p);
    }
    Ok(pending)
}

/// The sources of the edges that enter a point wait.
fn put_sources(pending: &mut Pending, edges: &EdgeLists, p: u32)
    requires there { p < edges.now.points }
    requires points { pending.old.size ≡ edges.now.points }
    ensures size { pending.new.size ≡ pending.old.size }
    ensures kept { (q : ℕ) → Contains pending.old.waiting q → Contains pending.new.waiting q }
    ensures put { (x : Edge) → Contains edges.now.edges x → x.target ≡ p → Contains pending.new.waiting x.source }
    ensures few { length pending.new.waiting ≤ length pending.old.waiting + count_by (λ x. x.target == p) edges.now.edges }
{
    let mut edge = edges.first_in(p);
    while let Some(e) = edge {
        let _put = pending.put(edges.source(e));
        edge = edges.next_in(e);
    }
}

/// Settles the points that wait, and whoever leads to one whose set grew. No memory is taken.
fn work(sets: &mut Live, pending: &mut Pending, edges: &EdgeLists, f: &Flow, b: &Boundary)
    requires flow { NamesPoints f.now }
    requires edges { edges.now.edges ≡ edges_of f.now }
    requires points { edges.now.points ≡ length f.now.points }
    requires start { IsWorking f.now b.now sets.old pending.old }
    ensures { AreSettled f.now b.now sets.new }
{
    while let Some(p) = pending.take() {
        if sets.settle(f, b, p) {
            put_sources(pending, edges, p);
        }
    }
}

/// The sets that no turn changes.
pub(crate) fn settled(alloc: Global, f: &Flow, b: &Boundary) -> Result<Live, AllocError>
    requires { NamesPoints f.now }
    ensures { IfOk result (λ l. AreSettled f.now b.now l) }
{
    let edges = edges_of(alloc, f)?;
    let mut pending = all_pending(alloc, f.points().len() as u32)?;
    let mut sets = Live::new(alloc, f)?;
    work(&mut sets, &mut pending, &edges, f, b);
    Ok(sets)
}
