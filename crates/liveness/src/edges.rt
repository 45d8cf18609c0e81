//! The edges of a flow in lists.

ghost use Rattle.std.specs.Prelude.{◌≡◌, ◌+◌, ◌*◌, ◌-◌, ◌<◌, ◌≤◌, ◌++◌, ℕ, Some, IfOk, length, map};
ghost use Rattle.std.specs.Option.{option_to_list};
ghost use Rattle.index_links.specs.Links.{Edge};
ghost use Rattle.liveness.specs.Paths.{Leads, NamesPoints};
ghost use Rattle.liveness.specs.Edges.{falls_to, branch_target, targets_of, edges_at, edges_of};

use flow_recover::{Exit, Flow, Point};
use index_links::EdgeLists;
use std::alloc::{AllocError, Global};

fn falls_to(next: Option<u32>, q: u32) -> bool
    ensures { result ≡ falls_to next q }
{
    match next {
        None => false,
        Some(n) => n == q,
    }
}

/// Where a branch leads, unless the point falls there.
fn branch_target(x: &Point) -> Option<u32>
    ensures { result ≡ branch_target x.now.next x.now.exit }
{
    match x.exit {
        Exit::Branch(q) => { if falls_to(x.next, q) { None } else { Some(q) } }
        Exit::Falls | Exit::Transfer | Exit::Call | Exit::Return | Exit::Stops => None,
    }
}

/// Adds an edge from the point `p`, if it leads somewhere.
fn add_edge(edges: &mut EdgeLists, p: u32, target: Option<u32>)
    requires room { 1 ≤ edges.old.spare }
    requires there { p < edges.old.points }
    requires target { (q : ℕ) → target ≡ Some q → q < edges.old.points }
    ensures edges { edges.new.edges ≡ edges.old.edges ++ map (λ q. record { source = p; target = q }) (option_to_list target) }
    ensures points { edges.new.points ≡ edges.old.points }
    ensures spare { edges.old.spare ≤ edges.new.spare + 1 }
{
    if let Some(q) = target {
        let _edge = edges.add(p, q);
    }
}

/// Adds the edges that leave the point `p`.
fn add_edges(edges: &mut EdgeLists, p: u32, x: &Point)
    requires room { 2 ≤ edges.old.spare }
    requires there { p < edges.old.points }
    requires targets { (q : ℕ) → Leads x.now q → q < edges.old.points }
    ensures edges { edges.new.edges ≡ edges.old.edges ++ edges_at p x.now }
    ensures points { edges.new.points ≡ edges.old.points }
    ensures spare { edges.old.spare ≤ edges.new.spare + 2 }
{
    add_edge(edges, p, x.next);
    add_edge(edges, p, branch_target(x));
}

/// The edges of a flow, with the memory for two at each point.
pub(crate) fn edges_of(alloc: Global, f: &Flow) -> Result<EdgeLists, AllocError>
    requires { NamesPoints f.now }
    ensures edges { IfOk result (λ l. l.edges ≡ edges_of f.now) }
    ensures points { IfOk result (λ l. l.points ≡ length f.now.points) }
{
    let count = f.points().len() as u32;
    let mut edges = EdgeLists::new(alloc, count)?;
    edges.reserve(2 * count)?;
    for (p, x) in f.points().iter().enumerate() {
        add_edges(&mut edges, p as u32, x);
    }
    Ok(edges)
}
