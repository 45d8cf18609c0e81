//! The edges of a graph, with what leaves and what enters each point.

ghost use Rattle.std.specs.Prelude.{◌≡◌, ◌+◌, ◌-◌, ◌<◌, ◌^◌, ◌++◌, ◌∷◌, ℕ, [], Some, IfOk, OnOk, OnErr, length, slice_get, max};
ghost use Rattle.index_links.specs.Links.{Edge, Leaves, Enters, IsFirstFrom};

use crate::chains::Chains;
use std::alloc::{AllocError, Global};
use std::marker::Model;

/// Edges in the order in which they were added, seen as their list, the number of points that they lie between, and
/// the number of edges that there is memory for.
#[derive(Drop)]
pub struct EdgeLists {
    out: Chains,
    into: Chains,
}

impl Model for EdgeLists {
    ghost use Rattle.index_links.specs.Links.{EdgeParts};
    ghost use Rattle.index_links.specs.Chains.{pairs, ArePaired};

    ghost Value = { EdgeParts };

    ghost view = { λ l. record { edges = pairs l.out.heads l.into.heads; points = l.out.size; spare = l.into.spare } };

    ghost invariant = { λ l. ArePaired l.out l.into };
}

impl EdgeLists {
    /// No edges between so many points, and no memory for edges.
    pub fn new(alloc: Global, points: u32) -> Result<EdgeLists, AllocError>
        ensures { IfOk result (λ l. l ≡ record { edges = []; points = points; spare = 0 }) }
    {
        let out = Chains::new(alloc, points)?;
        let into = Chains::new(alloc, points)?;
        Ok(EdgeLists { out, into })
    }

    /// Takes the memory for so many more edges. Where there is none, nothing changes.
    pub fn reserve(&mut self, more: u32) -> Result<(), AllocError>
        requires { length self.old.edges + more < 2 ^ 32 - 1 }
        ensures ok { OnOk result (self.new ≡ record self.old { spare = max more self.old.spare }) }
        ensures err { OnErr result (self.new ≡ self.old) }
    {
        self.out.reserve(more)?;
        self.into.reserve(more)
    }

    /// Adds an edge behind all that leave its source, and behind all that enter its target. Gives its index, the
    /// number of edges before.
    pub fn add(&mut self, from: u32, to: u32) -> u32
        requires room { 0 < self.old.spare }
        requires source { from < self.old.points }
        requires target { to < self.old.points }
        ensures index { result ≡ length self.old.edges }
        ensures edges { self.new ≡ record self.old { edges = self.old.edges ++ record { source = from; target = to } ∷ []; spare = self.old.spare - 1 } }
    {
        let _edge = self.out.add(from);
        self.into.add(to)
    }

    /// The first edge that leaves a point.
    pub fn first_out(&self, p: u32) -> Option<u32>
        requires { p < self.now.points }
        ensures { IsFirstFrom (Leaves self.now.edges p) 0 result }
    {
        self.out.first(p)
    }

    /// The next edge that leaves the source of an edge.
    pub fn next_out(&self, e: u32) -> Option<u32>
        requires { e < length self.now.edges }
        ensures { (x : Edge) → slice_get self.now.edges e ≡ Some x → IsFirstFrom (Leaves self.now.edges x.source) (e + 1) result }
    {
        self.out.next(e)
    }

    /// The first edge that enters a point.
    pub fn first_in(&self, p: u32) -> Option<u32>
        requires { p < self.now.points }
        ensures { IsFirstFrom (Enters self.now.edges p) 0 result }
    {
        self.into.first(p)
    }

    /// The next edge that enters the target of an edge.
    pub fn next_in(&self, e: u32) -> Option<u32>
        requires { e < length self.now.edges }
        ensures { (x : Edge) → slice_get self.now.edges e ≡ Some x → IsFirstFrom (Enters self.now.edges x.target) (e + 1) result }
    {
        self.into.next(e)
    }

    /// The point that an edge leaves.
    pub fn source(&self, e: u32) -> u32
        requires { e < length self.now.edges }
        ensures source { (x : Edge) → slice_get self.now.edges e ≡ Some x → result ≡ x.source }
        ensures within { result < self.now.points }
    {
        self.out.head(e)
    }

    /// The point that an edge enters.
    pub fn target(&self, e: u32) -> u32
        requires { e < length self.now.edges }
        ensures target { (x : Edge) → slice_get self.now.edges e ≡ Some x → result ≡ x.target }
        ensures within { result < self.now.points }
    {
        self.into.head(e)
    }
}
