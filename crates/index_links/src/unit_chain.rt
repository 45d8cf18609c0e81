//! An order of units that others are put between.

ghost use Rattle.std.specs.Prelude.{◌≡◌, ◌+◌, ◌-◌, ◌<◌, ◌^◌, ◌++◌, ◌∷◌, ℕ, List, [], None, IfOk, OnOk, OnErr, length, max};
ghost use Rattle.std.specs.Option.{option_to_list};
ghost use Rattle.index_links.specs.Orders.{written, end_with, last_of, first_of, IsBetween};
ghost use Rattle.index_links.specs.Queues.{times};

use std::alloc::{AllocError, Global};
use std::marker::Model;

/// Units by indexes that stay, seen as the list of these in the order of the units, and the number of units that
/// there is memory for.
#[derive(Drop)]
pub struct UnitChain {
    befores: Vec<Option<u32>>,
    afters: Vec<Option<u32>>,
    first: Option<u32>,
    last: Option<u32>,
    spare: u32,
}

impl Model for UnitChain {
    ghost use Rattle.std.specs.Prelude.{length};
    ghost use Rattle.std.specs.Vec.{vec_capacity};
    ghost use Rattle.index_links.specs.Chains.{HasRoom};
    ghost use Rattle.index_links.specs.Orders.{UnitParts, IsOrder, walk};

    ghost Value = { UnitParts };

    ghost view = { λ l. record { order = walk l.afters.items l.first (length l.afters.items); spare = l.spare } };

    ghost invariant = { λ l. IsOrder l.befores.items l.afters.items l.first l.last (walk l.afters.items l.first (length l.afters.items)) × HasRoom (length l.befores.items) l.spare (vec_capacity l.befores) × HasRoom (length l.afters.items) l.spare (vec_capacity l.afters) };
}

/// A unit's link leads to another one.
fn write(links: &mut [Option<u32>], at: Option<u32>, unit: u32)
    requires { (u : ℕ) → at ≡ Some u → u < length links.old }
    ensures { links.new ≡ written links.old at unit }
{
    if let Some(u) = at {
        links[u as usize] = Some(unit);
    }
}

/// The unit at an end, where another one comes beside this neighbour.
fn end_with(end: Option<u32>, neighbour: Option<u32>, unit: u32) -> Option<u32>
    ensures { result ≡ end_with end neighbour unit }
{
    if neighbour.is_none() { Some(unit) } else { end }
}

impl UnitChain {
    /// No units, and no memory for any.
    pub fn new(alloc: Global) -> Result<UnitChain, AllocError>
        ensures { IfOk result (λ l. l ≡ record { order = []; spare = 0 }) }
    {
        Ok(UnitChain {
            befores: Vec::new(alloc),
            afters: Vec::new(alloc),
            first: None,
            last: None,
            spare: 0,
        })
    }

    /// Takes the memory for so many more units. Where there is none, nothing changes.
    pub fn reserve(&mut self, more: u32) -> Result<(), AllocError>
        requires { length self.old.order + more < 2 ^ 32 - 1 }
        ensures ok { OnOk result (self.new ≡ record self.old { spare = max more self.old.spare }) }
        ensures err { OnErr result (self.new ≡ self.old) }
    {
        if more > self.spare {
            self.befores.reserve(more as usize)?;
            self.afters.reserve(more as usize)?;
            self.spare = more;
        }
        Ok(())
    }

    /// Puts a unit between two neighbours.
    fn put_between(&mut self, before: Option<u32>, after: Option<u32>) -> u32
        requires room { 0 < self.old.spare }
        requires there { IsBetween self.old.order before after }
        ensures index { result ≡ length self.old.order }
        ensures order { (front back : List ℕ) → self.old.order ≡ front ++ back → before ≡ last_of None front → after ≡ first_of back None → self.new.order ≡ front ++ result ∷ back }
        ensures long { length self.new.order ≡ length self.old.order + 1 }
        ensures spare { self.new.spare ≡ self.old.spare - 1 }
    {
        let unit = self.afters.len() as u32;
        self.befores.push_reserved(before);
        self.afters.push_reserved(after);
        write(&mut self.afters, before, unit);
        write(&mut self.befores, after, unit);
        self.first = end_with(self.first, before, unit);
        self.last = end_with(self.last, after, unit);
        self.spare -= 1;
        unit
    }

    /// Puts a unit behind all others, and gives its index, the number of units before.
    pub fn push_back(&mut self) -> u32
        requires { 0 < self.old.spare }
        ensures index { result ≡ length self.old.order }
        ensures order { self.new.order ≡ self.old.order ++ result ∷ [] }
        ensures spare { self.new.spare ≡ self.old.spare - 1 }
    {
        let last = self.last;
        self.put_between(last, None)
    }

    /// Puts a unit directly behind another one, and gives its index, the number of units before.
    pub fn insert_after(&mut self, at: u32) -> u32
        requires room { 0 < self.old.spare }
        requires there { at < length self.old.order }
        ensures index { result ≡ length self.old.order }
        ensures order { (front back : List ℕ) → self.old.order ≡ front ++ at ∷ back → self.new.order ≡ front ++ at ∷ (result ∷ back) }
        ensures long { length self.new.order ≡ length self.old.order + 1 }
        ensures spare { self.new.spare ≡ self.old.spare - 1 }
    {
        let next = self.afters[at as usize];
        self.put_between(Some(at), next)
    }

    /// The first unit. Each index below the number of units stands in the order once.
    pub fn first(&self) -> Option<u32>
        ensures first { result ≡ first_of self.now.order None }
        ensures once { (u : ℕ) → u < length self.now.order → times u self.now.order ≡ 1 }
    {
        self.first
    }

    /// The unit behind another one.
    pub fn after(&self, at: u32) -> Option<u32>
        requires { at < length self.now.order }
        ensures { (front back : List ℕ) → self.now.order ≡ front ++ at ∷ back → result ≡ first_of back None }
    {
        self.afters[at as usize]
    }

    /// The unit in front of another one.
    pub fn before(&self, at: u32) -> Option<u32>
        requires { at < length self.now.order }
        ensures { (front back : List ℕ) → self.now.order ≡ front ++ at ∷ back → result ≡ last_of None front }
    {
        self.befores[at as usize]
    }
}
