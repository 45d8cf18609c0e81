//! Chains of indexes, one for each head.

ghost use Rattle.std.specs.Prelude.{◌≡◌, ◌+◌, ◌-◌, ◌<◌, ◌^◌, ◌++◌, ◌∷◌, ℕ, [], IfOk, OnOk, OnErr, length, slice_get, replicate, None, max};
ghost use Rattle.index_links.specs.Links.{IsFirstFrom};
ghost use Rattle.index_links.specs.Chains.{Belongs, firsts_with, nexts_with};

use std::alloc::{AllocError, Global};
use std::marker::Model;

/// Links in the order in which they were added, each in the chain of its head.
#[derive(Drop)]
pub(crate) struct Chains {
    heads: Vec<u32>,
    nexts: Vec<Option<u32>>,
    firsts: Vec<Option<u32>>,
    lasts: Vec<Option<u32>>,
    spare: u32,
}

impl Model for Chains {
    ghost use Rattle.std.specs.Prelude.{length};
    ghost use Rattle.std.specs.Vec.{vec_capacity};
    ghost use Rattle.index_links.specs.Chains.{ChainParts, AreChains, HasRoom};

    ghost Value = { ChainParts };

    ghost view = { λ l. record { heads = l.heads.items; size = length l.firsts.items; spare = l.spare } };

    ghost invariant = { λ l. AreChains l.heads.items l.nexts.items l.firsts.items l.lasts.items × HasRoom (length l.heads.items) l.spare (vec_capacity l.heads) × HasRoom (length l.heads.items) l.spare (vec_capacity l.nexts) };
}

/// No link, for each head.
fn no_links(alloc: Global, size: u32) -> Result<Vec<Option<u32>>, AllocError>
    ensures { IfOk result (λ v. v.items ≡ replicate size None) }
{
    let mut links = Vec::new(alloc);
    for _head in 0..size {
        links.push(None)?;
    }
    Ok(links)
}

/// A chain with no link yet begins with this one.
fn begin(firsts: &mut [Option<u32>], head: u32, last: Option<u32>, link: u32)
    requires { head < length firsts.old }
    ensures { firsts.new ≡ firsts_with firsts.old head last link }
{
    if last.is_none() {
        firsts[head as usize] = Some(link);
    }
}

/// The last link of a chain leads to the new one.
fn go_on(nexts: &mut [Option<u32>], last: Option<u32>, link: u32)
    requires { (e : ℕ) → last ≡ Some e → e < length nexts.old }
    ensures { nexts.new ≡ nexts_with nexts.old last link }
{
    if let Some(e) = last {
        nexts[e as usize] = Some(link);
    }
}

impl Chains {
    /// Empty chains of so many heads.
    pub(crate) fn new(alloc: Global, size: u32) -> Result<Chains, AllocError>
        ensures { IfOk result (λ l. l ≡ record { heads = []; size = size; spare = 0 }) }
    {
        Ok(Chains {
            heads: Vec::new(alloc),
            nexts: Vec::new(alloc),
            firsts: no_links(alloc, size)?,
            lasts: no_links(alloc, size)?,
            spare: 0,
        })
    }

    /// Takes the memory for more links.
    pub(crate) fn reserve(&mut self, more: u32) -> Result<(), AllocError>
        requires { length self.old.heads + more < 2 ^ 32 - 1 }
        ensures ok { OnOk result (self.new ≡ record self.old { spare = max more self.old.spare }) }
        ensures err { OnErr result (self.new ≡ self.old) }
    {
        if more > self.spare {
            self.heads.reserve(more as usize)?;
            self.nexts.reserve(more as usize)?;
            self.spare = more;
        }
        Ok(())
    }

    /// Adds a link behind the others of its head's chain, and gives its index.
    pub(crate) fn add(&mut self, head: u32) -> u32
        requires room { 0 < self.old.spare }
        requires there { head < self.old.size }
        ensures index { result ≡ length self.old.heads }
        ensures links { self.new ≡ record self.old { heads = self.old.heads ++ head ∷ []; spare = self.old.spare - 1 } }
    {
        let link = self.heads.len() as u32;
        let last = self.lasts[head as usize];
        self.heads.push_reserved(head);
        self.nexts.push_reserved(None);
        begin(&mut self.firsts, head, last, link);
        go_on(&mut self.nexts, last, link);
        self.lasts[head as usize] = Some(link);
        self.spare -= 1;
        link
    }

    /// The first link of a head's chain.
    pub(crate) fn first(&self, head: u32) -> Option<u32>
        requires { head < self.now.size }
        ensures { IsFirstFrom (Belongs self.now.heads head) 0 result }
    {
        self.firsts[head as usize]
    }

    /// The link behind another one in its chain.
    pub(crate) fn next(&self, link: u32) -> Option<u32>
        requires { link < length self.now.heads }
        ensures { (h : ℕ) → Belongs self.now.heads h link → IsFirstFrom (Belongs self.now.heads h) (link + 1) result }
    {
        self.nexts[link as usize]
    }

    /// The head of a link's chain.
    pub(crate) fn head(&self, link: u32) -> u32
        requires { link < length self.now.heads }
        ensures head { Belongs self.now.heads result link }
        ensures within { result < self.now.size }
    {
        self.heads[link as usize]
    }
}
