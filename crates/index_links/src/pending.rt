//! A queue of indexes, each of which waits once at most.

ghost use Rattle.std.specs.Prelude.{◌≡◌, ◌<◌, ◌++◌, ◌∷◌, ◌↔◌, [], false, Contains, IfOk, IfSome, IsNone, if◌then◌else◌};
ghost use Rattle.std.specs.Option.{option_to_list};

use std::alloc::{AllocError, Global};
use std::collections::VecDeque;
use std::marker::Model;

/// Indexes that wait, the oldest first, seen as their list and the number that all lie below.
#[derive(Drop)]
pub struct Pending {
    queue: VecDeque<u32>,
    waits: Vec<bool>,
}

impl Model for Pending {
    ghost use Rattle.std.specs.Prelude.{length};
    ghost use Rattle.std.specs.VecDeque.{deque_capacity};
    ghost use Rattle.index_links.specs.Queues.{PendingParts, IsQueue};

    ghost Value = { PendingParts };

    ghost view = { λ p. record { waiting = p.queue.items; size = length p.waits.items } };

    ghost invariant = { λ p. IsQueue p.queue.items p.waits.items (deque_capacity p.queue) };
}

impl Pending {
    /// An empty queue for indexes below `size`, with the memory for all of them.
    pub fn new(alloc: Global, size: u32) -> Result<Pending, AllocError>
        ensures { IfOk result (λ p. p ≡ record { waiting = []; size = size }) }
    {
        let queue = VecDeque::with_capacity(alloc, size as usize)?;
        let waits = vec![in alloc; false; size as usize]?;
        Ok(Pending { queue, waits })
    }

    /// Puts an index behind all that wait, if it does not wait already. Whether it was put.
    pub fn put(&mut self, i: u32) -> bool
        requires { i < self.old.size }
        ensures waits { (result ≡ false) ↔ Contains self.old.waiting i }
        ensures waiting { self.new.waiting ≡ (if result then self.old.waiting ++ i ∷ [] else self.old.waiting) }
        ensures size { self.new.size ≡ self.old.size }
    {
        if self.waits[i as usize] {
            return false;
        }
        self.waits[i as usize] = true;
        self.queue.push_back_reserved(i);
        true
    }

    /// Takes the index that has waited longest.
    pub fn take(&mut self) -> Option<u32>
        ensures oldest { self.old.waiting ≡ option_to_list result ++ self.new.waiting }
        ensures empty { IsNone result ↔ (self.old.waiting ≡ []) }
        ensures small { IfSome result (λ i. i < self.old.size) }
        ensures once { IfSome result (λ i. ¬ Contains self.new.waiting i) }
        ensures size { self.new.size ≡ self.old.size }
    {
        let oldest = self.queue.pop_front();
        if let Some(i) = oldest {
            self.waits[i as usize] = false;
        }
        oldest
    }
}
