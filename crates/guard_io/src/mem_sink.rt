//! A sink that keeps in memory what was put, and fails where it is told to.

ghost use Rattle.std.specs.Prelude.{◌≡◌, ◌≢◌, ◌≤◌, ◌↔◌, ◌++◌, OnOk, IsTrue, true, refl};
ghost use Rattle.guard_io.specs.Memory.{new_sink, is_listed, is_steady_sink, with_bytes, with_put, with_put_fault};
ghost use Rattle.guard_io.specs.Outside.{Rose, IsPartlyPut};

use crate::counts::{is_made_to_fail, raise};
use crate::{PutErr, Sink};
use std::alloc::Global;
use std::marker::Model;

/// A sink that tells what was put. The calls that are made to fail are listed by their numbers, which
/// count all calls from 0, however they end, and stand still at 2^64 - 1.
#[derive(Drop)]
pub struct MemSink {
    bytes: Vec<u8>,
    fail: Vec<u64>,
    calls: u64,
    faults: u64,
    wants: u64,
}

impl Model for MemSink {
    ghost use Rattle.guard_io.specs.Memory.{MemorySink};

    ghost Value = { MemorySink };

    ghost view = { λ s. record {
      bytes = s.bytes.items;
      fail = s.fail.items;
      calls = s.calls;
      faults = s.faults;
      wants = s.wants;
    } };
}

impl MemSink {
    /// A sink with nothing in it, and with the numbers of the calls that fail.
    pub fn new(alloc: Global, fail: Vec<u64>) -> MemSink
        ensures { result ≡ new_sink fail.items }
    {
        MemSink {
            bytes: Vec::new(alloc),
            fail,
            calls: 0,
            faults: 0,
            wants: 0,
        }
    }

    /// What was put.
    pub fn bytes(&self) -> &[u8]
        ensures { result.now ≡ self.now.bytes }
    {
        &self.bytes
    }
}

impl Sink for MemSink {
    ghost tells = { λ _. true };

    ghost written = { λ s. s.bytes };

    ghost steady = { is_steady_sink };

    ghost faults = { λ s. s.faults };

    ghost wants = { λ s. s.wants };

    #[tactic(auto, using(crate::proofs::Calls::call_laws))]
    fn put(&mut self, bytes: &[u8]) -> Result<(), PutErr>
        ensures put { OnOk result (self.new.bytes ≡ self.old.bytes ++ bytes.now) }
        ensures part { result ≡ Err PutErr.Failed →
            IsPartlyPut self.old.bytes bytes.now self.new.bytes }
        ensures count { self.old.faults ≤ self.new.faults }
        ensures failed { result ≡ Err PutErr.Failed → Rose self.old.faults self.new.faults }
        ensures memory { result ≡ Err PutErr.Memory → self.new.bytes ≡ self.old.bytes }
        ensures memory_count { result ≡ Err PutErr.Memory → self.new.faults ≡ self.old.faults }
        ensures wants_count { self.old.wants ≤ self.new.wants }
        ensures wanted { result ≡ Err PutErr.Memory → Rose self.old.wants self.new.wants }
        ensures not_wanted { result ≢ Err PutErr.Memory → self.new.wants ≡ self.old.wants }
        ensures steady { IsTrue (is_steady_sink self.old) → IsTrue (is_steady_sink self.new) }
        ensures calm { IsTrue (is_steady_sink self.old) → result ≢ Err PutErr.Failed }
        ensures calm_count { IsTrue (is_steady_sink self.old) → self.new.faults ≡ self.old.faults }

        // It fails exactly where the call is listed, and then nothing is appended.
        ensures exactly { (result ≡ Err PutErr.Failed) ↔
            IsTrue (is_listed self.old.fail self.old.calls) }
        ensures after { OnOk result (self.new ≡ with_bytes self.old bytes.now) }
        ensures after_fault { result ≡ Err PutErr.Failed → self.new ≡ with_put_fault self.old }
        ensures after_want { result ≡ Err PutErr.Memory → self.new ≡ with_put self.old }
    {
        let call = self.calls;
        self.calls = raise(call);
        if is_made_to_fail(&self.fail, call) {
            self.faults = raise(self.faults);
            return Err(PutErr::Failed);
        }
        match self.bytes.extend_from_slice(bytes) {
            Ok(()) => Ok(()),
            Err(_) => {
                self.wants = raise(self.wants);
                Err(PutErr::Memory)
            }
        }
    }

    ghost steady_tells = { λ _ _. refl };
}
