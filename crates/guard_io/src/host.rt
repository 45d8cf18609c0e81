//! Real files and the standard output. Of these no content is told, and each error is counted.

ghost use Rattle.std.specs.Prelude.{◌≡◌, ◌≢◌, ◌≤◌, ℕ, false, None, IfOk, OnOk, OnErr, IsTrue, IsSome, vec_len, []};
ghost use Rattle.std.specs.Io.KnownBytes.{Appends};
ghost use Rattle.guard_io.specs.Host.{with_failed_load, with_failed_save, AreFirstLeft, AppendsPart};
ghost use Rattle.guard_io.specs.Memory.{raised};
ghost use Rattle.guard_io.specs.Outside.{Rose};

use crate::counts::raise;
use crate::{LoadErr, PutErr, SaveErr, Shelf, Sink};
use std::alloc::Global;
use std::fs;
use std::io::{Read, Write};
use std::marker::Model;
use std::rt::Files;

/// An error outside the program.
#[derive(Drop)]
struct Fault;

/// Reads the first bytes, at most so many, in as many pieces as it takes.
fn read_front<S: Read>(source: &mut S, alloc: Global, most: usize) -> Result<Vec<u8>, LoadErr>
    ensures most { IfOk result (λ bytes. vec_len bytes ≤ most) }
    ensures bytes { IfOk result (λ bytes. AreFirstLeft (S.remaining source.old) most bytes.items) }
{
    let mut bytes = Vec::new(alloc);
    let mut piece = [0u8; 4096];
    while bytes.len() < most {
        let room = (most - bytes.len()).min(piece.len());
        let Ok(count) = source.read(&mut piece[..room]) else {
            return Err(LoadErr::Failed);
        };
        if count == 0 {
            break;
        }
        if bytes.extend_from_slice(&piece[..count]).is_err() {
            return Err(LoadErr::Memory);
        }
    }
    Ok(bytes)
}

/// Writes all the bytes, in as many pieces as it takes.
fn write_whole<W: Write>(out: &mut W, bytes: &[u8]) -> Result<(), Fault>
    ensures ok { OnOk result (Appends (W.contents out.old) (W.contents out.new) bytes.now) }
    ensures err { OnErr result (AppendsPart (W.contents out.old) (W.contents out.new) bytes.now) }
{
    let mut done = 0;
    while done < bytes.len() {
        let Ok(count) = out.write(&bytes[done..]) else {
            return Err(Fault);
        };
        if count == 0 {
            return Err(Fault);
        }
        done += count;
    }
    match out.flush() {
        Ok(()) => Ok(()),
        Err(_) => Err(Fault),
    }
}

/// The first bytes of a file.
fn read_file<R: Files>(rt: &R, alloc: Global, name: &str, most: usize) -> Result<Vec<u8>, LoadErr>
    ensures { IfOk result (λ bytes. vec_len bytes ≤ most) }
{
    match fs::open(rt, name) {
        Ok(mut file) => read_front(&mut file, alloc, most),
        Err(_) => Err(LoadErr::Failed),
    }
}

/// Makes the bytes the content of a file.
fn write_file<R: Files>(rt: &R, name: &str, bytes: &[u8]) -> Result<(), Fault> {
    match fs::create(rt, name) {
        Ok(mut file) => write_whole(&mut file, bytes),
        Err(_) => Err(Fault),
    }
}

/// The files of the system.
#[derive(Drop)]
pub struct HostShelf<R> {
    rt: R,
    load_faults: u64,
    save_faults: u64,
}

impl<R> Model for HostShelf<R> {
    ghost use Rattle.guard_io.specs.Host.{FaultCounts};

    ghost Value = { FaultCounts };

    ghost view = { λ s. record { loads = s.load_faults; saves = s.save_faults } };
}

impl<R: Files> HostShelf<R> {
    /// The files that the runtime reaches.
    pub fn new(rt: R) -> HostShelf<R>
        ensures { result ≡ record { loads = 0; saves = 0 } }
    {
        HostShelf {
            rt,
            load_faults: 0,
            save_faults: 0,
        }
    }
}

impl<R: Files> Shelf for HostShelf<R> {
    ghost tells = { λ _. false };

    ghost file = { λ _ _. None };

    ghost steady = { λ _. false };

    ghost load_faults = { λ s. s.loads };

    ghost save_faults = { λ s. s.saves };

    fn load(&mut self, alloc: Global, name: &str, most: usize) -> Result<Vec<u8>, LoadErr>
        ensures most { IfOk result (λ bytes. vec_len bytes ≤ most) }
        ensures count { self.old.loads ≤ self.new.loads }
        ensures saves { self.new.saves ≡ self.old.saves }
        ensures failed { result ≡ Err LoadErr.Failed → Rose self.old.loads self.new.loads }
        ensures memory { result ≡ Err LoadErr.Memory → self.new.loads ≡ self.old.loads }

        // No count rises but for a call that fails.
        ensures after { OnOk result (self.new ≡ self.old) }
        ensures after_fault { result ≡ Err LoadErr.Failed → self.new ≡ with_failed_load self.old }
        ensures after_want { result ≡ Err LoadErr.Memory → self.new ≡ self.old }
    {
        match read_file(&self.rt, alloc, name, most) {
            Ok(bytes) => Ok(bytes),
            Err(LoadErr::Memory) => Err(LoadErr::Memory),
            Err(LoadErr::Failed) => {
                self.load_faults = raise(self.load_faults);
                Err(LoadErr::Failed)
            }
        }
    }

    fn save(&mut self, name: &str, bytes: &[u8]) -> Result<(), SaveErr>
        ensures count { self.old.saves ≤ self.new.saves }
        ensures loads { self.new.loads ≡ self.old.loads }
        ensures failed { result ≡ Err SaveErr.Failed → Rose self.old.saves self.new.saves }
        ensures never_memory { result ≢ Err SaveErr.Memory }

        // No count rises but for a call that fails.
        ensures after { OnOk result (self.new ≡ self.old) }
        ensures after_fault { result ≡ Err SaveErr.Failed → self.new ≡ with_failed_save self.old }
    {
        match write_file(&self.rt, name, bytes) {
            Ok(()) => Ok(()),
            Err(Fault) => {
                self.save_faults = raise(self.save_faults);
                Err(SaveErr::Failed)
            }
        }
    }

    ghost steady_tells = { λ _ steady. steady };
}

/// Output through a writer, as that of the standard output.
#[derive(Drop)]
pub struct HostSink<W> {
    out: W,
    faults: u64,
}

impl<W: Write> HostSink<W> {
    /// Output through this writer.
    pub fn new(out: W) -> HostSink<W>
        ensures { result ≡ record { out = out; faults = 0 } }
    {
        HostSink { out, faults: 0 }
    }
}

impl<W: Write> Sink for HostSink<W> {
    ghost tells = { λ _. false };

    ghost written = { λ _. [] };

    ghost steady = { λ _. false };

    ghost faults = { λ s. s.faults };

    // A put takes no memory.
    ghost wants = { λ _. 0 };

    fn put(&mut self, bytes: &[u8]) -> Result<(), PutErr>
        ensures count { self.old.faults ≤ self.new.faults }
        ensures failed { result ≡ Err PutErr.Failed → Rose self.old.faults self.new.faults }
        ensures never_memory { result ≢ Err PutErr.Memory }

        // The count does not rise but for a call that fails.
        ensures after { OnOk result (self.new.faults ≡ self.old.faults) }
        ensures after_fault { result ≡ Err PutErr.Failed →
            self.new.faults ≡ raised self.old.faults }

        // What is known of the writer's bytes grows by the bytes, or by a first part of them.
        ensures whole { OnOk result
            (Appends (W.contents self.old.out) (W.contents self.new.out) bytes.now) }
        ensures first_part { OnErr result
            (AppendsPart (W.contents self.old.out) (W.contents self.new.out) bytes.now) }
    {
        match write_whole(&mut self.out, bytes) {
            Ok(()) => Ok(()),
            Err(Fault) => {
                self.faults = raise(self.faults);
                Err(PutErr::Failed)
            }
        }
    }

    ghost steady_tells = { λ _ steady. steady };
}
