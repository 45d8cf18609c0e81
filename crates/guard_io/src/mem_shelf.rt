//! A shelf that keeps its files in memory, and fails where it is told to.

ghost use Rattle.std.specs.Prelude.{◌≡◌, ◌≢◌, ◌≤◌, ◌↔◌, ◌⊎◌, ◌<◌, ◌^◌, ℕ, Some, None, IfOk, OnOk, OnErr, take, refl, option_copied, IsTrue, IsSome, MatchOption, true, vec_len};
ghost use Rattle.guard_io.specs.Memory.{content, written, names_differ, is_named, place, new_shelf, is_listed, is_steady_shelf, content_of, FailsToLoad, with_call, with_file, with_load_fault, with_save_fault};
ghost use Rattle.guard_io.specs.Outside.{Rose, IsLoaded, SameFiles, SameOthers, IsPartlySaved};

use crate::counts::{is_made_to_fail, raise};
use crate::{LoadErr, SaveErr, Shelf};
use elf_model::{Bytes, Name};
use std::alloc::{AllocError, Global};
use std::marker::Model;

/// A file of a shelf in memory.
#[derive(Debug, Drop)]
pub struct NamedFile {
    pub name: Name,
    pub bytes: Bytes,
}

impl NamedFile {
    /// The file of this name with these bytes.
    pub fn new(name: Name, bytes: Vec<u8>) -> NamedFile
        ensures { result ≡ record { name = name; bytes = bytes.items } }
    {
        NamedFile {
            name,
            bytes: Bytes::new(bytes),
        }
    }
}

/// A shelf that tells all its files. The calls that are made to fail are listed by their numbers,
/// which count loads and saves together from 0, however they end, and stand still at 2^64 - 1.
#[derive(Drop)]
pub struct MemShelf {
    alloc: Global,
    files: Vec<NamedFile>,
    fail: Vec<u64>,
    calls: u64,
    load_faults: u64,
    save_faults: u64,
}

impl Model for MemShelf {
    ghost use Rattle.guard_io.specs.Memory.{MemoryShelf};

    ghost Value = { MemoryShelf };

    ghost view = { λ s. record {
      files = s.files.items;
      fail = s.fail.items;
      calls = s.calls;
      load_faults = s.load_faults;
      save_faults = s.save_faults;
    } };

    ghost use Rattle.std.specs.Prelude.{IsTrue};
    ghost use Rattle.guard_io.specs.Memory.{names_differ};

    ghost invariant = { λ s. IsTrue (names_differ s.files.items) };
}

/// Whether no two of the files have one name.
pub fn have_different_names(files: &[NamedFile]) -> bool
    ensures { result ≡ names_differ files.now }
{
    for i in 0..files.len() {
        if has_name(&files[i + 1..], files[i].name.bytes()) {
            return false;
        }
    }
    true
}

/// Whether one of the files has this name.
fn has_name(files: &[NamedFile], name: &[u8]) -> bool
    ensures { result ≡ is_named files.now name.now }
{
    files.iter().any(|file| file.name.bytes() == name)
}

/// Where the file of this name stands.
fn place_of(files: &[NamedFile], name: &[u8]) -> Option<usize>
    ensures { result ≡ place files.now name.now }
{
    files.iter().position(|file| file.name.bytes() == name)
}

/// A copy of the first bytes, at most so many.
fn copy_of(alloc: Global, bytes: &[u8], most: usize) -> Result<Vec<u8>, AllocError>
    ensures { IfOk result (λ copy. copy.items ≡ take most bytes.now) }
{
    if most < bytes.len() {
        Vec::from_slice(alloc, &bytes[..most])
    } else {
        Vec::from_slice(alloc, bytes)
    }
}

/// Makes the bytes the content of a file.
#[tactic(auto, using(crate::proofs::Files::place_laws, crate::proofs::Files::name_laws))]
fn write_file(
    alloc: Global,
    files: &mut Vec<NamedFile>,
    name: &[u8],
    bytes: &[u8],
) -> Result<(), AllocError>
    ensures ok { OnOk result (files.new.items ≡ written files.old.items name.now bytes.now) }
    ensures err { OnErr result (files.new.items ≡ files.old.items) }
    ensures names { IsTrue (names_differ files.old.items) → IsTrue (names_differ files.new.items) }
{
    let kept = Vec::from_slice(alloc, bytes)?;
    let file = NamedFile::new(Name::new(Vec::from_slice(alloc, name)?), kept);
    match place_of(files, name) {
        Some(i) => {
            files[i] = file;
            Ok(())
        }
        None => {
            files.push(file)?;
            Ok(())
        }
    }
}

impl MemShelf {
    /// A shelf with these files, and with the numbers of the calls that fail.
    pub fn new(alloc: Global, files: Vec<NamedFile>, fail: Vec<u64>) -> MemShelf
        requires { IsTrue (names_differ files.items) }
        ensures { result ≡ new_shelf files.items fail.items }
    {
        MemShelf {
            alloc,
            files,
            fail,
            calls: 0,
            load_faults: 0,
            save_faults: 0,
        }
    }

    /// What the file of this name holds.
    #[tactic(auto, using(crate::proofs::Files::place_laws))]
    pub fn file(&self, name: &str) -> Option<&[u8]>
        ensures { option_copied result ≡ content self.now.files name.now }
    {
        match place_of(&self.files, name.as_bytes()) {
            Some(i) => Some(self.files[i].bytes.as_slice()),
            None => None,
        }
    }
}

impl Shelf for MemShelf {
    ghost tells = { λ _. true };

    ghost file = { content_of };

    ghost steady = { is_steady_shelf };

    ghost load_faults = { λ s. s.load_faults };

    ghost save_faults = { λ s. s.save_faults };

    #[tactic(auto, using(crate::proofs::Files::place_laws, crate::proofs::Calls::call_laws))]
    fn load(&mut self, alloc: Global, name: &str, most: usize) -> Result<Vec<u8>, LoadErr>
        ensures most { IfOk result (λ bytes. vec_len bytes ≤ most) }
        ensures bytes { IfOk result
            (λ bytes. IsLoaded (content self.old.files name.now) most bytes.items) }
        ensures files { SameFiles (λ _. true) content_of self.old self.new }
        ensures count { self.old.load_faults ≤ self.new.load_faults }
        ensures saves { self.new.save_faults ≡ self.old.save_faults }
        ensures failed { result ≡ Err LoadErr.Failed →
            Rose self.old.load_faults self.new.load_faults }
        ensures memory { result ≡ Err LoadErr.Memory → self.new.load_faults ≡ self.old.load_faults }
        ensures steady { IsTrue (is_steady_shelf self.old) → IsTrue (is_steady_shelf self.new) }
        ensures present { IsTrue (is_steady_shelf self.old) →
            IsSome (content self.old.files name.now) → result ≢ Err LoadErr.Failed }
        ensures calm { IsTrue (is_steady_shelf self.old) →
            IsSome (content self.old.files name.now) → self.new.load_faults ≡ self.old.load_faults }

        // It fails exactly where the call is listed or there is no such file.
        ensures exactly { (result ≡ Err LoadErr.Failed) ↔ FailsToLoad self.old name.now }
        ensures after { OnOk result (self.new ≡ with_call self.old) }
        ensures after_fault { result ≡ Err LoadErr.Failed → self.new ≡ with_load_fault self.old }
        ensures after_want { result ≡ Err LoadErr.Memory → self.new ≡ with_call self.old }
    {
        let call = self.calls;
        self.calls = raise(call);
        if is_made_to_fail(&self.fail, call) {
            self.load_faults = raise(self.load_faults);
            return Err(LoadErr::Failed);
        }
        let Some(i) = place_of(&self.files, name.as_bytes()) else {
            self.load_faults = raise(self.load_faults);
            return Err(LoadErr::Failed);
        };
        match copy_of(alloc, self.files[i].bytes.as_slice(), most) {
            Ok(bytes) => Ok(bytes),
            Err(_) => Err(LoadErr::Memory),
        }
    }

    #[tactic(auto, using(crate::proofs::Files::write_laws, crate::proofs::Calls::call_laws))]
    fn save(&mut self, name: &str, bytes: &[u8]) -> Result<(), SaveErr>
        ensures saved { OnOk result (content self.new.files name.now ≡ Some bytes.now) }
        ensures others { SameOthers (λ _. true) content_of name.now self.old self.new }
        ensures part { result ≡ Err SaveErr.Failed →
            IsPartlySaved (content self.old.files name.now) bytes.now (content self.new.files name.now) }
        ensures count { self.old.save_faults ≤ self.new.save_faults }
        ensures loads { self.new.load_faults ≡ self.old.load_faults }
        ensures failed { result ≡ Err SaveErr.Failed →
            Rose self.old.save_faults self.new.save_faults }
        ensures memory { result ≡ Err SaveErr.Memory →
            SameFiles (λ _. true) content_of self.old self.new }
        ensures memory_count { result ≡ Err SaveErr.Memory →
            self.new.save_faults ≡ self.old.save_faults }
        ensures steady { IsTrue (is_steady_shelf self.old) → IsTrue (is_steady_shelf self.new) }
        ensures calm { IsTrue (is_steady_shelf self.old) → result ≢ Err SaveErr.Failed }
        ensures calm_count { IsTrue (is_steady_shelf self.old) →
            self.new.save_faults ≡ self.old.save_faults }

        // It fails exactly where the call is listed, and then the file is as it was.
        ensures exactly { (result ≡ Err SaveErr.Failed) ↔
            IsTrue (is_listed self.old.fail self.old.calls) }
        ensures after { OnOk result (self.new ≡ with_file self.old name.now bytes.now) }
        ensures after_fault { result ≡ Err SaveErr.Failed → self.new ≡ with_save_fault self.old }
        ensures after_want { result ≡ Err SaveErr.Memory → self.new ≡ with_call self.old }
    {
        let call = self.calls;
        self.calls = raise(call);
        if is_made_to_fail(&self.fail, call) {
            self.save_faults = raise(self.save_faults);
            return Err(SaveErr::Failed);
        }
        match write_file(self.alloc, &mut self.files, name.as_bytes(), bytes) {
            Ok(()) => Ok(()),
            Err(_) => Err(SaveErr::Memory),
        }
    }

    ghost steady_tells = { λ _ _. refl };
}
