//! Inputs: their bytes and their objects.

ghost use Rattle.std.specs.Prelude.{◌≡◌, ◌<◌, ◌≤◌, ◌^◌, ℕ, List, length, map, All, IfOk, IfErr, OnOk, IsTrue, IsSome, MatchOption, string_bytes};
ghost use Rattle.guard_io.specs.Outside.{IsLoaded};
ghost use Rattle.elf_model.specs.Objects.{is_within};
ghost use Rattle.elf_read.specs.Faults.{dropped_count};
ghost use Rattle.guard_cli.specs.Inputs.{AreReadAs, IsReadRefusal, IsTooLong, IsFaulty, IsTurnedDown, at_start, in_file, deny_in};
ghost use Rattle.guard_cli.specs.LinkWork.{AreOf};
ghost use Rattle.guard_cli.specs.Moments.{files_seen, screen_seen, IsHandedOn, CountsStay, Untouched};
ghost use Rattle.guard_cli.specs.Steps.{contents_of, AddsLoaded, LoadFailsAs, LoadsFailAs};
ghost use Rattle.guard_cli.specs.Works.{inputs_of};

use crate::Ending;
use crate::finishing::{give_up, tell};
use crate::texts::read_fault_text;
use elf_model::{Deny, Limit, Object, Refusal, Spot};
use elf_read::read_object;
use guard_io::{LoadErr, Shelf, Sink};
use std::alloc::Global;

/// Loads an input, or says why it has no bytes.
pub(crate) fn load_input<S: Shelf, K: Sink>(
    alloc: Global,
    input: &str,
    most: usize,
    shelf: &mut S,
    out: &mut K,
) -> Result<Vec<u8>, Ending>
    ensures loaded { IfOk result (λ bytes. IsTrue (S.tells shelf.old) → IsLoaded (S.file shelf.old input.now) most bytes.items) }
    ensures silent { OnOk result (out.new ≡ out.old) }
    ensures untouched { let files = files_seen S.tells S.file S.steady S.load_faults S.save_faults in Untouched (files shelf.old) (files shelf.new) }
    ensures failed { let files = files_seen S.tells S.file S.steady S.load_faults S.save_faults in
        let screen = screen_seen K.tells K.written K.steady K.faults K.wants in
        IfErr result (LoadFailsAs input.now (files shelf.old) (files shelf.new) (screen out.old) (screen out.new)) }
    ensures handed_on { let files = files_seen S.tells S.file S.steady S.load_faults S.save_faults in
        let screen = screen_seen K.tells K.written K.steady K.faults K.wants in
        IsHandedOn (files shelf.old) (files shelf.new) (screen out.old) (screen out.new) }
    ensures calm { let files = files_seen S.tells S.file S.steady S.load_faults S.save_faults in
        let screen = screen_seen K.tells K.written K.steady K.faults K.wants in
        IsTrue (S.steady shelf.old) → IsTrue (K.steady out.old) → IsSome (S.file shelf.old input.now) →
        CountsStay (files shelf.old) (files shelf.new) (screen out.old) (screen out.new) }
{
    let Ok(fault) = read_fault_text(alloc, input) else {
        return Err(give_up(out));
    };
    match shelf.load(alloc, input, most) {
        Ok(bytes) => Ok(bytes),
        Err(LoadErr::Failed) => {
            tell(out, fault.as_bytes());
            Err(Ending::ReadFault)
        }
        Err(LoadErr::Memory) => Err(give_up(out)),
    }
}

/// Loads the inputs of these names in their order, behind those that are loaded, or says why one of them
/// has no bytes.
pub(crate) fn load_all<S: Shelf, K: Sink>(
    alloc: Global,
    names: &[String],
    limit: u32,
    loaded: &mut Vec<Vec<u8>>,
    shelf: &mut S,
    out: &mut K,
) -> Result<(), Ending>
    ensures loaded { OnOk result (AddsLoaded (S.tells shelf.old) (S.file shelf.old) (inputs_of limit (map string_bytes names.now))
        (contents_of loaded.old.items) (contents_of loaded.new.items)) }
    ensures silent { OnOk result (out.new ≡ out.old) }
    ensures untouched { let files = files_seen S.tells S.file S.steady S.load_faults S.save_faults in Untouched (files shelf.old) (files shelf.new) }
    ensures failed { let files = files_seen S.tells S.file S.steady S.load_faults S.save_faults in
        let screen = screen_seen K.tells K.written K.steady K.faults K.wants in
        IfErr result (LoadsFailAs (inputs_of limit (map string_bytes names.now)) (files shelf.old) (files shelf.new) (screen out.old) (screen out.new)) }
    ensures handed_on { let files = files_seen S.tells S.file S.steady S.load_faults S.save_faults in
        let screen = screen_seen K.tells K.written K.steady K.faults K.wants in
        IsHandedOn (files shelf.old) (files shelf.new) (screen out.old) (screen out.new) }
    ensures calm { let files = files_seen S.tells S.file S.steady S.load_faults S.save_faults in
        let screen = screen_seen K.tells K.written K.steady K.faults K.wants in
        IsTrue (S.steady shelf.old) → IsTrue (K.steady out.old) →
        All (λ (name : List ℕ). IsSome (S.file shelf.old name)) (map string_bytes names.now) →
        CountsStay (files shelf.old) (files shelf.new) (screen out.old) (screen out.new) }
{
    let [name, later @ ..] = names else {
        return Ok(());
    };
    let bytes = match load_input(alloc, name.as_str(), limit as usize + 1, shelf, out) {
        Ok(bytes) => bytes,
        Err(ending) => return Err(ending),
    };
    if loaded.push(bytes).is_err() {
        return Err(give_up(out));
    }
    load_all(alloc, later, limit, loaded, shelf, out)
}

/// The objects of inputs, and how many sections of each were left out.
#[derive(Debug, Drop)]
pub(crate) struct Inputs {
    pub objects: Vec<Object>,
    pub dropped: Vec<u32>,
}

/// The objects of inputs.
pub(crate) fn objects_of(alloc: Global, files: &[Vec<u8>]) -> Result<Vec<Object>, Deny>
    requires { length files.now ≤ 16 }
    ensures taken { IfOk result (λ objects. AreOf (contents_of files.now) objects.items) }
    ensures few { IfOk result (λ objects. length objects.items ≤ 16) }
    ensures within { IfOk result (λ objects. All (λ o. IsTrue (is_within o Limit.ANY)) objects.items) }
    ensures refused { IfErr result (IsTurnedDown (IsReadRefusal Limit.ANY (contents_of files.now))) }
{
    let inputs = read_inputs(alloc, files, &Limit::ANY)?;
    Ok(inputs.objects)
}

/// What is read of inputs that may have so much.
pub(crate) fn read_inputs(alloc: Global, files: &[Vec<u8>], limit: &Limit) -> Result<Inputs, Deny>
    requires few { length files.now ≤ 16 }
    requires low { limit.now.file < 2 ^ 32 }
    ensures taken { IfOk result (λ inputs. AreReadAs limit.now (contents_of files.now) inputs.objects.items) }
    ensures dropped { IfOk result (λ inputs. inputs.dropped.items ≡ map dropped_count (contents_of files.now)) }
    ensures within { IfOk result (λ inputs. All (λ o. IsTrue (is_within o limit.now)) inputs.objects.items) }
    ensures refused { IfErr result (IsTurnedDown (IsReadRefusal limit.now (contents_of files.now))) }
{
    if let Some(number) = first_too_long(files, limit) {
        return Err(Deny::Refused(in_file(number, at_start(Refusal::TooLong))));
    }
    read_all(alloc, files, limit)
}

/// The number of the first file that is longer than it may be.
fn first_too_long(files: &[Vec<u8>], limit: &Limit) -> Option<u32>
    requires { length files.now ≤ 16 }
    ensures { MatchOption result (All (λ f. length f ≤ limit.now.file) (contents_of files.now))
        (λ k. IsTooLong limit.now (contents_of files.now) (in_file k (at_start Refusal.TooLong))) }
{
    for (k, file) in files.iter().enumerate() {
        if file.len() > limit.file as usize {
            return Some(k as u32);
        }
    }
    None
}

/// What is read of files none of which is too long, or the first fault of the first that has one.
fn read_all(alloc: Global, files: &[Vec<u8>], limit: &Limit) -> Result<Inputs, Deny>
    requires few { length files.now ≤ 16 }
    requires low { limit.now.file < 2 ^ 32 }
    requires short { All (λ f. length f ≤ limit.now.file) (contents_of files.now) }
    ensures read { IfOk result (λ inputs. AreReadAs limit.now (contents_of files.now) inputs.objects.items) }
    ensures dropped { IfOk result (λ inputs. inputs.dropped.items ≡ map dropped_count (contents_of files.now)) }
    ensures refused { IfErr result (IsTurnedDown (IsFaulty limit.now (contents_of files.now))) }
{
    let mut objects = Vec::new(alloc);
    let mut dropped = Vec::new(alloc);
    for (k, file) in files.iter().enumerate() {
        match read_object(alloc, file, limit) {
            Ok(read) => {
                dropped.push(read.dropped)?;
                objects.push(read.object)?;
            }
            Err(why) => return Err(deny_in(k as u32, why)),
        }
    }
    Ok(Inputs { objects, dropped })
}

/// The same of the input of this number.
fn deny_in(number: u32, why: Deny) -> Deny
    ensures { result ≡ deny_in number why }
{
    match why {
        Deny::NoMemory => Deny::NoMemory,
        Deny::Refused(spot) => Deny::Refused(in_file(number, spot)),
    }
}

/// A place in the input of this number.
pub(crate) fn in_file(number: u32, spot: Spot) -> Spot
    ensures { result ≡ in_file number spot }
{
    Spot {
        refusal: spot.refusal,
        file: number,
        section: spot.section,
        offset: spot.offset,
    }
}

/// A refusal of a whole input, the first one.
pub(crate) fn at_start(refusal: Refusal) -> Spot
    ensures { result ≡ at_start refusal }
{
    Spot {
        refusal,
        file: 0,
        section: 0,
        offset: 0,
    }
}
