//! What `harden` makes of inputs.

ghost use Rattle.std.specs.Prelude.{◌≡◌, ◌<◌, ◌≤◌, ◌^◌, ℕ, Some, length, map, All, IfOk, IfErr, OnOk, IsTrue, slice_get, string_bytes};
ghost use Rattle.elf_model.specs.declared.objects.Section.{Section as SectionParts};
ghost use Rattle.elf_model.specs.Canonical.{canonical};
ghost use Rattle.elf_model.specs.Objects.{is_within};
ghost use Rattle.elf_model.specs.Fields.{byte_at};
ghost use Rattle.guard_words.specs.Tasks.{pairs_in};
ghost use Rattle.guard_cli.specs.Inputs.{IsTurnedDown, in_file};
ghost use Rattle.guard_cli.specs.HardenWork.{IsFirstRefusal, IsHardenInputRefusal, phase_of, harden_work};
ghost use Rattle.guard_cli.specs.Steps.{contents_of, saves_of, save_of, IsMadeBy};
ghost use Rattle.guard_cli.specs.HardenSteps.{AreHardened, CanBeSaved, all_counts, earlier, saves_by};

use crate::link::code_bytes_of;
use crate::loading::{Inputs, in_file, read_inputs};
use crate::outputs::Output;
use crate::tasks::Made;
use crate::texts::{Counts, report_text, write_fault_text};
use elf_model::{Deny, Limit, Object, Refusal, Section, Spot};
use elf_write::{has_room, write_object};
use harden_core::{Hardened, Setting, harden};
use std::alloc::{AllocError, Global};

/// Each instruction stands twice, and functions have four results.
const SETTING: Setting = Setting {
    copies: 2,
    results: 4,
};

/// The hardened files of inputs and the report on them, or why there are none.
pub(crate) fn decide(alloc: Global, names: &[String], files: &[Vec<u8>]) -> Result<Made, Deny>
    requires few { length files.now ≤ 16 }
    requires count { length files.now ≡ length (pairs_in (map string_bytes names.now)) }
    ensures made { IfOk result (IsMadeBy (harden_work (pairs_in (map string_bytes names.now))) (contents_of files.now)) }
    ensures refused { IfErr result (IsTurnedDown (IsHardenInputRefusal (contents_of files.now))) }
{
    let inputs = read_inputs(alloc, files, &Limit::INPUT)?;
    let hardened = harden_all(alloc, &inputs.objects)?;
    let outputs = outputs_of(alloc, names, &hardened)?;
    let counts = counts_of(alloc, &inputs, &hardened)?;
    let report = report_text(alloc, names, &counts)?;
    Ok(Made {
        outputs,
        report: report.into_bytes(),
        stopped: None,
    })
}

/// What is made of each object; or the refusal of the first phase that refuses one, of the lowest file.
fn harden_all(alloc: Global, objects: &[Object]) -> Result<Vec<Hardened>, Deny>
    requires few { length objects.now ≤ 16 }
    requires within { All (λ o. IsTrue (is_within o Limit.INPUT)) objects.now }
    ensures hardened { IfOk result (λ hardened. AreHardened objects.now hardened.items) }
    ensures refused { IfErr result (IsTurnedDown (IsFirstRefusal objects.now)) }
{
    let mut hardened = Vec::new(alloc);
    let mut first = None;
    for (k, object) in objects.iter().enumerate() {
        match harden(alloc, object, &SETTING) {
            Ok(made) => hardened.push(made)?,
            Err(Deny::Refused(spot)) => first = Some(earlier(first, in_file(k as u32, spot))),
            Err(Deny::NoMemory) => return Err(Deny::NoMemory),
        }
    }
    match first {
        None => Ok(hardened),
        Some(spot) => Err(Deny::Refused(spot)),
    }
}

/// The one of two refusals whose phase comes first, or else that of the lower file, `first`.
fn earlier(first: Option<Spot>, spot: Spot) -> Spot
    ensures { result ≡ earlier first spot }
{
    match first {
        None => spot,
        Some(old) => {
            if phase_of(&spot.refusal) < phase_of(&old.refusal) {
                spot
            } else {
                old
            }
        }
    }
}

/// The phase of hardening that refuses so: flow, liveness, scratch registers, layout.
fn phase_of(refusal: &Refusal) -> u32
    ensures { result ≡ phase_of refusal.now }
{
    match refusal {
        Refusal::LiveAtEntry { .. } | Refusal::LiveAtReturn { .. } => 2,
        Refusal::NoScratch { .. } => 3,
        Refusal::OutOfReach { .. } | Refusal::CodeTooBig => 4,
        _ => 1,
    }
}

/// The files of hardened objects, under the names of their outputs.
fn outputs_of(
    alloc: Global,
    names: &[String],
    hardened: &[Hardened],
) -> Result<Vec<Output>, AllocError>
    requires { length hardened.now ≡ length (pairs_in (map string_bytes names.now)) }
    ensures saves { IfOk result (λ outputs. saves_of outputs.items ≡ saves_by (pairs_in (map string_bytes names.now)) hardened.now) }
    ensures sound { OnOk result (All (λ h. CanBeSaved h.object) hardened.now) }
{
    let mut outputs = Vec::new(alloc);
    let mut rest = names;
    for made in hardened {
        let [_, name, later @ ..] = rest else {
            unreachable!();
        };
        outputs.push(output_of(alloc, name.as_str(), &made.object)?)?;
        rest = later;
    }
    Ok(outputs)
}

/// The file of a hardened object. None has no room that comes of an input within its limit: memory would be wanting for it.
fn output_of(alloc: Global, name: &str, object: &Object) -> Result<Output, AllocError>
    ensures save { IfOk result (λ o. save_of o ≡ record { name = name.now; bytes = canonical object.now }) }
    ensures sound { OnOk result (CanBeSaved object.now) }
{
    if !has_room(object) {
        return Err(AllocError);
    }
    have_bytes(object.sections());
    let bytes = write_object(alloc, object)?;
    let fault = write_fault_text(alloc, name)?;
    let name = String::from_str(alloc, name)?;
    Ok(Output { name, bytes, fault })
}

/// Bytes of sections are bytes.
fn have_bytes(sections: &[Section])
    ensures { (j : ℕ) (s : SectionParts) → slice_get sections.now j ≡ Some s → (x : ℕ) → byte_at s.bytes x < 2 ^ 8 }
{
    for section in sections {
        are_small(section.bytes.as_slice());
    }
}

/// Each of them is below 256.
fn are_small(bytes: &[u8])
    ensures { (x : ℕ) → byte_at bytes.now x < 2 ^ 8 }
{}

/// What is counted of hardened objects.
fn counts_of(
    alloc: Global,
    inputs: &Inputs,
    hardened: &[Hardened],
) -> Result<Vec<Counts>, AllocError>
    requires objects { length inputs.now.objects.items ≡ length hardened.now }
    requires dropped { length inputs.now.dropped.items ≡ length hardened.now }
    requires within { All (λ o. IsTrue (is_within o Limit.INPUT)) inputs.now.objects.items }
    requires room { All (λ h. CanBeSaved h.object) hardened.now }
    ensures { IfOk result (λ counts. counts.items ≡ all_counts inputs.now.objects.items inputs.now.dropped.items hardened.now) }
{
    let mut counts = Vec::new(alloc);
    for (k, made) in hardened.iter().enumerate() {
        counts.push(Counts {
            functions: made.functions,
            before: made.before,
            after: made.after,
            old_bytes: code_bytes_of(inputs.objects[k].sections()),
            new_bytes: code_bytes_of(made.object.sections()),
            dropped: inputs.dropped[k],
            factor: made.factor,
        })?;
    }
    Ok(counts)
}
