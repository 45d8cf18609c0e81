//! A command that is carried out, and what is made of its inputs.

ghost use Rattle.std.specs.Prelude.{◌≡◌, IfOk, IfErr, [], ◌∷◌, length, map, string_bytes};
ghost use Rattle.guard_words.specs.Tasks.{pairs_in};
ghost use Rattle.guard_cli.specs.Inputs.{IsTurnedDown};
ghost use Rattle.guard_cli.specs.Steps.{names_by, limit_by, work_by, HasFewInputs, IsSound, contents_of, IsMadeBy, IsSaving, IsSaying};

use crate::outputs::Output;
use crate::texts::write_fault_text;
use crate::{harden, link, list, make, run};
use elf_model::{Deny, Limit};
use guard_words::Task;
use skip_machine::Outcome;
use std::alloc::{AllocError, Global};

/// What is made of inputs: the outputs in the order in which they are saved, what is said, and how a
/// run ended that did not return.
#[derive(Debug, Drop)]
pub(crate) struct Made {
    pub outputs: Vec<Output>,
    pub report: Vec<u8>,
    pub stopped: Option<Outcome>,
}

/// One file that is saved, and the report on it.
pub(crate) fn saving(
    alloc: Global,
    name: &str,
    bytes: Vec<u8>,
    report: String,
) -> Result<Made, AllocError>
    ensures { IfOk result (IsSaving name.now bytes.items (string_bytes report)) }
{
    let mut outputs = Vec::new(alloc);
    let fault = write_fault_text(alloc, name)?;
    let name = String::from_str(alloc, name)?;
    outputs.push(Output { name, bytes, fault })?;
    Ok(Made {
        outputs,
        report: report.into_bytes(),
        stopped: None,
    })
}

/// What is said where no file is saved.
pub(crate) fn saying(alloc: Global, report: Vec<u8>, stopped: Option<Outcome>) -> Made
    ensures { IsSaying report.items stopped result }
{
    Made {
        outputs: Vec::new(alloc),
        report,
        stopped,
    }
}

/// The inputs of a command, by their names.
pub(crate) fn names_of(alloc: Global, task: &Task<'_>) -> Result<Vec<String>, AllocError>
    ensures { IfOk result (λ names. map string_bytes names.items ≡ names_by task.now) }
{
    match task {
        Task::Harden { names } => input_names(alloc, names),
        Task::Link(command) => all_names(alloc, command.inputs),
        Task::Run(command) => all_names(alloc, command.inputs),
        Task::List { input } => one_name(alloc, input),
        Task::Make { .. } => Ok(Vec::new(alloc)),
    }
}

fn one_name(alloc: Global, name: &str) -> Result<Vec<String>, AllocError>
    ensures { IfOk result (λ names. map string_bytes names.items ≡ name.now ∷ []) }
{
    Ok(vec![in alloc; String::from_str(alloc, name)?]?)
}

fn all_names(alloc: Global, names: &[String]) -> Result<Vec<String>, AllocError>
    ensures { IfOk result (λ copied. map string_bytes copied.items ≡ map string_bytes names.now) }
{
    let mut copied = Vec::new(alloc);
    for name in names {
        copied.push(String::from_str(alloc, name.as_str())?)?;
    }
    Ok(copied)
}

/// The inputs of pairs, whose names stand in turn.
fn input_names(alloc: Global, names: &[String]) -> Result<Vec<String>, AllocError>
    ensures { IfOk result (λ copied. map string_bytes copied.items ≡ map (λ p. p.input) (pairs_in (map string_bytes names.now))) }
{
    let mut copied = Vec::new(alloc);
    let mut rest = names;
    while let [input, _, later @ ..] = rest {
        copied.push(String::from_str(alloc, input.as_str())?)?;
        rest = later;
    }
    Ok(copied)
}

/// How many bytes each input may have.
pub(crate) fn limit_of(task: &Task<'_>) -> u32
    ensures { result ≡ limit_by task.now }
{
    match task {
        Task::Harden { .. } => Limit::INPUT.file,
        _ => Limit::ANY.file,
    }
}

/// What is made of inputs of these bytes, or why there is nothing.
pub(crate) fn decide(alloc: Global, task: &Task<'_>, files: &[Vec<u8>]) -> Result<Made, Deny>
    requires sound { IsSound task.now }
    requires inputs { HasFewInputs task.now }
    requires count { length files.now ≡ length (names_by task.now) }
    ensures made { IfOk result (IsMadeBy (work_by task.now) (contents_of files.now)) }
    ensures refused { let w = work_by task.now in IfErr result (IsTurnedDown (w.Refuses (contents_of files.now))) }
{
    match task {
        Task::Harden { names } => harden::decide(alloc, names, files),
        Task::Link(command) => link::decide(alloc, command, files),
        Task::Run(command) => run::decide(alloc, command, files),
        Task::List { .. } => list::decide(alloc, &files[0]),
        Task::Make { seed, count } => Ok(make::decide(alloc, *seed, *count)?),
    }
}
