//! What `run` makes of inputs: a call of a function of their image.

ghost use Rattle.std.specs.Prelude.{◌≡◌, ◌≤◌, [], length, IfOk, IfErr, string_bytes};
ghost use Rattle.std.specs.Option.{option_to_list};
ghost use Rattle.thumb_table.specs.Layouts.{IsPlacement};
ghost use Rattle.thumb_table.specs.Calls.{start};
ghost use Rattle.skip_machine.specs.Machines.{CanRun};
ghost use Rattle.guard_words.specs.Tasks.{skips_by, run_words};
ghost use Rattle.guard_cli.specs.Inputs.{IsTurnedDown};
ghost use Rattle.guard_cli.specs.MachineRuns.{AreSkippedOf, IsRunRefusal, run_line, run_work};
ghost use Rattle.guard_cli.specs.Steps.{contents_of, IsFinished, IsFinishedBy, IsMadeBy, stopped_by};

use crate::loading::{at_start, objects_of};
use crate::tasks::{Made, saying};
use crate::texts::{returned_text, stopped_text, unfinished_text};
use elf_model::{Deny, Refusal};
use flat_link::link;
use guard_words::{RunCommand, Skipped};
use skip_machine::{Machine, Outcome, Plan};
use std::alloc::{AllocError, Global};
use thumb_table::Image;

/// What comes of a run of a function of the inputs' image, or why there is none.
pub(crate) fn decide(
    alloc: Global,
    command: &RunCommand<'_>,
    files: &[Vec<u8>],
) -> Result<Made, Deny>
    requires placement { IsPlacement command.now.at }
    requires steps { command.now.steps ≤ 10000000 }
    requires few { length files.now ≤ 16 }
    ensures made { IfOk result (IsMadeBy (run_work (run_words command.now)) (contents_of files.now)) }
    ensures refused { let c = command.now in IfErr result (IsTurnedDown (IsRunRefusal c.at c.entry.now (contents_of files.now))) }
{
    let objects = objects_of(alloc, files)?;
    let image = link(alloc, &objects, &command.at)?;
    let Some(entry) = image.entry(command.entry.as_bytes()) else {
        return Err(Deny::Refused(at_start(Refusal::NoEntry)));
    };
    let finished = run_command(alloc, &image, entry, command)?;
    let line = run_text(alloc, &finished)?;
    Ok(saying(alloc, line.into_bytes(), stopped_by(finished.outcome)))
}

/// The end of a run that did not return.
fn stopped_by(outcome: Outcome) -> Option<Outcome>
    ensures { result ≡ stopped_by outcome }
{
    match outcome {
        Outcome::Returned => None,
        _ => Some(outcome),
    }
}

/// How a run ended: after how many steps, with which number in r0, and whether each executed step was
/// ordinary.
#[derive(Clone, Copy, Debug)]
pub(crate) struct Finished {
    pub outcome: Outcome,
    pub steps: u64,
    pub r0: u32,
    pub ordinary: bool,
}

/// Runs a function of an image as a command says.
fn run_command(
    alloc: Global,
    image: &Image,
    entry: u32,
    command: &RunCommand<'_>,
) -> Result<Finished, AllocError>
    requires can { CanRun image.now command.now.at.stack }
    requires steps { command.now.steps ≤ 10000000 }
    ensures { let c = command.now in
        IfOk result (IsFinishedBy image.now (AreSkippedOf c.steps (skips_by c.skipped)) c.steps (start image.now c.at.stack entry (option_to_list c.argument))) }
{
    match &command.skipped {
        Skipped::Listed(plan) => run_plan(alloc, image, entry, command, plan),
        Skipped::Drawn(seed) => {
            let plan = Plan::drawn(alloc, *seed, command.steps, 2)?;
            run_plan(alloc, image, entry, command, &plan)
        }
    }
}

/// Runs a function of an image as a command says, under a plan.
fn run_plan(
    alloc: Global,
    image: &Image,
    entry: u32,
    command: &RunCommand<'_>,
    plan: &Plan,
) -> Result<Finished, AllocError>
    requires can { CanRun image.now command.now.at.stack }
    requires steps { command.now.steps ≤ 10000000 }
    ensures { let c = command.now in
        IfOk result (IsFinished image.now plan.now c.steps (start image.now c.at.stack entry (option_to_list c.argument))) }
{
    let stack = command.at.stack;
    let steps = command.steps;
    match command.argument {
        None => run_image(alloc, image, stack, entry, &[], steps, plan),
        Some(argument) => run_image(alloc, image, stack, entry, &[argument], steps, plan),
    }
}

/// Runs a function of an image.
fn run_image(
    alloc: Global,
    image: &Image,
    stack: u32,
    entry: u32,
    arguments: &[u32],
    steps: u64,
    plan: &Plan,
) -> Result<Finished, AllocError>
    requires can { CanRun image.now stack }
    requires few { length arguments.now ≤ 4 }
    requires steps { steps ≤ 10000000 }
    ensures { IfOk result (IsFinished image.now plan.now steps (start image.now stack entry arguments.now)) }
{
    let mut machine = Machine::new(alloc, image, stack)?;
    machine.start(entry, arguments);
    let outcome = machine.run(steps, plan);
    Ok(Finished {
        outcome,
        steps: machine.steps(),
        r0: machine.registers().r[0].bits(),
        ordinary: machine.is_ordinary(),
    })
}

/// The line that says how a run ended.
fn run_text(alloc: Global, f: &Finished) -> Result<String, AllocError>
    ensures { IfOk result (λ text. string_bytes text ≡ run_line f.now.outcome f.now.steps f.now.r0 f.now.ordinary) }
{
    match f.outcome {
        Outcome::Returned => returned_text(alloc, f.steps, f.r0, f.ordinary),
        Outcome::Fault(kind, pc) => stopped_text(alloc, kind, pc, f.steps),
        Outcome::Unfinished => unfinished_text(alloc, f.steps),
    }
}
