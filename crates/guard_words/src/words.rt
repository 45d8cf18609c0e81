//! Reads the words of a command line.

ghost use Rattle.std.specs.Prelude.{◌↔◌, ◌∷◌, map, codes, IsTrue, All, string_bytes, length, ◌*◌, ◌≤◌, ◌≡◌, ℕ, List, MatchOption};
ghost use Rattle.guard_words.specs.Words.{Pair, IsHarden};
ghost use Rattle.guard_words.specs.Arranged.{IsListed, AreSkippedBy};
ghost use Rattle.guard_words.specs.Commands.{IsHeadedBy, IsUnderstoodAs};

use crate::file_word::file_word;
use crate::numbers::{count_of, number_of};
use crate::options::{are_file_names, arrange};
use crate::settings::{Schedule, is_placing, placement_of, said_of, schedule_of};
use crate::tasks::{LinkCommand, RunCommand, Skipped, Task};
use clap::error::ErrorKind;
use skip_machine::Plan;
use std::alloc::Global;

/// A command, as its words say it.
#[derive(Debug, Drop)]
pub enum Command<'a> {
    /// No command.
    Unknown,
    /// A command that is carried out.
    Task(Task<'a>),
    /// A command whose plan or file word could not be read for want of memory.
    NoMemory,
}

/// The command that the words are.
pub fn command_of<'a>(alloc: Global, words: &'a [String]) -> Command<'a>
    ensures { IsUnderstoodAs (map string_bytes words.now) result }
{
    let Some((word, rest)) = words.split_first() else {
        return Command::Unknown;
    };
    let word = word.as_str();
    if word == "harden" {
        harden_of(rest)
    } else if word == "link" {
        link_of(rest)
    } else if word == "run" {
        run_of(alloc, rest)
    } else if word == "list" {
        list_of(alloc, words)
    } else if word == "make" {
        make_of(rest)
    } else {
        Command::Unknown
    }
}

/// The command that `harden` with these names is.
fn harden_of<'a>(names: &'a [String]) -> Command<'a>
    ensures { IsUnderstoodAs (codes "harden" ∷ map string_bytes names.now) result }
{
    if are_pairs(names) {
        Command::Task(Task::Harden { names })
    } else {
        Command::Unknown
    }
}

/// Whether the names are those of one to sixteen pairs of files.
fn are_pairs(names: &[String]) -> bool
    ensures { IsTrue result ↔ ((pairs : List Pair) × IsHarden (codes "harden" ∷ map string_bytes names.now) pairs) }
{
    let pairs = names.len() / 2;
    if names.len() % 2 != 0 || pairs == 0 || 16 < pairs {
        return false;
    }
    are_file_names(names)
}

/// The command that `link` with these words is.
fn link_of<'a>(words: &'a [String]) -> Command<'a>
    ensures { IsUnderstoodAs (codes "link" ∷ map string_bytes words.now) result }
{
    let Some(read) = arrange(words) else {
        return Command::Unknown;
    };
    if !is_placing(&read.options) {
        return Command::Unknown;
    }
    let Some(at) = placement_of(&read.options) else {
        return Command::Unknown;
    };
    let Some((output, inputs)) = read.files.split_first() else {
        return Command::Unknown;
    };
    if !are_inputs(inputs) {
        return Command::Unknown;
    }
    Command::Task(Task::Link(LinkCommand {
        at,
        output: output.as_str(),
        inputs,
    }))
}

/// The command that `run` with these words is.
fn run_of<'a>(alloc: Global, words: &'a [String]) -> Command<'a>
    ensures { IsUnderstoodAs (codes "run" ∷ map string_bytes words.now) result }
{
    let Some(read) = arrange(words) else {
        return Command::Unknown;
    };
    let Some(said) = said_of(&read.options) else {
        return Command::Unknown;
    };
    let Some(schedule) = schedule_of(read.options.skip, read.options.seed) else {
        return Command::Unknown;
    };
    if !are_inputs(read.files) {
        return Command::Unknown;
    }
    let Some(skipped) = skipped_by(alloc, schedule) else {
        return Command::NoMemory;
    };
    Command::Task(Task::Run(RunCommand {
        at: said.at,
        entry: said.entry,
        argument: said.argument,
        steps: said.steps,
        skipped,
        inputs: read.files,
    }))
}

/// The steps that a schedule skips, unless memory is wanting for its plan.
fn skipped_by(alloc: Global, schedule: Schedule<'_>) -> Option<Skipped>
    ensures { MatchOption result (IsListed schedule.entry) (AreSkippedBy schedule.entry) }
{
    match schedule {
        Schedule::Drawn(seed) => Some(Skipped::Drawn(seed)),
        Schedule::Listed(list) => match Plan::read(alloc, list, 2) {
            Ok(plan) => Some(Skipped::Listed(plan)),
            Err(_) => None,
        },
    }
}

/// The command that these words are, of which the first is `list`.
fn list_of<'a>(alloc: Global, words: &'a [String]) -> Command<'a>
    requires { IsHeadedBy (codes "list") (map string_bytes words.now) }
    ensures { IsUnderstoodAs (map string_bytes words.now) result }
{
    if words.len() != 2 || !are_file_names(&words[1..]) {
        return Command::Unknown;
    }
    match file_word(alloc, words) {
        Ok(Some(input)) => Command::Task(Task::List { input }),
        Ok(None) => Command::Unknown,
        Err(e) => match e.kind() {
            ErrorKind::OutOfMemory => Command::NoMemory,
            _ => Command::Unknown,
        },
    }
}

/// The command that `make` with these words is.
fn make_of<'a>(words: &'a [String]) -> Command<'a>
    ensures { IsUnderstoodAs (codes "make" ∷ map string_bytes words.now) result }
{
    let [seed, count] = words else {
        return Command::Unknown;
    };
    match (number_of(seed.as_str()), count_of(count.as_str())) {
        (Some(seed), Some(count)) => Command::Task(Task::Make { seed, count }),
        _ => Command::Unknown,
    }
}

/// Whether these are one to sixteen inputs.
fn are_inputs(files: &[String]) -> bool
    ensures { IsTrue result ↔ ((1 ≤ length files.now) × (length files.now ≤ 16)) }
{
    !files.is_empty() && files.len() <= 16
}
