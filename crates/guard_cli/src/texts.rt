//! What is printed.

ghost use Rattle.std.specs.Prelude.{◌≡◌, IfOk, fold, length, map, max, string_bytes};
ghost use Rattle.std.specs.List.{flat_map};
ghost use Rattle.guard_words.specs.Tasks.{pairs_in};
ghost use Rattle.guard_cli.specs.Texts.{usage_line, no_memory_line, read_fault_line, write_fault_line, refused_line, details, yes_or_no, tally_line, report, link_line, returned_line, stopped_line, unfinished_line, word_text, fault_name};
ghost use Rattle.guard_cli.specs.HardenSteps.{tally_with, tallies_with};

use elf_model::{Refusal, Spot};
use std::alloc::{AllocError, Global};
use thumb_table::FaultKind;

/// What is said of words that are no command.
pub(crate) fn usage_text() -> &'static str
    ensures { result.now ≡ usage_line }
{
    "usage: skipguard harden, link, run, list or make\n"
}

/// What is said where memory ran out.
pub(crate) fn no_memory_text() -> &'static str
    ensures { result.now ≡ no_memory_line }
{
    "no memory\n"
}

/// What is said of a file that could not be read.
pub(crate) fn read_fault_text(alloc: Global, name: &str) -> Result<String, AllocError>
    ensures { IfOk result (λ text. string_bytes text ≡ read_fault_line name.now) }
{
    format!(in alloc; "{name}: read fault\n")
}

/// What is said of a file that could not be written.
pub(crate) fn write_fault_text(alloc: Global, name: &str) -> Result<String, AllocError>
    ensures { IfOk result (λ text. string_bytes text ≡ write_fault_line name.now) }
{
    format!(in alloc; "{name}: write fault\n")
}

/// What is said of an input that is refused.
pub(crate) fn refused_text(alloc: Global, name: &str, spot: &Spot) -> Result<String, AllocError>
    ensures { IfOk result (λ text. string_bytes text ≡ refused_line name.now spot.now) }
{
    let number = spot.refusal.number();
    let title = spot.refusal.name();
    let section = spot.section;
    let offset = spot.offset;
    let more = details_text(alloc, &spot.refusal)?;
    format!(in alloc; "{name}: refused {number} {title} section {section} offset {offset}{more}\n")
}

/// What a refusal says beside its place.
fn details_text(alloc: Global, refusal: &Refusal) -> Result<String, AllocError>
    ensures { IfOk result (λ text. string_bytes text ≡ details refusal.now) }
{
    match refusal {
        Refusal::LiveAtEntry { register } | Refusal::LiveAtReturn { register } => {
            format!(in alloc; " register {register}")
        }
        Refusal::NoScratch { need, have, flags } => {
            let flags = answer_text(*flags);
            format!(in alloc; " need {need} have {have} flags {flags}")
        }
        Refusal::OutOfReach { distance } => format!(in alloc; " distance {distance}"),
        Refusal::Undefined { symbol } | Refusal::Duplicate { symbol } => {
            format!(in alloc; " symbol {symbol}")
        }
        _ => Ok(String::new(alloc)),
    }
}

fn answer_text(answer: bool) -> &'static str
    ensures { result.now ≡ yes_or_no answer }
{
    if answer { "yes" } else { "no" }
}

/// What is counted of a hardened object.
#[derive(Clone, Copy, Debug)]
pub(crate) struct Counts {
    pub functions: u32,
    pub before: u32,
    pub after: u32,
    pub old_bytes: u64,
    pub new_bytes: u64,
    pub dropped: u32,
    pub factor: u32,
}

/// The report on the outputs of pairs: the line of each, and the greatest factor.
pub(crate) fn report_text(
    alloc: Global,
    names: &[String],
    counts: &[Counts],
) -> Result<String, AllocError>
    requires { length counts.now ≡ length (pairs_in (map string_bytes names.now)) }
    ensures { IfOk result (λ text. string_bytes text ≡ report (tallies_with (pairs_in (map string_bytes names.now)) counts.now)) }
{
    let lines = lines_text(alloc, names, counts)?;
    let factor = greatest_factor(counts);
    format!(in alloc; "{lines}factor {factor}\n")
}

/// The lines of outputs.
fn lines_text(alloc: Global, names: &[String], counts: &[Counts]) -> Result<String, AllocError>
    requires { length counts.now ≡ length (pairs_in (map string_bytes names.now)) }
    ensures { IfOk result (λ text. string_bytes text ≡ flat_map tally_line (tallies_with (pairs_in (map string_bytes names.now)) counts.now)) }
{
    let mut lines = String::new(alloc);
    let mut rest = names;
    for counted in counts {
        let [_, output, later @ ..] = rest else {
            unreachable!();
        };
        let line = tally_text(alloc, output.as_str(), counted)?;
        lines.push_str(line.as_str())?;
        rest = later;
    }
    Ok(lines)
}

/// The greatest factor, at least 1.
fn greatest_factor(counts: &[Counts]) -> u32
    ensures { result ≡ fold max 1 (map (λ n. n.factor) counts.now) }
{
    let mut factor = 1;
    for counted in counts {
        factor = factor.max(counted.factor);
    }
    factor
}

/// The line of one output.
fn tally_text(alloc: Global, output: &str, counts: &Counts) -> Result<String, AllocError>
    ensures { IfOk result (λ text. string_bytes text ≡ tally_line (tally_with output.now counts.now)) }
{
    let functions = counts.functions;
    let before = counts.before;
    let after = counts.after;
    let old_bytes = counts.old_bytes;
    let new_bytes = counts.new_bytes;
    let dropped = counts.dropped;
    let factor = counts.factor;
    format!(in alloc;
        "{output}: {functions} functions, {before} -> {after} instructions, {old_bytes} -> {new_bytes} bytes, {dropped} dropped, factor {factor}\n"
    )
}

/// The line of an image that was saved.
pub(crate) fn link_text(alloc: Global, code: u64, data: u64) -> Result<String, AllocError>
    ensures { IfOk result (λ text. string_bytes text ≡ link_line code «data») }
{
    format!(in alloc; "linked {code} bytes of code, {data} bytes of data\n")
}

/// The line of a run that returned.
pub(crate) fn returned_text(
    alloc: Global,
    steps: u64,
    r0: u32,
    ordinary: bool,
) -> Result<String, AllocError>
    ensures { IfOk result (λ text. string_bytes text ≡ returned_line steps r0 ordinary) }
{
    let r0 = word_text(alloc, r0)?;
    let ordinary = answer_text(ordinary);
    format!(in alloc; "returned after {steps} steps, r0 {r0}, ordinary {ordinary}\n")
}

/// The line of a run whose step faulted.
pub(crate) fn stopped_text(
    alloc: Global,
    kind: FaultKind,
    pc: u32,
    steps: u64,
) -> Result<String, AllocError>
    ensures { IfOk result (λ text. string_bytes text ≡ stopped_line kind pc steps) }
{
    let name = fault_text(kind);
    let place = word_text(alloc, pc)?;
    format!(in alloc; "stopped {name} at {place} after {steps} steps\n")
}

/// The line of a run that used its steps.
pub(crate) fn unfinished_text(alloc: Global, steps: u64) -> Result<String, AllocError>
    ensures { IfOk result (λ text. string_bytes text ≡ unfinished_line steps) }
{
    format!(in alloc; "unfinished after {steps} steps\n")
}

/// A word, in eight hexadecimal digits.
fn word_text(alloc: Global, n: u32) -> Result<String, AllocError>
    ensures { IfOk result (λ text. string_bytes text ≡ word_text n) }
{
    format!(in alloc; "0x{n:08x}")
}

/// The name of a fault.
fn fault_text(kind: FaultKind) -> &'static str
    ensures { result.now ≡ fault_name kind }
{
    match kind {
        FaultKind::Trap => "Trap",
        FaultKind::BadAddress => "BadAddress",
        FaultKind::Unaligned => "Unaligned",
        FaultKind::BadStack => "BadStack",
        FaultKind::BadJump => "BadJump",
        FaultKind::BadFetch => "BadFetch",
        FaultKind::BadCode(_) => "BadCode",
    }
}
