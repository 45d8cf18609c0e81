//! What is printed.

ghost use Rattle.std.specs.Prelude.{◌≡◌, IfOk, string_bytes};
ghost use Rattle.make_run.specs.Lines.{word_text};
ghost use Rattle.make_run.specs.MakeTexts.{made_line, hardened_line, plain_run_line, hardened_run_line, same_line, make_report};
ghost use Rattle.make_run.specs.MakeSteps.{tally_of};

use std::alloc::{AllocError, Global};

/// A word, in eight hexadecimal digits.
///
/// # Errors
///
/// Where memory runs out.
pub fn word_text(alloc: Global, n: u32) -> Result<String, AllocError>
    ensures { IfOk result (λ text. string_bytes text ≡ word_text n) }
{
    format!(in alloc; "0x{n:08x}")
}

/// The numbers in the report.
#[derive(Clone, Copy, Debug)]
pub(crate) struct Tally {
    pub functions: u32,
    pub old_bytes: u64,
    pub new_bytes: u64,
    pub factor: u32,
    pub steps: u64,
    pub r0: u32,
    pub hard_steps: u64,
    pub skips: u64,
    pub hard_r0: u32,
}

/// The report, with its last line.
pub(crate) fn report_text(alloc: Global, t: &Tally, last: &str) -> Result<String, AllocError>
    requires { last.now ≡ same_line }
    ensures { IfOk result (λ text. string_bytes text ≡ make_report (tally_of t.now)) }
{
    let made = made_text(alloc, t)?;
    let hardened = hardened_text(alloc, t)?;
    let plain = plain_run_text(alloc, t)?;
    let hard = hardened_run_text(alloc, t)?;
    format!(in alloc; "{made}{hardened}{plain}{hard}{last}")
}

fn made_text(alloc: Global, t: &Tally) -> Result<String, AllocError>
    ensures { IfOk result (λ text. string_bytes text ≡ made_line (tally_of t.now)) }
{
    let functions = t.functions;
    let bytes = t.old_bytes;
    format!(in alloc; "made {functions} functions, {bytes} bytes of code\n")
}

fn hardened_text(alloc: Global, t: &Tally) -> Result<String, AllocError>
    ensures { IfOk result (λ text. string_bytes text ≡ hardened_line (tally_of t.now)) }
{
    let bytes = t.new_bytes;
    let factor = t.factor;
    format!(in alloc; "hardened {bytes} bytes of code, factor {factor}\n")
}

fn plain_run_text(alloc: Global, t: &Tally) -> Result<String, AllocError>
    ensures { IfOk result (λ text. string_bytes text ≡ plain_run_line (tally_of t.now)) }
{
    let steps = t.steps;
    let r0 = word_text(alloc, t.r0)?;
    format!(in alloc; "plain {steps} steps, r0 {r0}\n")
}

fn hardened_run_text(alloc: Global, t: &Tally) -> Result<String, AllocError>
    ensures { IfOk result (λ text. string_bytes text ≡ hardened_run_line (tally_of t.now)) }
{
    let steps = t.hard_steps;
    let skips = t.skips;
    let r0 = word_text(alloc, t.hard_r0)?;
    format!(in alloc; "hardened {steps} steps, {skips} skips, r0 {r0}\n")
}
