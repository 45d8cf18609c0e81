//! Texts that are plans, which are found without memory.

ghost use Rattle.std.specs.Prelude.{◌≡◌, ◌↔◌, ◌<◌, ◌≤◌, ◌^◌, ℕ, List, length, IsTrue, MatchOption};
ghost use Rattle.skip_machine.specs.Plans.{IsPlanText};
ghost use Rattle.skip_machine.specs.Paces.{run_with, behind, IsNext};

use crate::decimals::decimal_of;

/// How a plan goes on: no step below `least` comes, and `run` consecutive steps end just before it.
#[derive(Clone, Copy, Debug)]
struct Pace {
    least: u64,
    run: u8,
}

/// Whether a text is a plan that is legal for so many copies.
pub fn is_plan(text: &str, copies: u8) -> bool
    requires { 2 ≤ copies }
    ensures { IsTrue result ↔ ((steps : List ℕ) × IsPlanText copies text.now steps) }
{
    text.is_empty() || are_steps(text, copies)
}

/// Whether a text is steps with a comma between, of which none stand in too long a row.
fn are_steps(text: &str, copies: u8) -> bool
    requires some { 0 < length text.now }
    requires low { 2 ≤ copies }
    ensures { IsTrue result ↔ ((steps : List ℕ) × IsPlanText copies text.now steps) }
{
    let mut pace = Pace { least: 0, run: 0 };
    let mut rest = text;
    'parts: while let Some((part, later)) = rest.split_once(',') {
        match next_step(part, pace, copies) {
            Some(step) => {
                pace = behind(pace, step);
                rest = later;
            }
            None => return false,
        }
    }
    next_step(rest, pace, copies).is_some()
}

/// The step that a text is, where it may come next.
fn next_step(text: &str, pace: Pace, copies: u8) -> Option<u64>
    requires { pace.run < copies }
    ensures { MatchOption result ((n : ℕ) → IsNext copies pace text.now n → ⊥) (IsNext copies pace text.now) }
{
    let step = decimal_of(text)?;
    if step < pace.least || 0x8000_0000_0000_0000 <= step || copies <= run_with(pace, step) {
        return None;
    }
    Some(step)
}

/// How many consecutive steps end with this one.
fn run_with(pace: Pace, step: u64) -> u8
    requires { pace.run < 255 }
    ensures { result ≡ run_with pace step }
{
    if step == pace.least { pace.run + 1 } else { 1 }
}

/// How a plan goes on behind this step.
fn behind(pace: Pace, step: u64) -> Pace
    requires run { pace.run < 255 }
    requires small { step < 2 ^ 63 }
    ensures { result ≡ behind pace step }
{
    Pace {
        least: step + 1,
        run: run_with(pace, step),
    }
}
