//! Plans: which steps are skipped.

ghost use Rattle.std.specs.Prelude.{◌≡◌, ◌≤◌, ℕ, List, IfOk};
ghost use Rattle.thumb_table.specs.Schedules.{is_in, IsLegal};
ghost use Rattle.skip_machine.specs.Draws.{IsDrawn};
ghost use Rattle.skip_machine.specs.Plans.{IsPlanText};

use crate::draws::drawn_steps;
use crate::plan_texts::is_plan;
use crate::texts::numbers;
use std::alloc::{AllocError, Global};
use std::marker::Model;
use thiserror::Error;

/// Why a text is no plan.
#[derive(Clone, Copy, Debug, PartialEq, Eq, Error)]
pub enum PlanErr {
    #[error("no memory")]
    NoMemory,
    #[error("not a plan")]
    Bad,
}

/// The numbers of the steps that are skipped, seen as their list.
#[derive(Debug, Drop)]
pub struct Plan {
    numbers: Vec<u64>,
}

impl Model for Plan {
    ghost use Rattle.std.specs.Prelude.{List, ℕ};
    ghost use Rattle.std.specs.List.Sorted.{IsStrictlyIncreasing};

    ghost Value = { List ℕ };

    ghost view = { λ p. p.numbers.items };

    ghost invariant = { λ p. IsStrictlyIncreasing p.numbers.items };
}

impl Plan {
    /// The plan that a text is: numbers with a comma between, of which no `copies` are consecutive.
    pub fn read(alloc: Global, text: &str, copies: u8) -> Result<Plan, PlanErr>
        requires low { 2 ≤ copies }
        requires high { copies ≤ 4 }
        ensures plan { IfOk result (IsPlanText copies text.now) }
        ensures bad { result ≡ Err PlanErr.Bad → (s : List ℕ) → IsPlanText copies text.now s → ⊥ }
    {
        if !is_plan(text, copies) {
            return Err(PlanErr::Bad);
        }
        if text.is_empty() {
            return Ok(Plan {
                numbers: Vec::new(alloc),
            });
        }
        match numbers(alloc, text) {
            Err(_) => Err(PlanErr::NoMemory),
            Ok(None) => unreachable!(),
            Ok(Some(numbers)) => Ok(Plan { numbers }),
        }
    }

    /// The plan that a seed draws for so many steps, legal for `copies`: before each step a number is drawn by
    /// x = 1664525 x + 1013904223 modulo 2^32, and the step is skipped where bit 31 is set and not all of the last
    /// `copies - 1` steps are skipped.
    pub fn drawn(alloc: Global, seed: u32, steps: u64, copies: u8) -> Result<Plan, AllocError>
        requires { 2 ≤ copies }
        ensures plan { IfOk result (IsDrawn seed steps copies) }
        ensures legal { IfOk result (IsLegal copies) }
    {
        let numbers = drawn_steps(alloc, seed, steps, copies)?;
        Ok(Plan { numbers })
    }

    /// Whether a step is skipped.
    pub fn holds(&self, step: u64) -> bool
        ensures { result ≡ is_in self.now step }
    {
        self.numbers.binary_search(&step).is_ok()
    }
}
