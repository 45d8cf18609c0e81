//! Steps and sequences of them.

ghost use Rattle.std.specs.Prelude.{◌≡◌, ◌≤◌, ◌<◌, ◌+◌, ◌++◌, ◌∷◌, [], length};

use std::marker::Model;
use thumb_instr::{Instr, Nothing, NothingOp};

/// What a step's number leads to: nothing, the sequence's end, its landing, the instruction's target or its
/// word.
#[derive(Clone, Copy, Debug, PartialEq, Eq)]
pub enum Goal {
    Nowhere,
    End,
    Landing,
    Target,
    Word,
}

/// An instruction of a sequence, `copies` times in a row.
#[derive(Clone, Copy, Debug)]
pub struct Step {
    pub instr: Instr,
    pub goal: Goal,
    pub copies: u8,
}

/// At most eight steps, of which those from the landing on are where a call comes back to; the landing is their
/// number where there is none. A sequence is seen as the list of its steps and the landing.
#[derive(Drop)]
pub struct Seq {
    steps: [Step; 8],
    len: u8,
    landing: u8,
}

impl Model for Seq {
    ghost use Rattle.std.specs.Prelude.{◌≤◌, take};
    ghost use Rattle.seq_core.specs.Series.{Series};

    ghost Value = { Series };

    ghost view = { λ s. record { steps = take s.len s.steps; landing = s.landing } };

    ghost invariant = { λ s. (s.landing ≤ s.len) × (s.len ≤ 8) };
}

/// What stands in a sequence where no step does.
fn no_step() -> Step {
    Step {
        instr: Instr::Nothing(Nothing {
            op: NothingOp::Nop,
            option: 0,
        }),
        goal: Goal::Nowhere,
        copies: 0,
    }
}

impl Seq {
    /// A sequence of no step.
    pub fn new() -> Seq
        ensures { result ≡ record { steps = []; landing = 0 } }
    {
        Seq {
            steps: [no_step(); 8],
            len: 0,
            landing: 0,
        }
    }

    /// Its steps.
    pub fn steps(&self) -> &[Step]
        ensures steps { result.now ≡ self.now.steps }
        ensures few { length result.now ≤ 8 }
    {
        &self.steps[..self.len as usize]
    }

    /// The index of the first step behind a call, or the number of steps.
    pub fn landing(&self) -> u8
        ensures index { result ≡ self.now.landing }
        ensures within { result ≤ length self.now.steps }
    {
        let _steps = &self.steps[..self.len as usize];
        self.landing
    }

    /// Appends a step to a sequence without a landing.
    pub fn push(&mut self, step: Step)
        requires room { length self.old.steps < 8 }
        requires open { self.old.landing ≡ length self.old.steps }
        ensures { self.new ≡ record { steps = self.old.steps ++ step ∷ []; landing = self.old.landing + 1 } }
    {
        self.steps[self.len as usize] = step;
        self.len += 1;
        self.landing += 1;
    }

    /// Appends steps to a sequence without a landing.
    pub fn push_all(&mut self, steps: &[Step])
        requires room { length self.old.steps + length steps.now ≤ 8 }
        requires open { self.old.landing ≡ length self.old.steps }
        ensures { self.new ≡ record { steps = self.old.steps ++ steps.now; landing = self.old.landing + length steps.now } }
    {
        for step in steps {
            self.push(*step);
        }
    }

    /// Appends a step as the landing, or behind it.
    pub fn land(&mut self, step: Step)
        requires { length self.old.steps < 8 }
        ensures { self.new ≡ record self.old { steps = self.old.steps ++ step ∷ [] } }
    {
        self.steps[self.len as usize] = step;
        self.len += 1;
    }

    /// Appends steps as the landing, or behind it.
    pub fn land_all(&mut self, steps: &[Step])
        requires { length self.old.steps + length steps.now ≤ 8 }
        ensures { self.new ≡ record self.old { steps = self.old.steps ++ steps.now } }
    {
        for step in steps {
            self.land(*step);
        }
    }
}
