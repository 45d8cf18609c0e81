//! A command that is carried out, with its parameters.

use skip_machine::Plan;
use thumb_table::Placement;

/// A command with its parameters.
#[derive(Debug, Drop)]
pub enum Task<'a> {
    /// `harden`, with the names of an input and its output in turn.
    Harden { names: &'a [String] },
    /// `link`.
    Link(LinkCommand<'a>),
    /// `run`.
    Run(RunCommand<'a>),
    /// `list`.
    List { input: &'a str },
    /// `make`, of 1 to 4,000 functions.
    Make { seed: u32, count: u32 },
}

/// What is linked, where it is placed, and the file that takes the image.
#[derive(Clone, Copy, Debug)]
pub struct LinkCommand<'a> {
    pub at: Placement,
    pub output: &'a str,
    pub inputs: &'a [String],
}

/// What is run, and how: from the function `entry`, with `argument` in r0, for at most `steps` steps.
#[derive(Debug, Drop)]
pub struct RunCommand<'a> {
    pub at: Placement,
    pub entry: &'a str,
    pub argument: Option<u32>,
    pub steps: u64,
    pub skipped: Skipped,
    pub inputs: &'a [String],
}

/// Which steps a run skips.
#[derive(Debug, Drop)]
pub enum Skipped {
    /// Those of a plan.
    Listed(Plan),
    /// Those that are drawn from a seed.
    Drawn(u32),
}
