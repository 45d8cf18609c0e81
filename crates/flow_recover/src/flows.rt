//! The flow of an object's code: its points, and how control goes on from each.

ghost use Rattle.std.specs.Prelude.{◌≡◌};

use crate::Range;
use std::marker::Model;
use thumb_instr::{Cond, Instr};

/// How control leaves a point, beside going on to the next one.
#[derive(Clone, Copy, Debug)]
pub enum Exit {
    /// It only goes on.
    Falls,
    /// To another point, by its index.
    Branch(u32),
    /// To a register other than lr, out of the section, or to a symbol that is not local.
    Transfer,
    /// To a function, which returns to the next point.
    Call,
    /// To where the function was called from.
    Return,
    /// Nowhere.
    Stops,
}

/// A reachable instruction: where it stands, with `wide` where it has four bytes; its condition in an IT
/// block, `Al` outside of one; its exit, and the point that control falls to or a call returns to. `reloc`
/// is the index of a relocation at its place in the object, `word` that of a word of code that it loads.
#[derive(Clone, Copy, Debug)]
pub struct Point {
    pub section: u32,
    pub offset: u32,
    pub wide: bool,
    pub instr: Instr,
    pub cond: Cond,
    pub exit: Exit,
    pub next: Option<u32>,
    pub reloc: Option<u32>,
    pub word: Option<u32>,
}

/// A word of a data range that a reachable instruction loads, with the relocation at its place.
#[derive(Clone, Copy, Debug)]
pub struct PoolWord {
    pub section: u32,
    pub offset: u32,
    pub reloc: Option<u32>,
}

/// The points and words by section and offset, the points that control enters at, and all ranges.
#[derive(Debug, Drop)]
pub struct Flow {
    points: Vec<Point>,
    words: Vec<PoolWord>,
    entries: Vec<u32>,
    ranges: Vec<Range>,
}

impl Model for Flow {
    ghost use Rattle.flow_recover.specs.Flows.{FlowParts};

    ghost Value = { FlowParts };

    ghost view = { λ f. record { points = f.points.items; words = f.words.items; entries = f.entries.items; ranges = f.ranges.items } };
}

impl Flow {
    /// The flow of these parts.
    pub fn new(
        points: Vec<Point>,
        words: Vec<PoolWord>,
        entries: Vec<u32>,
        ranges: Vec<Range>,
    ) -> Flow
        ensures { result ≡ record { points = points.items; words = words.items; entries = entries.items; ranges = ranges.items } }
    {
        Flow {
            points,
            words,
            entries,
            ranges,
        }
    }

    /// Its points, by section and offset.
    pub fn points(&self) -> &[Point]
        ensures { result.now ≡ self.now.points }
    {
        &self.points
    }

    /// The words of code that its points load, by section and offset.
    pub fn words(&self) -> &[PoolWord]
        ensures { result.now ≡ self.now.words }
    {
        &self.words
    }

    /// The points at which control enters, by their indexes.
    pub fn entries(&self) -> &[u32]
        ensures { result.now ≡ self.now.entries }
    {
        &self.entries
    }

    /// The ranges of code and data.
    pub fn ranges(&self) -> &[Range]
        ensures { result.now ≡ self.now.ranges }
    {
        &self.ranges
    }
}
