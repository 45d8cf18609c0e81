//! Units of a hardened section: the sequences that stand for points, and where they are put.

ghost use Rattle.std.specs.Prelude.{◌≡◌};

use crate::Seq;
use std::marker::Model;
use thumb_encode::Code;

/// The sequence of a point, with the point's section and offset. `target` is the index of the point that its
/// branch leads to, `word` that of the word which it loads, `reloc` that of its relocation.
#[derive(Drop)]
pub struct Unit {
    pub section: u32,
    pub old: u32,
    pub seq: Seq,
    pub target: Option<u32>,
    pub word: Option<u32>,
    pub reloc: Option<u32>,
}

/// A unit at its place, with the codes of its steps; `landing` is the offset of its landing, `island` that of
/// the word which is put behind it.
#[derive(Drop)]
pub struct PlacedUnit {
    unit: Unit,
    start: u32,
    length: u32,
    codes: Vec<Code>,
    landing: Option<u32>,
    island: Option<u32>,
}

impl Model for PlacedUnit {
    ghost use Rattle.seq_core.specs.Places.{PlacedParts};

    ghost Value = { PlacedParts };

    ghost view = { λ u. record { unit = u.unit; start = u.start; length = u.length; codes = u.codes.items; landing = u.landing; island = u.island } };
}

impl PlacedUnit {
    /// The unit of these parts.
    pub fn new(
        unit: Unit,
        start: u32,
        length: u32,
        codes: Vec<Code>,
        landing: Option<u32>,
        island: Option<u32>,
    ) -> PlacedUnit
        ensures { result ≡ record { unit = unit; start = start; length = length; codes = codes.items; landing = landing; island = island } }
    {
        PlacedUnit {
            unit,
            start,
            length,
            codes,
            landing,
            island,
        }
    }

    /// The unit that is placed.
    pub fn unit(&self) -> &Unit
        ensures { result.now ≡ self.now.unit }
    {
        &self.unit
    }

    /// Its offset.
    pub fn start(&self) -> u32
        ensures { result ≡ self.now.start }
    {
        self.start
    }

    /// The number of its bytes.
    pub fn length(&self) -> u32
        ensures { result ≡ self.now.length }
    {
        self.length
    }

    /// The codes of its steps, a copy after the other.
    pub fn codes(&self) -> &[Code]
        ensures { result.now ≡ self.now.codes }
    {
        &self.codes
    }

    /// The offset of its landing.
    pub fn landing(&self) -> Option<u32>
        ensures { result ≡ self.now.landing }
    {
        self.landing
    }

    /// The offset of its island.
    pub fn island(&self) -> Option<u32>
        ensures { result ≡ self.now.island }
    {
        self.island
    }
}

/// Units in order, the offsets of words, and the lengths of sections.
#[derive(Drop)]
pub struct Layout {
    units: Vec<PlacedUnit>,
    words: Vec<u32>,
    sizes: Vec<u32>,
}

impl Model for Layout {
    ghost use Rattle.seq_core.specs.Places.{LayoutParts};

    ghost Value = { LayoutParts };

    ghost view = { λ l. record { units = l.units.items; words = l.words.items; sizes = l.sizes.items } };
}

impl Layout {
    /// The layout of these parts.
    pub fn new(units: Vec<PlacedUnit>, words: Vec<u32>, sizes: Vec<u32>) -> Layout
        ensures { result ≡ record { units = units.items; words = words.items; sizes = sizes.items } }
    {
        Layout {
            units,
            words,
            sizes,
        }
    }

    /// Its units.
    pub fn units(&self) -> &[PlacedUnit]
        ensures { result.now ≡ self.now.units }
    {
        &self.units
    }

    /// The offsets of words.
    pub fn words(&self) -> &[u32]
        ensures { result.now ≡ self.now.words }
    {
        &self.words
    }

    /// The lengths of sections.
    pub fn sizes(&self) -> &[u32]
        ensures { result.now ≡ self.now.sizes }
    {
        &self.sizes
    }
}
