//! One pass over units and words, in the order of their old places.

ghost use Rattle.std.specs.Prelude.{◌≡◌, ◌≤◌, ◌<◌, ◌+◌, ◌^◌, ◌++◌, ◌∷◌, [], ◌⊎◌, length, take, map, Some, slice_get, IfOk, OnOk, All, true, false, ◌-◌};
ghost use Rattle.seq_core.specs.declared.steps.Step.{Step as StepValue};
ghost use Rattle.branch_layout.specs.Placings.{unit_point, word_point};
ghost use Rattle.branch_layout.specs.Given.{CanLay};
ghost use Rattle.branch_layout.specs.Standing.{StandsAt, StandsOn, TakesUnit, TakesWord, Finishes, IsNext, IsPlaced};

use crate::stretches::{Stretch, stretch_of};
use flow_recover::PoolWord;
use seq_core::{Layout, PlacedUnit, Unit};
use std::alloc::{AllocError, Global};
use std::marker::Model;

/// The stretches of units, the offsets of words, and the sizes of sections.
#[derive(Drop)]
pub struct Placing {
    units: Vec<Stretch>,
    words: Vec<u32>,
    sizes: Vec<u32>,
}

impl Model for Placing {
    ghost use Rattle.branch_layout.specs.Placings.{Placing};

    ghost Value = { Placing };

    ghost view = { λ p. record { units = p.units.items; words = p.words.items; sizes = p.sizes.items } };
}

impl Placing {
    /// The stretches of units, in their order.
    pub fn units(&self) -> &[Stretch]
        ensures { result.now ≡ self.now.units }
    {
        &self.units
    }

    /// The offsets of words, in their order.
    pub fn words(&self) -> &[u32]
        ensures { result.now ≡ self.now.words }
    {
        &self.words
    }

    /// The sizes of sections.
    pub fn sizes(&self) -> &[u32]
        ensures { result.now ≡ self.now.sizes }
    {
        &self.sizes
    }

    /// The layout with these units in place of the stretches.
    pub(crate) fn layout_of(self, units: Vec<PlacedUnit>) -> Layout
        ensures { result ≡ record { units = units.items; words = self.words; sizes = self.sizes } }
    {
        Layout::new(units, self.words, self.sizes)
    }
}

/// What stands so far: `sizes` has all sections but the last, which ends at `end`.
#[derive(Drop)]
struct Standing {
    placing: Placing,
    end: u32,
}

impl Model for Standing {
    ghost use Rattle.branch_layout.specs.Standing.{StandingParts};

    ghost Value = { StandingParts };

    ghost view = { λ s. record { placing = s.placing; end = s.end } };
}

impl Standing {
    /// Nothing.
    fn new(alloc: Global) -> Standing
        ensures { result ≡ record { placing = record { units = []; words = []; sizes = [] }; end = 0 } }
    {
        Standing {
            placing: Placing {
                units: Vec::new(alloc),
                words: Vec::new(alloc),
                sizes: Vec::new(alloc),
            },
            end: 0,
        }
    }

    /// The number of sections before the last.
    fn section(&self) -> usize
        ensures { result ≡ length self.now.placing.sizes }
    {
        self.placing.sizes.len()
    }

    /// Ends the last section.
    fn close(&mut self) -> Result<(), AllocError>
        ensures { OnOk result (self.new ≡ record { placing = record self.old.placing { sizes = self.old.placing.sizes ++ self.old.end ∷ [] }; end = 0 }) }
    {
        self.placing.sizes.push(self.end)?;
        self.end = 0;
        Ok(())
    }

    /// Puts a stretch, of which the unit begins where the last one ends.
    fn push_unit(&mut self, stretch: Stretch) -> Result<(), AllocError>
        ensures { OnOk result (self.new ≡ record { placing = record self.old.placing { units = self.old.placing.units ++ stretch ∷ [] }; end = stretch.place.end }) }
    {
        self.end = stretch.end();
        self.placing.units.push(stretch)?;
        Ok(())
    }

    /// Puts a word at an offset.
    fn push_word(&mut self, at: u32) -> Result<(), AllocError>
        requires { at + 4 < 2 ^ 32 }
        ensures { OnOk result (self.new ≡ record { placing = record self.old.placing { words = self.old.placing.words ++ at ∷ [] }; end = at + 4 }) }
    {
        self.end = at + 4;
        self.placing.words.push(at)?;
        Ok(())
    }

    /// Goes on to a section.
    fn open(&mut self, section: u32) -> Result<(), AllocError>
        requires { length self.old.placing.sizes ≤ section }
        ensures stands { OnOk result (StandsOn self.old self.new) }
        ensures section { OnOk result (length self.new.placing.sizes ≡ section) }
        ensures end { OnOk result (self.new.end ≤ self.old.end) }
    {
        while self.section() < section as usize {
            self.close()?;
        }
        Ok(())
    }

    /// Puts a unit of this section or a later one behind all that stands.
    fn put_unit(&mut self, alloc: Global, unit: &Unit) -> Result<(), AllocError>
        requires copies { All (λ (s : StepValue). s.copies ≤ 4) unit.now.seq.steps }
        requires room { self.old.end < 2 ^ 31 }
        requires section { length self.old.placing.sizes ≤ unit.now.section }
        ensures { OnOk result (TakesUnit unit.now self.old self.new) }
    {
        self.open(unit.section)?;
        let stretch = stretch_of(alloc, unit, self.end)?;
        self.push_unit(stretch)?;
        Ok(())
    }

    /// Puts a word of this section or a later one behind all that stands, at a multiple of 4.
    fn put_word(&mut self, word: &PoolWord) -> Result<(), AllocError>
        requires room { self.old.end < 2 ^ 31 }
        requires section { length self.old.placing.sizes ≤ word.now.section }
        ensures { OnOk result (TakesWord word.now self.old self.new) }
    {
        self.open(word.section)?;
        let at = (self.end + 3) / 4 * 4;
        self.push_word(at)?;
        Ok(())
    }

    /// Puts the unit or the word that is next, and answers the index of the next unit.
    fn put_next(
        &mut self,
        alloc: Global,
        units: &[Unit],
        words: &[PoolWord],
        i: usize,
        k: usize,
    ) -> Result<usize, AllocError>
        requires given { CanLay units.now words.now }
        requires some { i + k < length units.now + length words.now }
        requires stands { StandsAt units.now words.now i k self.old }
        ensures from { IfOk result (λ next. i ≤ next) }
        ensures to { IfOk result (λ next. next ≤ i + 1) }
        ensures stands { IfOk result (λ next. StandsAt units.now words.now next (i + k + 1 - next) self.new) }
    {
        if is_unit_next(units, words, i, k) {
            self.put_unit(alloc, &units[i])?;
            Ok(i + 1)
        } else {
            self.put_word(&words[k])?;
            Ok(i)
        }
    }

    /// All of it, with the last section, in which something stands.
    fn finish(self) -> Result<Placing, AllocError>
        ensures { IfOk result (λ p. Finishes self p) }
    {
        let mut placing = self.placing;
        placing.sizes.push(self.end)?;
        Ok(placing)
    }
}

/// Whether the next item is a unit, and not a word.
fn is_unit_next(units: &[Unit], words: &[PoolWord], i: usize, k: usize) -> bool
    requires given { CanLay units.now words.now }
    requires some { (i < length units.now) ⊎ (k < length words.now) }
    ensures unit { result ≡ true → IsNext (map unit_point units.now) (map word_point words.now) i k }
    ensures word { result ≡ false → IsNext (map word_point words.now) (map unit_point units.now) k i }
{
    if i >= units.len() {
        return false;
    }
    if k >= words.len() {
        return true;
    }
    let unit = &units[i];
    let word = &words[k];
    unit.section < word.section || unit.section == word.section && unit.old < word.offset
}

/// The places of units and words in the long layout.
pub(crate) fn place(
    alloc: Global,
    units: &[Unit],
    words: &[PoolWord],
) -> Result<Placing, AllocError>
    requires { CanLay units.now words.now }
    ensures { IfOk result (λ p. IsPlaced units.now words.now p) }
{
    let mut standing = Standing::new(alloc);
    let mut i: usize = 0;
    for count in 0..units.len() + words.len() {
        i = standing.put_next(alloc, units, words, i, count - i)?;
    }
    if units.len() + words.len() > 0 {
        standing.finish()
    } else {
        Ok(standing.placing)
    }
}
