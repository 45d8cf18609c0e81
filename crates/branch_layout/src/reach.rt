//! What stands in the way of a layout: sections that are too big, and words that a load does not reach.

ghost use Rattle.std.specs.Prelude.{◌≡◌, ◌≤◌, ◌<◌, ℕ, ◌^◌, All, max, MatchOption, IfOk};
ghost use Rattle.std.specs.Option.{option_map_or};
ghost use Rattle.seq_core.specs.declared.steps.Step.{Step as StepValue};
ghost use Rattle.elf_model.specs.declared.refusals.Refusal.{Refusal as RefusalValue};
ghost use Rattle.branch_layout.specs.Placings.{places_of, IsStretch};
ghost use Rattle.branch_layout.specs.Given.{CanLay};
ghost use Rattle.branch_layout.specs.Faults.{load_distance as distance_of_load, LoadsFrom, IsFar, IsBig, LayFault, IsFirstFault};
ghost use Rattle.branch_layout.specs.Standing.{IsPlaced, IsFirstFar, NoneFar, IsFirstBig, NoneBig, out_of_reach, too_big, IsEarlier};

use crate::aiming::{distance, word_of};
use crate::copies::{bytes_of, copies_of};
use crate::standing::Placing;
use crate::stretches::Stretch;
use elf_model::{Refusal, Spot};
use flow_recover::PoolWord;
use seq_core::{Goal, Unit};
use std::alloc::{AllocError, Global};

/// The bytes of code that a section may have.
const MOST_CODE: u32 = 524_288;

/// How far a literal load reaches.
const MOST_REACH: u32 = 4_095;

/// How far a copy's word is, if it loads one.
fn load_distance(placing: &Placing, unit: &Unit, at: u32, goal: Goal) -> Option<u32>
    requires { at < 2 ^ 31 }
    ensures { result ≡ distance_of_load (places_of placing.now) unit.now at goal }
{
    match goal {
        Goal::Word => match word_of(placing, unit) {
            Some(word) => Some(distance(at, word)),
            None => None,
        },
        _ => None,
    }
}

fn greater(most: u32, d: Option<u32>) -> u32
    ensures { result ≡ option_map_or (λ e. max most e) d most }
{
    match d {
        Some(e) => most.max(e),
        None => most,
    }
}

/// The greatest distance of a unit's words.
fn reach_of(
    alloc: Global,
    placing: &Placing,
    unit: &Unit,
    stretch: &Stretch,
) -> Result<u32, AllocError>
    requires copies { All (λ (s : StepValue). s.copies ≤ 4) unit.now.seq.steps }
    requires stretch { IsStretch unit.now stretch.now }
    requires room { stretch.now.place.end < 2 ^ 31 }
    ensures greatest { IfOk result (λ d. (e : ℕ) → LoadsFrom placing.now unit.now stretch.now e → e ≤ d) }
    ensures some { IfOk result (λ d. 0 < d → LoadsFrom placing.now unit.now stretch.now d) }
{
    let copies = copies_of(alloc, unit.seq.steps())?;
    let widths = stretch.widths();
    let mut at = stretch.start();
    let mut most: u32 = 0;
    for k in 0..copies.len() {
        most = greater(most, load_distance(placing, unit, at, copies[k].goal));
        at += bytes_of(widths[k]);
    }
    Ok(most)
}

/// The first unit with a word out of reach, and how far that is.
fn first_far(
    alloc: Global,
    units: &[Unit],
    words: &[PoolWord],
    placing: &Placing,
) -> Result<Option<(usize, u32)>, AllocError>
    requires given { CanLay units.now words.now }
    requires placed { IsPlaced units.now words.now placing.now }
    ensures { IfOk result (λ r. MatchOption r (NoneFar units.now placing.now) (λ x. IsFirstFar units.now placing.now x.0 x.1)) }
{
    let stretches = placing.units();
    for k in 0..units.len() {
        let reach = reach_of(alloc, placing, &units[k], &stretches[k])?;
        if reach > MOST_REACH {
            return Ok(Some((k, reach)));
        }
    }
    Ok(None)
}

/// The first section that is too big.
fn first_big(sizes: &[u32]) -> Option<usize>
    ensures { MatchOption result (NoneBig sizes.now) (λ j. IsFirstBig sizes.now j) }
{
    for j in 0..sizes.len() {
        if sizes[j] > MOST_CODE {
            return Some(j);
        }
    }
    None
}

fn too_big(j: usize) -> Spot
    requires { j < 2 ^ 32 }
    ensures { result ≡ too_big j }
{
    Spot {
        refusal: Refusal::CodeTooBig,
        file: 0,
        section: j as u32,
        offset: 0,
    }
}

fn out_of_reach(unit: &Unit, distance: u32) -> Spot
    ensures { result ≡ out_of_reach unit.now distance }
{
    Spot {
        refusal: Refusal::OutOfReach { distance },
        file: 0,
        section: unit.section,
        offset: unit.old,
    }
}

/// Which of two faults comes first: of a unit, and of a section.
fn earlier(unit: &Unit, distance: u32, j: usize) -> Spot
    requires { j < 2 ^ 32 }
    ensures { IsEarlier unit.now distance j result }
{
    let section = unit.section as usize;
    if section < j || section == j && unit.old == 0 {
        out_of_reach(unit, distance)
    } else {
        too_big(j)
    }
}

/// The first fault of a layout, if it has one.
pub(crate) fn first_fault(
    alloc: Global,
    units: &[Unit],
    words: &[PoolWord],
    placing: &Placing,
) -> Result<Option<Spot>, AllocError>
    requires given { CanLay units.now words.now }
    requires placed { IsPlaced units.now words.now placing.now }
    ensures { IfOk result (λ r. MatchOption r ((w : RefusalValue) (section offset : ℕ) → ¬ LayFault units.now placing.now w section offset) (λ spot. IsFirstFault units.now placing.now spot)) }
{
    let far = first_far(alloc, units, words, placing)?;
    let big = first_big(placing.sizes());
    match (far, big) {
        (None, None) => Ok(None),
        (Some(x), None) => Ok(Some(out_of_reach(&units[x.0], x.1))),
        (None, Some(j)) => Ok(Some(too_big(j))),
        (Some(x), Some(j)) => Ok(Some(earlier(&units[x.0], x.1, j))),
    }
}
