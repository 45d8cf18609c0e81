//! Where the goals of steps are, and the numbers that lead there.

ghost use Rattle.std.specs.Prelude.{◌≡◌, ◌≤◌, ◌<◌, ◌+◌, ◌^◌};
ghost use Rattle.thumb_instr.specs.declared.instructions.Instr.TheVariants as instr;
ghost use Rattle.branch_layout.specs.Placings.{places_of};
ghost use Rattle.branch_layout.specs.Goals.{base_of as base_in, distance as distance_in, word_of as word_in, start_of as start_in, target_of as target_in, goal_of as goal_in, offset_to as offset_in, aimed as aimed_in, placed_instr as placed_in, Reaches, StepReaches};

use crate::standing::Placing;
use crate::stretches::Stretch;
use seq_core::{Goal, Step, Unit};
use thumb_instr::{Adr, Branch, Call, Instr, Literal, ZeroBranch};

/// What a literal load at an offset counts from.
fn base_of(at: u32) -> u32
    requires { at + 4 < 2 ^ 32 }
    ensures { result ≡ base_in at }
{
    (at + 4) / 4 * 4
}

/// How far a word is from what a load at an offset counts from.
pub(crate) fn distance(at: u32, word: u32) -> u32
    requires { at + 4 < 2 ^ 32 }
    ensures { result ≡ distance_in at word }
{
    let base = base_of(at);
    if base <= word {
        word - base
    } else {
        base - word
    }
}

/// Where the word of a unit is.
pub(crate) fn word_of(placing: &Placing, unit: &Unit) -> Option<u32>
    ensures { result ≡ word_in (places_of placing.now) unit.now }
{
    match unit.word {
        None => None,
        Some(k) => placing.words().get(k as usize).copied(),
    }
}

/// Where the unit with an index begins.
fn start_of(placing: &Placing, k: u32) -> Option<u32>
    ensures { result ≡ start_in (places_of placing.now) k }
{
    match placing.units().get(k as usize) {
        None => None,
        Some(stretch) => Some(stretch.start()),
    }
}

/// Where the target of a unit's branch is, for a copy at an offset: a branch with a relocation leads to itself.
fn target_of(placing: &Placing, unit: &Unit, at: u32) -> Option<u32>
    ensures { result ≡ target_in (places_of placing.now) unit.now at }
{
    if unit.reloc.is_some() {
        return Some(at);
    }
    match unit.target {
        None => None,
        Some(k) => start_of(placing, k),
    }
}

/// Where a goal is, for a copy of a unit's step at an offset.
fn goal_of(placing: &Placing, unit: &Unit, stretch: &Stretch, at: u32, goal: Goal) -> Option<u32>
    ensures { result ≡ goal_in (places_of placing.now) unit.now stretch.now.place at goal }
{
    match goal {
        Goal::Nowhere => None,
        Goal::End => Some(stretch.end()),
        Goal::Landing => Some(stretch.back()),
        Goal::Target => target_of(placing, unit, at),
        Goal::Word => word_of(placing, unit),
    }
}

/// What a branch at an offset counts to another.
fn offset_to(at: u32, to: u32) -> i32
    requires low { at + 4 < 2 ^ 31 }
    requires low_goal { to < 2 ^ 31 }
    ensures { result ≡ offset_in at to }
{
    to as i32 - (at + 4) as i32
}

/// The load with the number that leads to a word.
fn aimed_load(at: u32, to: u32, load: &Literal) -> Instr
    requires low { at + 4 < 2 ^ 31 }
    requires near { distance_in at to ≤ 4095 }
    ensures { result ≡ aimed_in at to (instr.Literal load.now) }
{
    let base = base_of(at);
    let up = base <= to;
    let imm = distance(at, to) as u16;
    Instr::Literal(Literal { up, imm, ..*load })
}

/// The instruction with the number that leads from an offset to one that it reaches.
fn aimed(at: u32, to: u32, instr: &Instr) -> Instr
    requires low { at + 4 < 2 ^ 31 }
    requires low_goal { to < 2 ^ 31 }
    requires reaches { Reaches at to instr.now }
    ensures { result ≡ aimed_in at to instr.now }
{
    match instr {
        Instr::Branch(i) => Instr::Branch(Branch {
            offset: offset_to(at, to),
            ..*i
        }),
        Instr::ZeroBranch(i) => Instr::ZeroBranch(ZeroBranch {
            offset: offset_to(at, to),
            ..*i
        }),
        Instr::Call(_) => Instr::Call(Call {
            offset: offset_to(at, to),
        }),
        Instr::Adr(i) => Instr::Adr(Adr {
            up: true,
            imm: (to + 1 - base_of(at)) as u16,
            ..*i
        }),
        Instr::Literal(i) => aimed_load(at, to, i),
        _ => *instr,
    }
}

/// The instruction of a step's copy at an offset, with the number that leads from there to its goal.
pub(crate) fn placed_instr(
    placing: &Placing,
    unit: &Unit,
    stretch: &Stretch,
    at: u32,
    step: &Step,
) -> Instr
    requires low { at + 4 < 2 ^ 31 }
    requires reaches { StepReaches (places_of placing.now) unit.now stretch.now.place at step.now }
    ensures { result ≡ placed_in (places_of placing.now) unit.now stretch.now.place at step.now }
{
    match goal_of(placing, unit, stretch, at, step.goal) {
        None => step.instr,
        Some(to) => aimed(at, to, &step.instr),
    }
}
