//! What the options of a command say.

ghost use Rattle.std.specs.Prelude.{◌≡◌, ◌⊎◌, ◌↔◌, ◌≤◌, ℕ, List, Option, Some, IsTrue, MatchOption};
ghost use Rattle.std.specs.Option.{option_copied};
ghost use Rattle.thumb_table.specs.Layouts.{IsPlacement};
ghost use Rattle.thumb_table.specs.declared.placements.Placement.{Placement};
ghost use Rattle.guard_words.specs.Words.{IsPlacedBy, IsNumberOf, Skips, AreSkips, RunWords, IsRunBy};
ghost use Rattle.guard_words.specs.Arranged.{value_in, IsPlacing, IsSaid, IsSchedule};

use crate::numbers::number_of;
use crate::options::Options;
use skip_machine::is_plan;
use thumb_table::Placement;

/// The stack of every command.
const STACK: u32 = 65_536;

/// Where `--base` and `--room` place an image.
pub(crate) fn placement_of(options: &Options<'_>) -> Option<Placement>
    ensures { MatchOption result ((at : Placement) → IsPlacedBy (value_in options.now) at → ⊥) (λ at. IsPlacedBy (value_in options.now) at) }
{
    let base = number_of(options.base?)?;
    let room = number_of(options.room?)?;
    if is_place(base, room) {
        Some(Placement {
            base,
            room,
            stack: STACK,
        })
    } else {
        None
    }
}

/// Whether code may be placed at a base in such a room.
fn is_place(base: u32, room: u32) -> bool
    ensures { IsTrue result ↔ IsPlacement (record { base = base; room = room; stack = 65536 }) }
{
    base % 4096 == 0 && room % 8 == 0 && 8 <= room && room <= 524_288
}

/// Whether there is no option but `--base` and `--room`.
pub(crate) fn is_placing(options: &Options<'_>) -> bool
    ensures { IsTrue result ↔ IsPlacing (value_in options.now) }
{
    options.entry.is_none()
        && options.argument.is_none()
        && options.steps.is_none()
        && options.skip.is_none()
        && options.seed.is_none()
}

/// What the options of `run` say beside its schedule.
#[derive(Clone, Copy, Debug)]
pub(crate) struct Said<'a> {
    pub at: Placement,
    pub entry: &'a str,
    pub argument: Option<u32>,
    pub steps: u64,
}

/// What the options of `run` say beside its schedule.
pub(crate) fn said_of<'a>(options: &Options<'a>) -> Option<Said<'a>>
    ensures { MatchOption result ((r : RunWords) → IsRunBy (value_in options.now) r → ⊥) (IsSaid (value_in options.now)) }
{
    let at = placement_of(options)?;
    let entry = options.entry?;
    let argument = argument_of(options.argument)?;
    let steps = number_of(options.steps?)?;
    if steps == 0 || 10_000_000 < steps {
        return None;
    }
    Some(Said {
        at,
        entry,
        argument,
        steps: steps as u64,
    })
}

/// The number of an option that may be absent.
fn argument_of(value: Option<&str>) -> Option<Option<u32>>
    ensures { MatchOption result ((n : Option ℕ) → IsNumberOf (option_copied value.entry) n → ⊥) (IsNumberOf (option_copied value.entry)) }
{
    match value {
        None => Some(None),
        Some(text) => match number_of(text) {
            Some(n) => Some(Some(n)),
            None => None,
        },
    }
}

/// Which steps are skipped, as it was read: by a plan's text, or by a seed.
#[derive(Clone, Copy, Debug)]
pub(crate) enum Schedule<'a> {
    Listed(&'a str),
    Drawn(u32),
}

/// What `--skip` and `--seed` say.
pub(crate) fn schedule_of<'a>(skip: Option<&'a str>, seed: Option<&str>) -> Option<Schedule<'a>>
    ensures { let list = option_copied skip.entry in let number = option_copied seed.entry in
        MatchOption result ((skips : Skips) → AreSkips list number skips → ⊥) (IsSchedule list number) }
{
    match (skip, seed) {
        (None, None) => Some(Schedule::Listed("")),
        (Some(list), None) => {
            if is_plan(list, 2) {
                Some(Schedule::Listed(list))
            } else {
                None
            }
        }
        (None, Some(seed)) => match number_of(seed) {
            Some(seed) => Some(Schedule::Drawn(seed)),
            None => None,
        },
        (Some(_), Some(_)) => None,
    }
}
