//! Laws of units. The functions do nothing: their contracts are the laws.

ghost use Rattle.unit_work.specs.Work.{UnitsWork};

use branch_layout::numbers_lead;
use flow_recover::calls_without_next_are_dead_ends;
use seq_core::{
    classes_tell_meanings, conditions_work, decodes_are_apart, halves_in_place,
    idempotent_decodes_in_place, more_may_be_lost, steps_do,
};
use thumb_instr::decodes_are_formed;

/// The unit of a point does the point's instruction in every code that its section may come to, under every schedule
/// that is legal for its copies.
pub fn units_work()
    ensures { UnitsWork }
{
    numbers_lead();
    calls_without_next_are_dead_ends();
    conditions_work();
    idempotent_decodes_in_place();
    halves_in_place();
    decodes_are_formed();
    decodes_are_apart();
    classes_tell_meanings();
    more_may_be_lost();
    steps_do();
}
