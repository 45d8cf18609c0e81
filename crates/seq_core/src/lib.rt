//! Sequences that do the work of an instruction whatever is skipped: their classes, what they need, and the laws of both.
#![tactic(auto)]

mod builders;
mod building_laws;
mod class_laws;
mod classes;
mod constants;
mod coverage;
mod laws;
mod making;
mod moving_laws;
mod needs;
mod steps;
mod units;

pub use builders::Builder;
pub use building_laws::scratch_registers_suffice;
pub use class_laws::{
    branches_in_place, clears_in_place, conditions_work, copies_at_places, decodes_through_scratch,
    guards_work, halves_at_places, halves_in_place, high_words_through_scratch,
    idempotent_decodes_in_place, idempotent_in_place, inserts_in_place, inserts_through_scratch,
    itself_once, literals_at_places, long_products_through_scratch, low_words_through_scratch,
    settled_once, sp_sums_through_scratch, through_scratch, traps_in_place, twice_in_place,
};
pub use classes::{Class, class_of};
pub use constants::{code_of_move, moves_are_constants};
pub use coverage::{
    decodes_are_apart, decodes_keep_flags, decodes_load_several, decodes_reach, decodes_use_stack,
    instructions_have_one_class, needs_are_small,
};
pub use laws::{
    an_addition_works, classes_tell_meanings, effects_depend_on_reads, effects_keep_to_writes,
    effects_stay_quiet, effects_write_all, full_codes_are_rows, low_results_go_to,
    made_steps_are_coded, more_may_be_lost, plain_steps_do, results_go_to, schedules_are_legal,
    sequences_work, sequences_work_once, steps_do,
};
pub use making::{count_registers, moved, sequence, sole_register, summed};
pub use moving_laws::{
    base_copies_of_lists_work, base_copies_of_one_work, base_copies_of_pairs_work,
    decodes_copy_bases, direct_calls_work, flagged_products_work, link_calls_work,
    lists_downwards_work, lists_upwards_work, long_sums_work, pops_into_pc_work,
    post_accesses_work, post_pairs_work, pre_accesses_work, pre_pairs_work, register_calls_work,
    register_jumps_work, zero_branches_work,
};
pub use needs::{Need, need_of};
pub use steps::{Goal, Seq, Step};
pub use units::{Layout, PlacedUnit, Unit};
