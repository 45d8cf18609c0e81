//! Laws of the sequences. The functions do nothing: their contracts are the laws.

ghost use Rattle.seq_stack.specs.Done.{MovedListsWork, ReturnsWork, StackStepsWork};

use seq_core::{
    decodes_are_apart, decodes_keep_flags, decodes_through_scratch, decodes_use_stack,
    full_codes_are_rows, lists_downwards_work, lists_upwards_work, made_steps_are_coded,
    more_may_be_lost, moves_are_constants, plain_steps_do, pops_into_pc_work, steps_do,
};
use thumb_instr::decodes_are_formed;

/// A list that moves its base: the base moves by way of a free register, before stores and loads below it and
/// behind others.
pub(crate) fn moved_lists_work()
    ensures { MovedListsWork }
{
    decodes_are_apart();
    decodes_are_formed();
    moves_are_constants();
    lists_downwards_work();
    lists_upwards_work();
    plain_steps_do();
    made_steps_are_coded();
}

/// A return by a list: lr gets the word that is popped for pc, sp moves by way of a free register, and a jump by lr follows.
pub(crate) fn returns_work()
    ensures { ReturnsWork }
{
    decodes_are_formed();
    decodes_use_stack();
    moves_are_constants();
    pops_into_pc_work();
    more_may_be_lost();
    steps_do();
    made_steps_are_coded();
}

/// A sum that moves sp: it goes to a free register, and from there to sp.
pub(crate) fn stack_steps_work()
    ensures { StackStepsWork }
{
    decodes_are_formed();
    decodes_use_stack();
    decodes_keep_flags();
    decodes_through_scratch();
    plain_steps_do();
    full_codes_are_rows();
    made_steps_are_coded();
}
