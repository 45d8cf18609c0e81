//! Laws of instructions and of sequences. The functions do nothing: their contracts are the laws.

ghost use Rattle.seq_core.specs.Builders.{ClassesTellMeanings, FullCodesAreRows, MoreMayBeLost, PlainStepsDo, StepsDo};
ghost use Rattle.seq_core.specs.Coded.{AccessesCoded, CopiesCoded, MovesCoded, SumsCoded, TransfersCoded};
ghost use Rattle.seq_core.specs.Denoted.{StepsDenote, StepsWork, StepsWorkOnce};
ghost use Rattle.seq_core.specs.Effects.{DependsOnReads, GoesTo, KeepsToWrites, LowGoesTo, StaysQuiet, WritesAll};
ghost use Rattle.seq_core.specs.Example.{AddsWorks};
ghost use Rattle.seq_core.specs.Sequences.{SchedulesAreLegal, SequencesWork, SequencesWorkOnce};

use thumb_encode::full_codes_are_told;

/// An effect depends only on what the instruction reads, on memory and on where it stands.
pub fn effects_depend_on_reads()
    ensures { DependsOnReads }
{}

/// Of registers and flags an effect changes only what the instruction writes and may set.
pub fn effects_keep_to_writes()
    ensures { KeepsToWrites }
{}

/// Memory changes only by stores, the IT state only by IT, and control goes on unless it jumps.
pub fn effects_stay_quiet()
    ensures { StaysQuiet }
{}

/// An effect changes all that the instruction writes and sets.
pub fn effects_write_all()
    ensures { WritesAll }
{}

/// An instruction gives the same value and the same flags in another register.
pub fn results_go_to()
    ensures { GoesTo }
{}

/// A long product gives the same low word in another register.
pub fn low_results_go_to()
    ensures { LowGoesTo }
{}

/// Groups that may be done twice, each as often as a schedule is legal for, do their work whatever it skips.
pub fn sequences_work()
    ensures { SequencesWork }
{}

/// Groups of one copy each do their work where nothing is skipped.
pub fn sequences_work_once()
    ensures { SequencesWorkOnce }
{}

/// A list of skipped steps that is legal is so as a test of steps.
pub fn schedules_are_legal()
    ensures { SchedulesAreLegal }
{}

/// What stands in code for a step, with its goal reached, does what the step denotes.
pub fn steps_denote_effects()
    ensures { StepsDenote }
{}

/// Steps whose groups carry an effect out do it wherever they stand with their goals reached.
pub fn steps_work()
    ensures { StepsWork }
{}

/// So do steps of one copy each, where nothing is skipped.
pub fn steps_work_once()
    ensures { StepsWorkOnce }
{}

/// So steps whose groups carry out what an instruction means do the instruction, as often as each stands.
pub fn steps_do()
    ensures { StepsDo }
{}

/// What groups carry out they carry out where more may be lost.
pub fn more_may_be_lost()
    ensures { MoreMayBeLost }
{}

/// Of instructions that name no place, it is enough that the steps' carry the other one out.
pub fn plain_steps_do()
    ensures { PlainStepsDo }
{}

/// A formed instruction with a code of two halfwords has a row.
pub fn full_codes_are_rows()
    ensures { FullCodesAreRows }
{
    full_codes_are_told();
}

/// An instruction of a class other than PopReturn loads no pc, and one of another than LongSum adds no long product.
pub fn classes_tell_meanings()
    ensures { ClassesTellMeanings }
{}

/// Moves, sums with a constant, accesses and lists at a base, as sequences have them, have codes.
pub fn made_steps_are_coded()
    ensures moves { MovesCoded }
    ensures sums { SumsCoded }
    ensures accesses { AccessesCoded }
    ensures transfers { TransfersCoded }
    ensures copies { CopiesCoded }
{
    full_codes_are_told();
}

/// One of them in bytes: ADDS of 1 to r0, by way of r12.
pub fn an_addition_works()
    ensures { AddsWorks }
{}
