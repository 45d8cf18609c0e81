//! What follows for two images that are linked unit by unit. The functions do nothing: their contracts are
//! the laws.

ghost use Rattle.sim_charts.specs.Addresses.{IsProperChart};
ghost use Rattle.sim_charts.specs.Alike.{by_chart};
ghost use Rattle.sim_charts.specs.Charts.{Chart};
ghost use Rattle.sim_charts.specs.Empty.{EmptyUnitsWork};
ghost use Rattle.sim_charts.specs.Example.{ExampleEnds, ExampleIsLinked, ExampleRuns, OneCopyDoesOnce, OneCopyIsRefused};
ghost use Rattle.sim_charts.specs.Simulates.{EndsAlike, EveryMoment, PairsEndAlike, StopsAlike};
ghost use Rattle.sim_charts.specs.Starts.{CallsStartAlike};
ghost use Rattle.sim_charts.specs.Words.{IsTaking};

/// Calls end alike, for any number of copies and of results, and wherever steps may be skipped.
pub fn calls_end_alike()
    ensures { EndsAlike }
{}

/// The same for two copies, four results and skips anywhere, with a schedule that is a list.
pub fn pairs_end_alike()
    ensures { PairsEndAlike }
{}

/// After each plain step the hardened run passes a moment with the same sp and memory.
pub fn every_moment()
    ensures { EveryMoment }
{}

/// A trap stops both.
pub fn traps_stop_alike()
    ensures { StopsAlike }
{}

/// Calls start alike, from memory that is the same and with the same arguments.
pub fn calls_start_alike()
    ensures { CallsStartAlike }
{}

/// What stands for an address is determined by a proper chart, and both are odd and of 31 bits.
pub fn addresses_are_determined()
    ensures { (chart : Chart) → IsProperChart chart → IsTaking (by_chart chart) }
{}

/// An IT needs no instruction in the hardened code.
pub fn empty_units_work()
    ensures { EmptyUnitsWork }
{}

/// A small image with a call and a loop is linked with its hardened form.
pub fn example_is_linked()
    ensures { ExampleIsLinked }
{}

/// So each ordinary call of it that returns ends alike under every legal schedule.
pub fn example_ends()
    ensures { ExampleEnds }
{}

/// There is such a call.
pub fn example_runs()
    ensures { ExampleRuns }
{}

/// A unit with one copy of its instruction is no unit for two copies.
pub fn one_copy_is_refused()
    ensures { OneCopyIsRefused }
{}

/// It is one where no step of it may be skipped.
pub fn one_copy_does_once()
    ensures { OneCopyDoesOnce }
{}
