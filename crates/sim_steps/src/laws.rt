//! The law of ordinary steps. The functions do nothing: their contracts are the laws.

ghost use Rattle.sim_steps.specs.Example.{ExampleIsMet, HalvesAreMet};
ghost use Rattle.sim_steps.specs.Met.{MetImagesAreLinked};
ghost use Rattle.sim_steps.specs.Placed.{BlocksStandApart, JumpsStandLast};
ghost use Rattle.sim_steps.specs.Steps.{OrdinaryStepsAreAlike};
ghost use Rattle.sim_steps.specs.Units.{BuiltUnitsWork, LastNumberMeans, NumbersMean, WorkServes};

/// An ordinary step at a point of a proper chart is alike in both runs, where the chart gives of its instruction
/// where control leads, and the numbers and words that depend on places.
pub fn ordinary_steps_are_alike()
    ensures { OrdinaryStepsAreAlike }
{}

/// A chart of a call, a loop and returns has all that is asked; and so has one of MOVW and MOVT that make the
/// address of an entry, whose unit has other halves.
pub fn charts_meet_what_is_asked()
    ensures calls { ExampleIsMet }
    ensures halves { HalvesAreMet }
{}

/// So two images are linked whose points meet what is asked of them, and whose units work.
pub fn met_images_are_linked()
    ensures { MetImagesAreLinked }
{}

/// Code that does a task does each one that this task serves as: in more steps, by an effect that is near, or where
/// more may be lost.
pub fn works_serve()
    ensures { WorkServes }
{}

/// What a builder's sequence does of an instruction is the work of a point's unit.
pub fn built_units_work()
    ensures { BuiltUnitsWork }
{}

/// MOVW and MOVT alone mean their numbers, and of two numbers the last one counts.
pub fn numbers_mean_halves()
    ensures others { NumbersMean }
    ensures last { LastNumberMeans }
{}

/// What halfwords stand for in an IT block is the last of it where it jumps, and starts no block.
pub fn jumps_stand_last()
    ensures jumps { JumpsStandLast }
    ensures blocks { BlocksStandApart }
{}
