//! Laws that generated objects are hardened. The functions do nothing: their contracts are the laws.

ghost use Rattle.gen_hardened.specs.GeneratedHardening.{GeneratedFlowsAreLive, GeneratedPointsHaveScratch, GeneratedUnitsAreLaid};

use gen_flow::generated_points_are_known;

/// Liveness refuses no flow of a generated object.
pub fn generated_flows_are_live()
    ensures { GeneratedFlowsAreLive }
{
    generated_points_are_known();
}

/// The points of its flow have the scratch registers that they need.
pub fn generated_points_have_scratch()
    ensures { GeneratedPointsHaveScratch }
{
    generated_points_are_known();
}

/// The units of its points are laid out: no load is there to be out of reach, and no section is too big.
pub fn generated_units_are_laid()
    ensures { GeneratedUnitsAreLaid }
{
    generated_points_are_known();
}
