//! Laws of the generated object's flow. The functions do nothing: their contracts are the laws.

ghost use Rattle.gen_flow.specs.GeneratedFlow.{GeneratedFlowsAreRecovered, GeneratedPointsAreKnown};

/// Nothing stands in the way of the flow of a generated object.
pub fn generated_flows_are_recovered()
    ensures { GeneratedFlowsAreRecovered }
{}

/// Each point of the flow of a generated object is an instruction of its functions.
pub fn generated_points_are_known()
    ensures { GeneratedPointsAreKnown }
{}
