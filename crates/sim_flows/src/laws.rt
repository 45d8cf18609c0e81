//! What the flow of an object and its liveness give of the points of a chart. The functions do nothing: their
//! contracts are the laws.

ghost use Rattle.sim_flows.specs.Continuing.{FlowsContinue};
ghost use Rattle.sim_flows.specs.Lives.{DeadIsSpared, FlowsGiveLives};
ghost use Rattle.sim_flows.specs.Meeting.{FlowsMeet};
ghost use Rattle.sim_flows.specs.Units.{FlowsGiveUnits};

/// What is live before the points of a flow is closed as a chart asks of it.
pub fn flows_give_lives()
    ensures { FlowsGiveLives }
{}

/// A unit that loses what is dead after its point spares what a chart asks for.
pub fn dead_is_spared()
    ensures { DeadIsSpared }
{}

/// Control goes on in a flow as a chart asks, where its points and their units are placed.
pub fn flows_continue()
    ensures { FlowsContinue }
{}

/// The points of a flow meet what is asked so that an ordinary step is alike, by what linking gives of them.
pub fn flows_meet()
    ensures { FlowsMeet }
{}

/// So a point of a flow and its unit have all that two linked images are asked for.
pub fn flows_give_units()
    ensures { FlowsGiveUnits }
{}
