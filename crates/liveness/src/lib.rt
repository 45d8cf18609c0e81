//! Which registers and flags are live before each point of a flow.
#![tactic(auto)]

mod boundary;
mod edges;
mod instructions;
mod laws;
mod liveness;
mod members;
mod points;
mod sets;
mod spots;
mod worklist;

pub use boundary::Boundary;
pub use laws::{points_have_one_live_set, recovered_flows_name_points, unset_members_are_dead};
pub use liveness::live;
pub use sets::Live;
