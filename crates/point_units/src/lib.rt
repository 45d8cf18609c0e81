//! Which registers sequences may spoil, and the units of a flow's points.
#![tactic(auto)]

mod building;
mod lacks;
mod left;
mod scratch;
mod targets;
mod units;

pub use units::units_of;
