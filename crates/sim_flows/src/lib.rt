//! What the flow of an object and its liveness give of the points of a chart.
#![tactic(auto)]

pub mod laws;
