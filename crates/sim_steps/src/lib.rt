//! An ordinary step is alike in both runs: what a chart must give of a point for that.
#![tactic(auto)]

pub mod laws;
