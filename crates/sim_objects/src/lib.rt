//! From paired objects to their images: the chart of two lists, and what holds of its points.
#![tactic(auto)]

mod given;
pub mod laws;
