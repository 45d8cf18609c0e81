//! Laws of the generated object's flow.
#![tactic(auto)]

mod laws;

pub use laws::{generated_flows_are_recovered, generated_points_are_known};
