//! Laws that generated objects are hardened.
#![tactic(auto)]

mod laws;

pub use laws::{generated_flows_are_live, generated_points_have_scratch, generated_units_are_laid};
