//! Two images that are linked unit by unit: what follows for their runs.
#![tactic(auto)]

pub mod laws;
