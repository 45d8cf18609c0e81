//! What is made of an object by way of units and their layout is paired with it, and within the limits of every object.
#![tactic(auto)]

mod laws;

pub use laws::{made_are_paired, made_are_within};
