//! An object and its hardened form: from the object's code to the object that a linker takes in its place.
#![tactic(auto)]

mod counting;
mod hardening;
mod phases;

pub use hardening::{Hardened, harden};
pub use sim_relation::Setting;
