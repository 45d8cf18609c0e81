//! Objects and their hardened forms as files, for the rows of tests. They come from another hardener.
#![tactic(auto)]

pub mod branching;
pub mod refused;
pub mod straight;
