//! Objects that are generated from a seed, with functions of which each calls the next one.
#![tactic(auto)]

mod code;
mod objects;

pub use objects::generated;
