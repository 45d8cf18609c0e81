//! What a hardened object is, for the places of its units and words.
#![tactic(auto)]

pub mod laws;
