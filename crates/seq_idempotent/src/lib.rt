//! Sequences of instructions that may be executed twice in a row for once: each stays as it is.
#![tactic(auto)]

mod twice;

pub use twice::Twice;
