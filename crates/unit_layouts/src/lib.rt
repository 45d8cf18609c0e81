//! Units of a flow's points can be laid out, and a hardened object can be made of their layouts.
#![tactic(auto)]

mod laws;

pub use laws::{layouts_can_be_emitted, units_can_be_laid};
