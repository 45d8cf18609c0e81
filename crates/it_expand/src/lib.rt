//! Instructions with conditions of their own in place of IT blocks.
#![tactic(auto)]

mod expansion;
mod guards;

pub use expansion::{CondInstr, expand};
pub use guards::guarded;
