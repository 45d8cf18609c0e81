//! Sequences of calls, of jumps to registers and of branches on zero.
#![tactic(auto)]

mod direct_calls;
mod landings;
mod register_calls;
mod register_jumps;
mod steps;
mod zero_branches;

pub use direct_calls::DirectCall;
pub use landings::with_landing;
pub use register_calls::RegisterCall;
pub use register_jumps::RegisterJump;
pub use zero_branches::ZeroBranch;
