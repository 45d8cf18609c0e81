//! Sequences of instructions that go by way of scratch registers, of the classes without calls, jumps and moves of sp.
#![tactic(auto)]

mod base_copy;
mod long_sum;
mod through;
mod through_flags;
mod write_back;

pub use base_copy::BaseCopy;
pub use long_sum::LongSum;
pub use through::Through;
pub use through_flags::ThroughFlags;
pub use write_back::WriteBack;
