//! Sequences of pushes, pops, returns and other lists that move their base, and of sums that move sp.
#![tactic(auto)]

mod laws;
mod lists;
mod multi_back;
mod pop;
mod pop_return;
mod push;
mod sp_step;

pub use multi_back::MultiBack;
pub use pop::Pop;
pub use pop_return::PopReturn;
pub use push::Push;
pub use sp_step::SpStep;
