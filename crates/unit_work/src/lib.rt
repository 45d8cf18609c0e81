//! The unit of a point does the point's instruction, wherever its section comes to stand.
#![tactic(auto)]

mod laws;

pub use laws::units_work;
