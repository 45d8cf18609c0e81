//! Laws of the generated object's run.
#![tactic(auto)]

mod laws;

pub use laws::generated_calls_return;
