//! What `make` does: it makes an object from a seed, hardens it, and runs both.
#![tactic(auto)]

mod calls;
mod lines;
mod making;
mod phases;

pub use lines::word_text;
pub use making::make;
