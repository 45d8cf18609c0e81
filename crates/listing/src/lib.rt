//! The listing of an object's code: a line for each instruction or datum.
#![tactic(auto)]

mod contents;
mod lines;
mod listings;

pub use listings::listing;
