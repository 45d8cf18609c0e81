//! The listing: one line of text for an instruction at its address.
#![tactic(auto)]

mod accesses;
mod branches;
mod data;
mod line;
mod listing;
mod lists;
mod names;
mod operands;
mod pieces;
mod products;

pub use line::Line;
pub use listing::list_line;
