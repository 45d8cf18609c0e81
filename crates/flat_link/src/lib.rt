//! The linker: it places the sections of objects and makes an image of them.
#![tactic(auto)]

mod bytes;
mod entries;
mod known;
mod laws;
mod layout;
mod linker;
mod lots;
mod marks;
mod meanings;
mod misplaced;
mod names;
mod numbers;
mod patched;
mod patches;
mod reaches;
mod renumber;
mod seconds;
mod sites;
mod sorts;
mod starts;
mod stops;
mod symbols;
mod ties;

pub use laws::lists_have_images;
pub use linker::link;
