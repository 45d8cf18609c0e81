//! Files and output as the program sees them: what may come of each call, and what is known after it.
#![tactic(auto)]

mod counts;
mod errors;
mod host;
mod mem_shelf;
mod mem_sink;
mod shelf;
mod sink;

pub use errors::{LoadErr, PutErr, SaveErr};
pub use host::{HostShelf, HostSink};
pub use mem_shelf::{MemShelf, NamedFile, have_different_names};
pub use mem_sink::MemSink;
pub use shelf::Shelf;
pub use sink::Sink;
