//! The processor's state, memory and images, and the effect of an instruction on them.
#![tactic(auto)]

mod accesses;
mod addresses;
mod arithmetic;
mod bit_fields;
mod bit_values;
mod branches;
mod cores;
mod effects;
mod faults;
mod fetches;
mod flags;
mod images;
mod jumps;
mod literals;
mod marks;
mod memory;
mod multiple;
mod operands;
mod ordinary;
mod pairs;
mod parts;
mod placements;
mod product_values;
mod products;
mod proper;
mod values;
mod writes;

pub use cores::Core;
pub use effects::apply;
pub use faults::FaultKind;
pub use parts::{CodeBytes, Image, Memory, NamedEntry, Part, PlaceMark};
pub use placements::Placement;
