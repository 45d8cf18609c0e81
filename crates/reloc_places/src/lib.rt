//! Where relocations of an object may stand, and what they make: instruction starts and words of data in
//! its code, the kinds of relocations, the numbers in their places and the values of their symbols.
#![tactic(auto)]

mod addends;
mod instructions;
mod kinds;
mod laws;
mod places;
mod relocations;
mod starts;
mod values;

pub use addends::addend;
pub use instructions::{bytes_of, decode_at, instr_at, length_at, length_from, state_behind};
pub use kinds::{is_half, is_jump, is_word, may_fail};
pub use laws::{long_kinds_are_long, numbers_are_right_in_blocks};
pub use relocations::{Placed, relocs_by_place};
pub use starts::{code_starts, data_words, function_places};
pub use values::{even, is_in_code, is_thumb, place_of, target_of, value_of};
