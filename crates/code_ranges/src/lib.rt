//! The ranges of code and data of an object.
#![tactic(auto)]

mod faults;
mod laws;
mod ranges;
mod spans;

pub use faults::{first_of, spot_of};
pub use laws::objects_have_one_list_of_ranges;
pub use ranges::{Range, all_ranges, code_ranges};
pub use spans::{Span, kinds_by_place};
