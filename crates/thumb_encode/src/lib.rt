//! Instructions as halfwords: the table of rows, read from right to left.
#![tactic(auto)]

mod codes;
mod encoding;
mod full_candidates;
mod full_tests;
mod given;
mod half_candidates;
mod laws;

pub use codes::{Code, Width};
pub use encoding::encode;
pub use full_tests::has_full;
pub use laws::full_codes_are_told;
