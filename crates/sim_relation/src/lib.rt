//! What an object and its hardened form are, said of their bytes: paired objects.
#![tactic(auto)]

mod address_maps;
pub mod laws;
mod sameness;
mod setting;

pub use address_maps::{AddressMap, Taken};
pub use sameness::same;
pub use setting::Setting;
