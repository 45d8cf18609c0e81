//! Where the sequences of a hardened object stand: the long layout.
#![tactic(auto)]

mod aiming;
mod coding;
mod copies;
mod laws;
mod laying;
mod reach;
mod standing;
mod stretches;

pub use laws::{
    goals_are_reached, layouts_are_laid, leading_units_stand, no_unit_is_at_a_word,
    numbers_have_codes, numbers_lead, placings_are_one, sequences_lead,
};
pub use laying::{lay, places};
pub use standing::Placing;
pub use stretches::Stretch;
