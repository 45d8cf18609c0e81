//! Hardened forms answer their objects.
#![tactic(auto)]

mod laws;

pub use laws::{
    call_row_has_units, data_answers, flows_are_accepted, forms_answer, points_have_places,
    relocations_answer, sections_stay, symbols_stay, units_stand,
};
