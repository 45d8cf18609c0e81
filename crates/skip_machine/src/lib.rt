//! A machine that runs images under plans of skips.
#![tactic(auto)]

mod decimals;
mod draws;
mod fetches;
mod machines;
mod moves;
mod plan_texts;
mod plans;
mod texts;

pub use decimals::decimal_of;
pub use machines::{Machine, Moved, Outcome};
pub use plan_texts::is_plan;
pub use plans::{Plan, PlanErr};
