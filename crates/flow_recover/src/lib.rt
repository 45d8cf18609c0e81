//! The flow of an object's code: the instructions that control reaches, and how it goes on from each.
#![tactic(auto)]

mod aims;
mod blocks;
mod charts;
mod claims;
mod dead_ends;
mod edges;
mod flow_faults;
mod flows;
mod indexes;
mod instructions;
mod laws;
mod literals;
mod named;
mod nodes;
mod places;
mod points;
mod reach;
mod recovery;
mod references;
mod reloc_faults;
mod visits;
mod walks;

pub use code_ranges::{
    Range, Span, all_ranges, code_ranges, first_of, objects_have_one_list_of_ranges,
};
pub use flows::{Exit, Flow, Point, PoolWord};
pub use laws::{
    calls_without_next_are_dead_ends, objects_have_one_flow, points_stand_apart,
    points_stand_where_control_comes,
};
pub use places::point_at;
pub use recovery::recover;
pub use reloc_places::{decode_at, length_at, may_fail, state_behind};
