//! Lists whose links are indexes: the edges of a graph, a queue of indexes, an order of units.
#![tactic(auto)]

mod chains;
mod edge_lists;
mod pending;
mod unit_chain;

pub use edge_lists::EdgeLists;
pub use pending::Pending;
pub use unit_chain::UnitChain;
