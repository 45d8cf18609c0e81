//! Rows of calls on objects, flows and lists, each with the answer that it must have.
#![tactic(auto)]

#[cfg(test)]
mod flow_refusals;
#[cfg(test)]
mod flows;
#[cfg(test)]
mod generated;
#[cfg(test)]
mod linked;
#[cfg(test)]
mod lives;
#[cfg(test)]
mod ranges;
