//! Rows of sequences: what builders make of instructions, each with the steps and codes that it must have.
#![tactic(auto)]

#[cfg(test)]
mod built;
#[cfg(test)]
mod calls;
#[cfg(test)]
mod stacks;
#[cfg(test)]
mod straight;
