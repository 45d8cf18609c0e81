//! Rows of what instructions, images and machines do, each with the answer that it must have.
#![tactic(auto)]

#[cfg(test)]
mod accesses;
#[cfg(test)]
mod effects;
#[cfg(test)]
mod images;
#[cfg(test)]
mod machines;
