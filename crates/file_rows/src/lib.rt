//! Rows of calls on objects, their files and the places of files, each with the answer that it must have.
#![tactic(auto)]

#[cfg(test)]
mod objects;
#[cfg(test)]
mod reads;
#[cfg(test)]
mod shelves;
#[cfg(test)]
mod writes;
