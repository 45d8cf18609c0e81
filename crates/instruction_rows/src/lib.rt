//! Rows of calls on words and instructions, each with the answer that it must have.
#![tactic(auto)]

#[cfg(test)]
mod code_tables;
#[cfg(test)]
mod codes;
#[cfg(test)]
mod forms;
#[cfg(test)]
mod refused_codes;
#[cfg(test)]
mod words;
