//! The words of a command line, and the command that they are.
#![tactic(auto)]

mod file_word;
mod numbers;
mod options;
mod settings;
mod tasks;
mod words;

pub use tasks::{LinkCommand, RunCommand, Skipped, Task};
pub use words::{Command, command_of};
