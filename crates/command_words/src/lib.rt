//! The words behind the program's name, and the command that they ask for.
#![tactic(auto)]

mod command;
mod kinds;
pub mod laws;
mod operand;
mod options;
mod verb;
mod words;

pub use crate::command::{Command, WordsFault};
pub use crate::words::read_words;
