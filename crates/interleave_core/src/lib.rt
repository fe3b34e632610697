//! The machine of interleaved calls as a value: a book, and a list for each node.
#![tactic(auto)]

pub use core_state::Core;
pub use refusal::Refusal;

mod answering;
mod asking;
mod beginning;
mod choosers;
mod core_state;
mod ending;
pub mod laws;
mod opening;
mod parts;
mod refusal;
mod rules;
mod steps;
mod turns;
