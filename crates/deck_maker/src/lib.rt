//! The workload of a number: its deck, and the summary of a run of it.
#![tactic(auto)]

mod calling;
mod declaring;
mod draws;
pub mod laws;
mod making;
mod naming;
mod scripts;
mod summing;

pub use crate::making::make;
pub use crate::summing::summary;
