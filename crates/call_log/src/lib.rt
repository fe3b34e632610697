//! The record of a run: the calls that were made, in the order of their effect, and those that were not.
#![tactic(auto)]

mod finished;
mod log;

pub use finished::Finished;
pub use log::Log;
pub use signal_graph::log::{Logged, Refused, RefusedList, Why};
