//! Replays: a deck's calls in the turns that a schedule names, on one thread.
#![tactic(auto)]

mod caller;
mod fault;
mod input;
mod replaying;
mod replays;
mod schedule;
mod turn;

pub use fault::ReplayFault;
pub use input::split_input;
pub use replays::{replay, replay_owned};
pub use schedule::{ScheduleList, read_schedule};
