//! Threads over one core: callers begin calls and make their steps one at a time, each step under one short lock.
#![tactic(auto)]

mod callers;
mod list;
mod locked;
mod luggage;
mod moment;
mod moves;
mod naming;
mod parking;
mod shared;
mod token;
mod weight;

pub use flow_state::JobRoom;
pub use interleave_core::Refusal;
pub use list::PassList;
pub use moves::Move;
pub use naming::Naming;
pub use shared::{Closed, Sweeper, open_sweeper};
pub use token::{Advance, Begun, Ended, Live, Pass};
