//! The record of live calls, and the data of one step.
#![tactic(auto)]

pub use book::Book;
pub use found::{Finding, Found, FoundList};
pub use job::Job;
pub use job_room::JobRoom;
pub use outcome::{Answer, Outcome};
pub use room::Room;
pub use seat::Seat;

mod book;
mod counts;
mod found;
mod job;
mod job_room;
mod outcome;
mod room;
mod row;
mod seat;
mod seating;
mod shelf;
