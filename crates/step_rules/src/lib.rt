//! Which steps are allowed and which comes next for a call, decided from the book and from lists that are asked one at a time.
#![tactic(auto)]

pub use allowing::allowed;
pub use causes::why_not_ended;
pub use lists::{AllLists, Lists, Sight, can_collect, sight_of};
pub use next_step::next;
pub use next_step_at::next_at;

mod allowing;
mod causes;
mod ending;
mod entering;
mod evaluating;
mod finishing;
mod fronts;
mod lists;
mod next_step;
mod next_step_at;
mod open_node;
mod picked;
mod picking;
mod plain_node;
mod reading;
mod resting;
mod searches;
mod starting;
mod wanting;
mod working;
