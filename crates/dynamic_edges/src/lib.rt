//! The steps in which a choose node comes to depend on a candidate, and depends on one no more.
#![tactic(auto)]

pub use discovering::discover;
pub use dropping::drop_choice;

mod discovering;
mod dropping;
