//! Whether a report is right for a deck, and the first line where it isn't.
#![tactic(auto)]

mod checking;
mod count;
mod finals;
mod laws;
mod pass;
mod refused;
mod same;
mod seat;
mod verdict;

pub use checking::check;
pub use laws::{
    reports_have_one_verdict, reports_of_runs_by_their_bytes, right_reports_are_those_of_runs,
};
pub use verdict::Verdict;
