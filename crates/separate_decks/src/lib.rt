//! Separate decks: decks whose threads set sources apart from one another's, so that all runs of them end with the same
//! values.
#![tactic(auto)]

pub mod laws;
