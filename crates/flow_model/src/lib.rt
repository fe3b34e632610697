//! The machine of interleaved calls: what its steps are, when each is allowed and what it changes, and what every state
//! that they reach keeps.
#![tactic(auto)]

pub use limits::SPARE_ENTRIES;
pub use step::{Cause, Step, Turn};

pub mod laws;
mod limits;
mod step;
pub mod stored_laws;
