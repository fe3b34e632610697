//! The plain one-thread machine, and the run of all scripts on it.
#![tactic(auto)]

mod choosers;
mod compare;
mod count;
pub mod laws;
mod machine;
mod marks;
mod pass;
mod run;

pub use machine::Machine;
pub use run::{copied_scripts, serial, serial_owned};
