//! One thread for each script, over one sweeper.
#![tactic(auto)]

mod gate;
mod run;
mod scripts;
mod turn;
mod worker;

pub use gate::{Gate, OpenGate};
pub use run::run_over;
pub use scripts::run_scripts;
