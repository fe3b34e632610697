//! The command line: what words ask for, and what is done for them.
#![tactic(auto)]

mod ending;
mod fault;
mod input;
pub mod laws;
pub mod limits;
mod lines;
mod output;
mod reading;
mod stop;
mod top;

pub use command_words::{Command, WordsFault, read_words};
pub use fault::InputFault;
pub use lines::MEMORY_LINE;
pub use top::{framesweep, framesweep_alone};
