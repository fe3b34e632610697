//! What one line of a deck says. A line is cut once into words and signs, and all its parts are read from these.
#![tactic(auto)]

pub mod bytes;
mod calls;
mod choose;
mod cut;
mod declarations;
mod fault;
mod inputs;
mod keyword;
pub mod laws;
mod line;
mod names;
mod reading;
mod said;
mod scripts;
mod selectors;
mod value;

pub use crate::fault::{Limit, LineFault};
pub use crate::line::Line;
pub use crate::reading::read_line;
