//! The steps of a call that executes.
#![tactic(auto)]

pub use ending::end;
pub use gathering::gather;
pub use looking::look;
pub use marking::mark;
pub use putting::{put, put_value};
pub use resolving::resolve;
pub use skipping::skip;

mod ending;
mod gathering;
mod looking;
mod marking;
mod putting;
mod resolving;
mod skipping;
