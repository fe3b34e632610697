//! The steps of a call that frames: it begins, frames what it wants, and starts.
#![tactic(auto)]

pub use beginning::begin;
pub use framed::frame;
pub use starting::start;

mod beginning;
mod framed;
mod starting;
