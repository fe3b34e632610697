//! A call enters a node's list at its place, and the recorded order learns its neighbours: the piece that Frame, Mark, Discover
//! and Drop are made of.
#![tactic(auto)]

pub use entry::enter;
pub use marking::ensure_mark;

mod entry;
mod marking;
