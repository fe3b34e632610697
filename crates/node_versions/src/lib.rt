//! One node's list: an entry for each call that reached the node, in the calls' order, and the node's out-edges.
#![tactic(auto)]

pub use entry::{Entry, State};
pub use list::NodeList;

mod entry;
pub mod laws;
mod list;
