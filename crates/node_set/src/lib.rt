//! Sets of nodes as bits in two levels: a bit for each node, and a bit for each word of these that isn't 0.
#![tactic(auto)]

pub use node_set::NodeSet;

mod bits;
mod node_set;
