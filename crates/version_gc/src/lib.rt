//! The step that shortens a node's list: entries of ended calls go.
#![tactic(auto)]

pub use collecting::collect;

mod collecting;
