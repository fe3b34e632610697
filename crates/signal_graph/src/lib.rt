//! Graphs of signals, the calls on them, and what the one-thread machine answers.
#![tactic(auto)]

pub mod builder;
pub mod call;
pub mod compare;
pub mod evaluate;
pub mod graph;
pub mod laws;
pub mod log;
mod names;
pub mod node;
mod outs;
mod resolve;
mod starts;
