//! Sources and sinks of bytes whose faults are counted, and reading and writing a whole text through them.
#![tactic(auto)]

pub mod adapters;
mod copy;
pub mod fault;
pub mod mem_sink;
pub mod mem_source;
pub mod sink;
pub mod source;
pub mod sure_sink;
pub mod sure_source;
pub mod whole;
