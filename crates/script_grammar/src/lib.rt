//! The grammar of scripts: its tokens, its laws, the reader of tokens and the writer of canonical tokens.
#![tactic(auto)]

pub mod laws;
mod level;
mod next;
mod pending;
pub mod reader;
mod stack;
mod step;
pub mod token;
pub mod writer;
