//! A history that only grows, its one writer, and notes of its beginnings.
//!
//! The history itself stands in contracts alone. What lies in memory is one word, its length.
#![tactic(auto)]

mod entry;
mod note;
mod steps;
mod view;
mod writer;

pub use entry::{Entry, Named, Names};
pub use note::Note;
pub use writer::Writer;
