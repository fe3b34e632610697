//! Decks as text: read, and printed in their canonical form.
#![tactic(auto)]

mod deck;
mod fault;
pub mod laws;
mod lines;
mod printer;
mod reader;
mod reason;

pub use crate::deck::Deck;
pub use crate::fault::{DeckFault, What};
pub use crate::printer::print_deck;
pub use crate::reader::read_deck;
