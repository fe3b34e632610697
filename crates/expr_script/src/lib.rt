//! Scripts as text. `parse_script` and `parse_body` read them, and `print_script` writes the canonical form, whatever
//! blanks, parentheses and zeros a text had. `pieces` cuts a line into the words and signs of the language.
#![tactic(auto)]

mod atoms;
mod faults;
mod inputs;
pub mod laws;
mod lexer;
mod parse;
pub mod pieces;
mod printing;
mod reading;
mod words;

pub use crate::faults::ScriptFault;
pub use crate::printing::{print_script, print_script_to};
pub use crate::reading::{
    parse_body, parse_body_bytes, parse_body_pieces, parse_script, parse_script_bytes,
    parse_script_pieces,
};
pub use script_tree::items::Text;
pub use script_tree::limits;
pub use script_tree::memory::OutOfMemory;
pub use script_tree::name::{Name, NameList};
pub use script_tree::picks::Picks;
pub use script_tree::script::Script;
pub use script_tree::value::{Fault, Value};
