//! Values, names, lists and scripts: the data that every crate above speaks of, and what a script evaluates to.
#![tactic(auto)]

mod arith;
pub mod bytes;
mod eval;
pub mod expr;
pub mod items;
pub mod limits;
pub mod memory;
pub mod name;
pub mod picks;
pub mod print;
pub mod script;
pub mod value;
