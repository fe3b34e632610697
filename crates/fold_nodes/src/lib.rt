//! The steps of folds, which keep a value from call to call.
#![tactic(auto)]

pub use folding::{fold_acc, resolve_fold};

mod folding;
