//! Calls that reach a node late, since an earlier call comes to depend on what they change.
#![tactic(auto)]

pub use extending::extend_wanted;
pub use helping::to_help;

mod extending;
mod helping;
