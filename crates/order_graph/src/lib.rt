//! The recorded order of live calls: direct pairs between slots, and for each slot the set of all slots that precede it.
#![tactic(auto)]

pub use order::OrderGraph;
pub use pair::Pair;

pub mod laws;
mod order;
mod pair;
mod slot_set;

/// The largest number of callers, and so of slots.
pub const MAX_CALLERS: u32 = 256;
