//! What the callers of one history have seen of it, and what they find again after moves of others. It holds definitions and laws
//! alone, for those who run calls in threads.
#![tactic(auto)]

pub mod laws;
