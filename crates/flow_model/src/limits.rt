// How large a node's list becomes.

/// The entries that a list has room for beyond one for each caller.
pub const SPARE_ENTRIES: u32 = 9;
