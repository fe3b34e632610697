//! The limits of what the program reads, beside those of a deck.

/// How many bytes a deck and the schedule behind it may have together.
pub const SCHEDULED_BYTES: u64 = 33_554_432;

/// How many bytes a deck and the report behind it may have together.
pub const REPORTED_BYTES: u64 = 268_435_456;
