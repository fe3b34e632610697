//! The limits of decks, scripts and runs. Every contract cites these constants.

/// The nodes of a graph.
pub const NODES: u32 = 16_384;

/// The threads of a deck, and so the callers of a run.
pub const THREADS: u32 = 256;

/// The bytes of a deck.
pub const DECK_BYTES: u64 = 16_777_216;

/// The bytes of a deck and a schedule together.
pub const REPLAY_BYTES: u64 = 33_554_432;

/// The bytes of a line, with its carriage return and its comment, without its line feed.
pub const LINE_BYTES: usize = 4_096;

/// The bytes of a name.
pub const NAME_BYTES: usize = 32;

/// The parentheses, prefix operators and `if`s that may be open at a token of a script.
pub const LEVELS: usize = 64;

/// The different names of a script, and of all selectors of a choose together.
pub const INPUTS: usize = 64;

/// The candidates of one selector.
pub const CANDIDATES: usize = 64;

/// The selectors of a choose, and so the picks of its body.
pub const SELECTORS: usize = 4;

/// The sets of a fire.
pub const SETS: usize = 64;

/// The looks of a call.
pub const LOOKS: usize = 64;

/// The versions of a run, and so the accepted calls of one.
pub const VERSIONS: u32 = 4_000_000;
