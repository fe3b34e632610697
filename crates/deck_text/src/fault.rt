// Why a deck is refused.

use std::fmt;
use thiserror::Error;

/// What there is too much of. The order is that of the reasons of a line.
#[derive(Clone, Copy, PartialEq, Eq, PartialOrd, Ord, Debug)]
pub enum What {
    /// Bytes of a deck.
    Bytes,
    /// Declarations.
    Nodes,
    /// Threads.
    Threads,
    /// Parentheses, prefix operators and `if`s that are open at one place of a script.
    Levels,
    /// Different names of a script, or of the selectors of one choose together.
    Inputs,
    /// Candidates of one selector.
    Candidates,
    /// Selectors of a choose.
    Selectors,
    /// Sets of a fire.
    Sets,
    /// Looks of a call.
    Looks,
}

impl fmt::Display for What {
    fn fmt<W: fmt::Write>(&self, f: &mut fmt::Formatter<W>) -> fmt::Result {
        match self {
            What::Bytes => write!(f, "bytes"),
            What::Nodes => write!(f, "nodes"),
            What::Threads => write!(f, "threads"),
            What::Levels => write!(f, "levels"),
            What::Inputs => write!(f, "inputs"),
            What::Candidates => write!(f, "candidates"),
            What::Selectors => write!(f, "selectors"),
            What::Sets => write!(f, "sets"),
            What::Looks => write!(f, "looks"),
        }
    }
}

/// Why a deck is refused: the first faulty line, counted from 1, with the first of its reasons.
#[derive(Clone, Copy, PartialEq, Eq, Debug, Error)]
pub enum DeckFault {
    /// The line has none of the forms of a line, or stands in the wrong part of the deck.
    #[error("line {0}: syntax")]
    Syntax(u32),
    /// The name that it declares is declared before.
    #[error("line {0}: double name")]
    DoubleName(u32),
    /// A script or a list of candidates names what no line before declares.
    #[error("line {0}: unknown input")]
    UnknownInput(u32),
    /// It goes beyond a limit.
    #[error("line {0}: too many {1}")]
    TooMany(u32, What),
    /// It has more than 4,096 bytes, without its line feed.
    #[error("line {0}: line too long")]
    LineTooLong(u32),
    /// No line is faulty, and none is `thread`.
    #[error("no thread")]
    NoThread,
    /// There was no memory for what the deck holds.
    #[error("want of memory")]
    Memory,
}
