// Why a line is refused.

ghost use Rattle.std.specs.Prelude.{◌≡◌};
ghost use Rattle.deck_text.specs.Faults.{fault_at, limit_reason};

use crate::fault::{DeckFault, What};
use deck_lines::Limit;
use script_tree::memory::OutOfMemory;
use signal_graph::builder::GraphFault;
use std::alloc::{AllocError, AllocFailed};

/// Why a line is refused, without the line's number.
#[derive(Clone, Copy, PartialEq, Eq, Debug)]
pub enum Reason {
    LineTooLong,
    Syntax,
    TooMany(What),
    DoubleName,
    UnknownInput,
    Memory,
}

impl Reason {
    /// The fault of a deck whose line of this number is refused for the reason.
    pub fn at(self, line: u32) -> DeckFault
        ensures { result ≡ fault_at line self }
    {
        match self {
            Reason::LineTooLong => DeckFault::LineTooLong(line),
            Reason::Syntax => DeckFault::Syntax(line),
            Reason::TooMany(what) => DeckFault::TooMany(line, what),
            Reason::DoubleName => DeckFault::DoubleName(line),
            Reason::UnknownInput => DeckFault::UnknownInput(line),
            Reason::Memory => DeckFault::Memory,
        }
    }
}

impl From<OutOfMemory> for Reason {
    ghost use Rattle.std.specs.Prelude.{◌≡◌};
    ghost use Rattle.deck_text.specs.declared.reason.Reason.TheVariants.{Memory};

    ghost from_gives = { λ _ e. e ≡ Memory };

    fn from(_: OutOfMemory) -> Reason {
        Reason::Memory
    }
}

impl From<AllocError> for Reason {
    ghost use Rattle.std.specs.Prelude.{◌≡◌};
    ghost use Rattle.deck_text.specs.declared.reason.Reason.TheVariants.{Memory};

    ghost from_gives = { λ _ e. e ≡ Memory };

    fn from(_: AllocError) -> Reason {
        Reason::Memory
    }
}

impl<T: Drop> From<AllocFailed<T>> for Reason {
    ghost use Rattle.std.specs.Prelude.{◌≡◌};
    ghost use Rattle.deck_text.specs.declared.reason.Reason.TheVariants.{Memory};

    ghost from_gives = { λ _ e. e ≡ Memory };

    fn from(_: AllocFailed<T>) -> Reason {
        Reason::Memory
    }
}

impl From<GraphFault> for Reason {
    ghost use Rattle.std.specs.Prelude.{◌≡◌};
    ghost use Rattle.deck_text.specs.Faults.{declaration_reason};

    ghost from_gives = { λ fault r. r ≡ declaration_reason fault };

    fn from(fault: GraphFault) -> Reason {
        match fault {
            GraphFault::DoubleName => Reason::DoubleName,
            GraphFault::UnknownInput(_) => Reason::UnknownInput,
            GraphFault::TooManyNodes => Reason::TooMany(What::Nodes),
            GraphFault::Memory => Reason::Memory,
        }
    }
}

impl Reason {
    /// The reason of a line that goes beyond one of its own limits.
    pub fn beyond(limit: Limit) -> Reason
        ensures { result ≡ limit_reason limit }
    {
        let what = match limit {
            Limit::Levels => What::Levels,
            Limit::Inputs => What::Inputs,
            Limit::Candidates => What::Candidates,
            Limit::Selectors => What::Selectors,
            Limit::Sets => What::Sets,
            Limit::Looks => What::Looks,
        };
        Reason::TooMany(what)
    }
}
