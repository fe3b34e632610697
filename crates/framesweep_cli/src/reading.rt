// The table of what commands read.

use crate::limits::{REPORTED_BYTES, SCHEDULED_BYTES};
use command_words::Command;
use script_tree::limits::DECK_BYTES;

/// What a command reads.
#[derive(Clone, Copy, Debug)]
pub enum Reading {
    /// A deck.
    Deck,
    /// A deck, and a schedule behind it.
    Scheduled,
    /// A deck, and a report behind it.
    Reported,
}

impl Reading {
    ghost use Rattle.std.specs.Prelude.{◌≡◌};
    ghost use Rattle.framesweep_cli.specs.Inputs.{reading_of, most_bytes};

    /// What a command reads, if it reads anything.
    pub fn of(command: &Command) -> Option<Reading>
        ensures { result ≡ reading_of command.now }
    {
        match command {
            Command::Run { .. } | Command::Serial { .. } | Command::Print => Some(Reading::Deck),
            Command::Replay { .. } => Some(Reading::Scheduled),
            Command::Check { .. } => Some(Reading::Reported),
            Command::Make { .. } => None,
        }
    }

    /// How many bytes that may have. More are refused, and one of these is read.
    pub fn most_bytes(self) -> u64
        ensures { result ≡ most_bytes self }
    {
        match self {
            Reading::Deck => DECK_BYTES,
            Reading::Scheduled => SCHEDULED_BYTES,
            Reading::Reported => REPORTED_BYTES,
        }
    }
}
