// What words ask for.

use std::alloc::AllocError;
use thiserror::Error;

/// What the program is asked to do, with the deck that it reads, or with one that it makes.
#[derive(Clone, Copy, Debug, PartialEq, Eq)]
pub enum Command {
    /// Run it, with at most so many versions, and write the report, as text or as JSON.
    Run { versions: u32, json: bool },
    /// The same in the turns that the schedule behind the deck names, and then in rounds.
    Replay { versions: u32, json: bool },
    /// The same by the one-thread machine, thread after thread.
    Serial { versions: u32, json: bool },
    /// Write it in its canonical form.
    Print,
    /// Tell whether the report behind it is that of a run of it with at most so many versions.
    Check { versions: u32 },
    /// Make the workload's deck of a number, run it, and write the summary of the run. Nothing is read.
    Make { number: u64 },
}

/// Why words are not followed.
#[derive(Clone, Copy, Debug, PartialEq, Eq, Error)]
pub enum WordsFault {
    /// They are no command line.
    #[error("words refused")]
    Refused,
    /// There was no memory to read them.
    #[error("want of memory")]
    Memory,
}

impl From<AllocError> for WordsFault {
    ghost use Rattle.std.specs.Prelude.{◌≡◌};
    ghost use Rattle.command_words.specs.declared.command.WordsFault.TheVariants.{Memory};

    ghost from_gives = { λ _ fault. fault ≡ Memory };

    fn from(_: AllocError) -> WordsFault {
        WordsFault::Memory
    }
}
