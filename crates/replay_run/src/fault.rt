// Why a schedule is not replayed.

ghost use Rattle.std.specs.Prelude.{◌≡◌};

use script_tree::memory::OutOfMemory;
use thiserror::Error;

/// Why a schedule is not replayed.
#[derive(Clone, Copy, Debug, PartialEq, Eq, Error)]
pub enum ReplayFault {
    /// The place of the first number of the schedule, counted from 1, that names no thread.
    #[error("schedule number {0}: no such thread")]
    ScheduleNumber(u32),
    /// There was no memory.
    #[error("want of memory")]
    Memory,
}

impl From<OutOfMemory> for ReplayFault {
    ghost use Rattle.replay_run.specs.declared.fault.ReplayFault.TheVariants.{Memory};

    ghost from_gives = { λ _ fault. fault ≡ Memory };

    fn from(_: OutOfMemory) -> ReplayFault {
        ReplayFault::Memory
    }
}
