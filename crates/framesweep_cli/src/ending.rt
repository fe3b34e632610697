// How a run of the program ends.

ghost use Rattle.std.specs.Prelude.{◌≡◌};
ghost use Rattle.framesweep_cli.specs.Statuses.{status_of};

use crate::fault::InputFault;

/// How a command ends.
#[derive(Clone, Copy, Debug)]
pub enum Ending {
    /// The output was written whole and flushed.
    Done,
    /// The input is refused, for this fault.
    Refused(InputFault),
    /// A read failed.
    ReadFailed,
    /// A write or the flush failed.
    WriteFailed,
    /// There was no memory.
    OutOfMemory,
}

impl Ending {
    ghost use Rattle.framesweep_cli.specs.Statuses.{status_of};

    /// The status of an ending.
    pub fn status(self) -> u8
        ensures { result ≡ status_of self }
    {
        match self {
            Ending::Done => 0,
            Ending::Refused(_) => 2,
            Ending::ReadFailed => 3,
            Ending::WriteFailed => 4,
            Ending::OutOfMemory => 5,
        }
    }
}
