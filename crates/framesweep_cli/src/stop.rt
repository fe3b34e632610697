// Why there is no output.

use crate::fault::InputFault;
use script_tree::memory::OutOfMemory;

/// Why there is no output.
#[derive(Clone, Copy, Debug)]
pub enum Stop {
    /// A read failed.
    Read,
    /// The input is refused.
    Input(InputFault),
    /// There was no memory.
    Memory,
}

impl From<OutOfMemory> for Stop {
    ghost use Rattle.std.specs.Prelude.{◌≡◌};
    ghost use Rattle.framesweep_cli.specs.declared.stop.Stop.TheVariants.{Memory};

    ghost from_gives = { λ _ stop. stop ≡ Memory };

    fn from(_: OutOfMemory) -> Stop {
        Stop::Memory
    }
}
