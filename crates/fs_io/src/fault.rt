// How a call of a device fails, and reading a whole text.

ghost use Rattle.std.specs.Prelude.{◌≡◌};

use script_tree::memory::OutOfMemory;
use std::alloc::AllocError;
use thiserror::Error;

/// A read, a write or a flush failed.
#[derive(Clone, Copy, Debug, PartialEq, Eq)]
pub struct Failed;

/// Why a whole text wasn't read.
#[derive(Clone, Copy, Debug, PartialEq, Eq, Error)]
pub enum ReadFault {
    /// A read failed.
    #[error("read fault")]
    Source,
    /// There was no memory for the bytes.
    #[error("want of memory")]
    Memory,
}

impl From<OutOfMemory> for ReadFault {
    ghost use Rattle.fs_io.specs.declared.fault.ReadFault.TheVariants.{Memory};

    ghost from_gives = { λ _ fault. fault ≡ Memory };

    fn from(_: OutOfMemory) -> ReadFault {
        ReadFault::Memory
    }
}

impl From<AllocError> for ReadFault {
    ghost use Rattle.fs_io.specs.declared.fault.ReadFault.TheVariants.{Memory};

    ghost from_gives = { λ _ fault. fault ≡ Memory };

    fn from(_: AllocError) -> ReadFault {
        ReadFault::Memory
    }
}
