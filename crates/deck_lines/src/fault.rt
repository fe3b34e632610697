// Why a line is refused.
use script_tree::memory::OutOfMemory;
use std::alloc::{AllocError, AllocFailed};

/// A limit of what one line says. The order is that in which the limits are looked at.
#[derive(Clone, Copy, PartialEq, Eq, PartialOrd, Ord, Debug)]
pub enum Limit {
    /// Parentheses, prefix operators and `if`s that are open at one place of a script.
    Levels,
    /// Different names of a script, or of the selectors of one choose together.
    Inputs,
    /// Candidates of one selector.
    Candidates,
    /// Selectors of a choose.
    Selectors,
    /// Sets of a fire.
    Sets,
    /// Looks of a call.
    Looks,
}

/// Why a line is refused.
#[derive(Clone, Copy, PartialEq, Eq, Debug)]
pub enum LineFault {
    /// It has none of the forms of a line, or a script of it is none.
    Syntax,
    /// It has a form, and goes beyond this limit and none before it.
    TooMany(Limit),
    /// There was no memory for what it says.
    Memory,
}

impl From<OutOfMemory> for LineFault {
    ghost use Rattle.std.specs.Prelude.{◌≡◌};
    ghost use Rattle.deck_lines.specs.declared.fault.LineFault.TheVariants.{Memory};

    ghost from_gives = { λ _ e. e ≡ Memory };

    fn from(_: OutOfMemory) -> LineFault {
        LineFault::Memory
    }
}

impl From<AllocError> for LineFault {
    ghost use Rattle.std.specs.Prelude.{◌≡◌};
    ghost use Rattle.deck_lines.specs.declared.fault.LineFault.TheVariants.{Memory};

    ghost from_gives = { λ _ e. e ≡ Memory };

    fn from(_: AllocError) -> LineFault {
        LineFault::Memory
    }
}

impl<T: Drop> From<AllocFailed<T>> for LineFault {
    ghost use Rattle.std.specs.Prelude.{◌≡◌};
    ghost use Rattle.deck_lines.specs.declared.fault.LineFault.TheVariants.{Memory};

    ghost from_gives = { λ _ e. e ≡ Memory };

    fn from(_: AllocFailed<T>) -> LineFault {
        LineFault::Memory
    }
}
