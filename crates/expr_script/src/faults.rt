//! Why a text is no script.

use script_tree::memory::OutOfMemory;
use std::alloc::AllocError;
use thiserror::Error;

/// Why a text is no script. Places are byte offsets from 0.
#[derive(Clone, Copy, Debug, PartialEq, Eq, Error)]
pub enum ScriptFault {
    /// The place of the first token such that no script begins with the tokens up to it, or the length of the text
    /// where a script goes on behind it.
    #[error("no script: the word or sign at byte {0} can't stand there")]
    Syntax(u32),
    /// The place of the first token that stands inside more than 64 parentheses, prefix operators and `if`s.
    #[error("the script is nested too deep at byte {0}")]
    TooDeep(u32),
    /// The script has more than 64 different names.
    #[error("the script has too many different names")]
    TooManyInputs,
    /// There was no memory for the script.
    #[error("want of memory")]
    Memory,
}

impl From<OutOfMemory> for ScriptFault {
    ghost use Rattle.std.specs.Prelude.{◌≡◌};
    ghost use Rattle.expr_script.specs.declared.faults.ScriptFault.TheVariants.{Memory};

    ghost from_gives = { λ _ e. e ≡ Memory };

    fn from(_: OutOfMemory) -> ScriptFault {
        ScriptFault::Memory
    }
}
