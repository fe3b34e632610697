// The names of a script.

ghost use Rattle.std.specs.Prelude.{◌+◌, ◌≤◌, List, ℕ, [], length, All, IfOk};
ghost use Rattle.expr_script.specs.Inputs.{KeepsFirst};
ghost use Rattle.expr_script.specs.Pieces.{words_among};
ghost use Rattle.expr_script.specs.Tokens.{with_name, script_names};

use crate::pieces::Piece;
use crate::words::place_of;
use script_tree::limits::INPUTS;
use script_tree::memory::OutOfMemory;
use script_tree::name::{Name, NameList};
use std::alloc::Global;

/// The first different names of a script, and whether it has more than may be kept.
#[derive(Debug, Drop)]
pub struct Inputs {
    pub names: NameList,
    pub more: bool,
}

impl Inputs {
    /// No names. Takes no memory.
    pub fn new(alloc: Global) -> Inputs
        ensures { KeepsFirst INPUTS result.names result.more [] }
    {
        Inputs {
            names: NameList::new(alloc),
            more: false,
        }
    }

    // Adds a word, if it is a name that isn't there yet.
    fn add(&mut self, word: &[u8]) -> Result<(), OutOfMemory>
        ensures { IfOk result (λ _. (all : List (List ℕ)) → KeepsFirst INPUTS self.old.names self.old.more all
            → KeepsFirst INPUTS self.new.names self.new.more (with_name all word.now)) }
    {
        let Some(name) = Name::of_bytes(word) else {
            return Ok(());
        };
        if place_of(&self.names, &name) < self.names.len() {
            return Ok(());
        }
        if self.names.len() < INPUTS {
            self.names.push(name)?;
        } else {
            self.more = true;
        }
        Ok(())
    }

    /// The names among pieces of a text. Takes memory.
    pub fn of_pieces(alloc: Global, text: &[u8], pieces: &[Piece]) -> Result<Inputs, OutOfMemory>
        requires { All (λ piece. piece.from + piece.len ≤ length text.now) pieces.now }
        ensures { IfOk result (λ inputs. KeepsFirst INPUTS inputs.names inputs.more (script_names (words_among text.now pieces.now))) }
    {
        let mut inputs = Inputs::new(alloc);
        for piece in pieces {
            inputs.add(piece.bytes_of(text))?;
        }
        Ok(inputs)
    }
}
