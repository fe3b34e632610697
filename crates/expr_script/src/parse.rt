// A script from the words of a text.

ghost use Rattle.std.specs.Prelude.{◌≡◌, ◌+◌, ◌≤◌, length, All, IfOk};
ghost use Rattle.expr_script.specs.Inputs.{KeepsFirst};
ghost use Rattle.expr_script.specs.Pieces.{place_at, words_among};
ghost use Rattle.expr_script.specs.Tokens.{names};
ghost use Rattle.expr_script.specs.Spelled.{HasAtoms, IsAnswer};
ghost use Rattle.expr_script.specs.Refused.{fault_of};

use crate::atoms::Atoms;
use crate::faults::ScriptFault;
use crate::inputs::Inputs;
use crate::lexer::{place_at, tokens_of};
use crate::pieces::Piece;
use script_grammar::reader::{Refusal, read_script};
use script_tree::limits::{INPUTS, LINE_BYTES};
use script_tree::memory::OutOfMemory;
use script_tree::script::Script;
use std::alloc::Global;

// The names of a script, of which a body has none.
fn inputs_of(
    alloc: Global,
    text: &[u8],
    pieces: &[Piece],
    atoms: Atoms,
) -> Result<Inputs, OutOfMemory>
    requires { All (λ piece. piece.from + piece.len ≤ length text.now) pieces.now }
    ensures { IfOk result (λ inputs. KeepsFirst INPUTS inputs.names inputs.more (names atoms (words_among text.now pieces.now))) }
{
    match atoms {
        Atoms::Script(_) => Inputs::of_pieces(alloc, text, pieces),
        Atoms::Body(_) => Ok(Inputs::new(alloc)),
    }
}

fn fault_of(refusal: Refusal, pieces: &[Piece], end: usize) -> ScriptFault
    requires within { All (λ piece. piece.from + piece.len ≤ end) pieces.now }
    requires short { end ≤ LINE_BYTES }
    ensures { result ≡ fault_of (place_at pieces.now end) refusal }
{
    match refusal {
        Refusal::Syntax(token) => ScriptFault::Syntax(place_at(pieces, end, token) as u32),
        Refusal::TooDeep(token) => ScriptFault::TooDeep(place_at(pieces, end, token) as u32),
        Refusal::Memory => ScriptFault::Memory,
    }
}

/// The script that pieces of a text spell, with these atoms. Takes memory.
pub fn parse(
    alloc: Global,
    text: &[u8],
    pieces: &[Piece],
    atoms: Atoms,
) -> Result<Script, ScriptFault>
    requires short { length text.now ≤ LINE_BYTES }
    requires within { All (λ piece. piece.from + piece.len ≤ length text.now) pieces.now }
    ensures answer { IsAnswer atoms (words_among text.now pieces.now) (place_at pieces.now (length text.now)) result }
    ensures atoms { IfOk result (HasAtoms atoms) }
{
    let inputs = inputs_of(alloc, text, pieces, atoms)?;
    let tokens = tokens_of(alloc, text, pieces, atoms, &inputs.names)?;
    let tree = match read_script(alloc, &tokens) {
        Ok(tree) => tree,
        Err(refusal) => return Err(fault_of(refusal, pieces, text.len())),
    };
    if inputs.more {
        return Err(ScriptFault::TooManyInputs);
    }
    Ok(Script::new(inputs.names, tree))
}
