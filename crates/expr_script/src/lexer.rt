// The tokens of a text.

ghost use Rattle.std.specs.Prelude.{◌≡◌, ◌+◌, ◌≤◌, length, All, IfOk};
ghost use Rattle.expr_script.specs.Pieces.{place_at, words_among};
ghost use Rattle.expr_script.specs.Tokens.{tokens_among};

use crate::atoms::Atoms;
use crate::pieces::Piece;
use crate::words::token;
use script_grammar::token::Token;
use script_tree::limits::INPUTS;
use script_tree::memory::OutOfMemory;
use script_tree::name::NameList;
use std::alloc::Global;

/// The tokens of the pieces of a text, in a script with these names. Takes memory.
pub fn tokens_of(
    alloc: Global,
    text: &[u8],
    pieces: &[Piece],
    atoms: Atoms,
    names: &NameList,
) -> Result<Vec<Token>, OutOfMemory>
    requires within { All (λ piece. piece.from + piece.len ≤ length text.now) pieces.now }
    requires few { length names.now ≤ INPUTS }
    ensures { IfOk result (λ tokens. tokens.items ≡ tokens_among atoms names.now (words_among text.now pieces.now)) }
{
    let mut tokens = Vec::with_capacity(alloc, pieces.len())?;
    for piece in pieces {
        tokens.push(token(atoms, names, piece.bytes_of(text)))?;
    }
    Ok(tokens)
}

/// The place of a piece by its number, and the end where there is none.
pub fn place_at(pieces: &[Piece], end: usize, index: usize) -> usize
    requires { All (λ piece. piece.from + piece.len ≤ end) pieces.now }
    ensures place { result ≡ place_at pieces.now end index }
    ensures within { result ≤ end }
{
    match pieces.get(index) {
        Some(piece) => piece.from,
        None => end,
    }
}
