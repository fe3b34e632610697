// Names, alone and in lists.

ghost use Rattle.std.specs.Prelude.{◌≡◌, ◌≤◌, length, Some, None, IfOk, IfNone, IfSome};
ghost use Rattle.expr_script.specs.Pieces.{words_among};
ghost use Rattle.deck_lines.specs.Cuts.{ArePiecesOf};
ghost use Rattle.deck_lines.specs.Answers.{Reads};
ghost use Rattle.deck_lines.specs.Reading.{name_of, names_of, head_of};

use crate::cut::{cut, first, is_word, parts};
use crate::fault::LineFault;
use expr_script::pieces::Piece;
use script_tree::items::Items;
use script_tree::name::{Name, NameList};
use std::alloc::Global;

/// The name that pieces are.
#[tactic(auto, using(crate::proofs::Going::piece_laws))]
pub fn name(text: &[u8], pieces: &[Piece]) -> Option<Name>
    requires { ArePiecesOf text.now pieces.now }
    ensures some { IfSome result (λ name. name_of (words_among text.now pieces.now) ≡ Some name) }
    ensures none { IfNone result (name_of (words_among text.now pieces.now) ≡ None) }
{
    let (word, rest) = first(text, pieces)?;
    if !rest.is_empty() {
        return None;
    }
    Name::of_bytes(word.bytes_of(text))
}

/// The names that pieces are, with commas between them. Room for them is made once.
#[tactic(auto, using(crate::proofs::Going::going_laws))]
pub fn names(alloc: Global, text: &[u8], pieces: &[Piece]) -> Result<NameList, LineFault>
    requires { ArePiecesOf text.now pieces.now }
    ensures read { Reads (names_of (words_among text.now pieces.now)) result }
    ensures some { IfOk result (λ names. 1 ≤ length names) }
{
    let mut names = Vec::with_capacity(alloc, parts(text, pieces, b","))?;
    let mut rest = pieces;
    while let Some((before, after)) = cut(text, rest, b",") {
        let Some(one) = name(text, before) else {
            return Err(LineFault::Syntax);
        };
        names.push(one)?;
        rest = after;
    }
    let Some(last) = name(text, rest) else {
        return Err(LineFault::Syntax);
    };
    names.push(last)?;
    Ok(Items::from_vec(names))
}

/// A name, `=` and the pieces behind it.
#[tactic(auto, using(crate::proofs::Going::piece_laws))]
pub fn head<'a>(text: &[u8], pieces: &'a [Piece]) -> Option<(Name, &'a [Piece])>
    requires { ArePiecesOf text.now pieces.now }
    ensures some { IfSome result (λ p. head_of (words_among text.now pieces.now) ≡ Some (p.0, words_among text.now p.1.now)) }
    ensures whole { IfSome result (λ p. ArePiecesOf text.now p.1.now) }
    ensures none { IfNone result (head_of (words_among text.now pieces.now) ≡ None) }
{
    let (word, behind) = first(text, pieces)?;
    let (sign, rest) = first(text, behind)?;
    let name = Name::of_bytes(word.bytes_of(text))?;
    if !is_word(text, sign, b"=") {
        return None;
    }
    Some((name, rest))
}
