// Scripts and bodies from their text.

ghost use Rattle.std.specs.Prelude.{◌≡◌, ◌≤◌, false, length, All, IfOk};
ghost use Rattle.script_tree.specs.Scripts.{HasNoPicks, HasNoAcc, IsBody};
ghost use Rattle.expr_script.specs.Pieces.{place, place_at, words, words_among, IsPieceOf};
ghost use Rattle.expr_script.specs.Spelled.{IsScriptAnswer, IsBodyAnswer};

use crate::atoms::Atoms;
use crate::faults::ScriptFault;
use crate::parse::parse;
use crate::pieces::{Piece, pieces};
use script_tree::limits::{LINE_BYTES, SELECTORS};
use script_tree::script::Script;
use std::alloc::Global;

/// The script that pieces of a text spell: some of those that `pieces` cuts it into, in any order. `acc` says whether
/// the word `acc` may stand in it: where it may not, it is a word that stands in no script. Of the faults `Syntax` and
/// `TooDeep` the one whose place comes first is answered, and `Syntax` at one place; `TooManyInputs` comes where
/// neither holds and the script has more than 64 different names. The place of a fault is where its piece begins, and
/// the length of the text where a script goes on behind all pieces. Takes memory.
#[tactic(auto, using(crate::proofs::CutBounds::all_within))]
pub fn parse_script_pieces(
    alloc: Global,
    text: &[u8],
    pieces: &[Piece],
    acc: bool,
) -> Result<Script, ScriptFault>
    requires short { length text.now ≤ LINE_BYTES }
    requires whole { All (IsPieceOf text.now) pieces.now }
    ensures answer { IsScriptAnswer acc (words_among text.now pieces.now) (place_at pieces.now (length text.now)) result }
    ensures picks { IfOk result HasNoPicks }
    ensures acc { acc ≡ false → IfOk result HasNoAcc }
{
    parse(alloc, text, pieces, Atoms::Script(acc))
}

/// The script that bytes spell, as `parse_script` reads a text. A byte above 127 stands in no script.
pub fn parse_script_bytes(alloc: Global, text: &[u8], acc: bool) -> Result<Script, ScriptFault>
    requires { length text.now ≤ LINE_BYTES }
    ensures answer { IsScriptAnswer acc (words text.now) (place text.now) result }
    ensures picks { IfOk result HasNoPicks }
    ensures acc { acc ≡ false → IfOk result HasNoAcc }
{
    let pieces = pieces(alloc, text)?;
    parse_script_pieces(alloc, text, &pieces, acc)
}

/// The script that a text spells. `acc` says whether the word `acc` may stand in it: where it may not, it is a word
/// that stands in no script. Of the faults `Syntax` and `TooDeep` the one whose place comes first is answered, and
/// `Syntax` at one place; `TooManyInputs` comes where neither holds and the script has more than 64 different names.
/// Takes memory.
pub fn parse_script(alloc: Global, text: &str, acc: bool) -> Result<Script, ScriptFault>
    requires { length text.now ≤ LINE_BYTES }
    ensures answer { IsScriptAnswer acc (words text.now) (place text.now) result }
    ensures picks { IfOk result HasNoPicks }
    ensures acc { acc ≡ false → IfOk result HasNoAcc }
{
    parse_script_bytes(alloc, text.as_bytes(), acc)
}

/// The body that pieces of a text spell over so many picks, as `parse_script_pieces` reads a script: in a body `pick1`
/// and the next ones stand in place of names and `acc`. Names, `acc` and further picks are words that stand in no body.
/// It never answers `TooManyInputs`. Takes memory.
#[tactic(auto, using(crate::proofs::CutBounds::all_within))]
pub fn parse_body_pieces(
    alloc: Global,
    text: &[u8],
    pieces: &[Piece],
    picks: u32,
) -> Result<Script, ScriptFault>
    requires short { length text.now ≤ LINE_BYTES }
    requires whole { All (IsPieceOf text.now) pieces.now }
    requires some { 1 ≤ picks }
    requires few { picks ≤ SELECTORS }
    ensures answer { IsBodyAnswer picks (words_among text.now pieces.now) (place_at pieces.now (length text.now)) result }
    ensures body { IfOk result (IsBody picks) }
{
    parse(alloc, text, pieces, Atoms::Body(picks))
}

/// The body that bytes spell, as `parse_body` reads a text. A byte above 127 stands in no body.
pub fn parse_body_bytes(alloc: Global, text: &[u8], picks: u32) -> Result<Script, ScriptFault>
    requires short { length text.now ≤ LINE_BYTES }
    requires some { 1 ≤ picks }
    requires few { picks ≤ SELECTORS }
    ensures answer { IsBodyAnswer picks (words text.now) (place text.now) result }
    ensures body { IfOk result (IsBody picks) }
{
    let pieces = pieces(alloc, text)?;
    parse_body_pieces(alloc, text, &pieces, picks)
}

/// The body that a text spells, over so many picks: a script in which `pick1` and the next ones stand in place of
/// names and `acc`. Names, `acc` and further picks are words that stand in no body. It never answers `TooManyInputs`.
/// Takes memory.
pub fn parse_body(alloc: Global, text: &str, picks: u32) -> Result<Script, ScriptFault>
    requires short { length text.now ≤ LINE_BYTES }
    requires some { 1 ≤ picks }
    requires few { picks ≤ SELECTORS }
    ensures answer { IsBodyAnswer picks (words text.now) (place text.now) result }
    ensures body { IfOk result (IsBody picks) }
{
    parse_body_bytes(alloc, text.as_bytes(), picks)
}
