// The lines that declare a node with at most one script.

ghost use Rattle.std.specs.Prelude.{◌≡◌, ◌≤◌, length, Some, IfOk, IsTrue};
ghost use Rattle.expr_script.specs.Pieces.{words_among};
ghost use Rattle.deck_lines.specs.Cuts.{ArePiecesOf};
ghost use Rattle.deck_lines.specs.Kept.{IsKept};
ghost use Rattle.deck_lines.specs.Lines.{IsRead, IsReadAs};
ghost use Rattle.deck_lines.specs.Forms as form;
ghost use Rattle.deck_lines.specs.Forms.{Words};
ghost use Rattle.deck_lines.specs.Values.{value_of};
ghost use Rattle.signal_graph.specs.Graph.{is_start};
ghost use Rattle.deck_lines.specs.Reading.{source_by, fold_by};

use crate::cut::cut;
use crate::fault::LineFault;
use crate::line::Line;
use crate::scripts::script;
use crate::value::value;
use expr_script::pieces::Piece;
use script_tree::limits::LINE_BYTES;
use script_tree::name::Name;
use script_tree::value::Value;
use signal_graph::builder::DeclKind;
use std::alloc::Global;

/// A source with this name, from what stands behind its `=`.
pub fn source(text: &[u8], name: Name, pieces: &[Piece]) -> Result<Line, LineFault>
    requires { ArePiecesOf text.now pieces.now }
    ensures read { IsRead (source_by (name, words_among text.now pieces.now)) result }
    ensures kept { IfOk result IsKept }
{
    match value(text, pieces) {
        Some(start) => Ok(Line::Declares(name, DeclKind::Source { start })),
        None => Err(LineFault::Syntax),
    }
}

/// A signal with this name, from what stands behind its `=`.
pub fn signal(alloc: Global, text: &[u8], name: Name, pieces: &[Piece]) -> Result<Line, LineFault>
    requires short { length text.now ≤ LINE_BYTES }
    requires whole { ArePiecesOf text.now pieces.now }
    ensures read { IsReadAs (form.Signal name (words_among text.now pieces.now)) result }
    ensures kept { IfOk result IsKept }
{
    match script(alloc, text, pieces, false) {
        Ok(script) => Ok(Line::Declares(name, DeclKind::Signal { script })),
        Err(fault) => Err(fault),
    }
}

// A fold with this start value, which these pieces spell.
fn fold_from(
    alloc: Global,
    text: &[u8],
    name: Name,
    start: Value,
    pieces: &[Piece],
) -> Result<Line, LineFault>
    requires short { length text.now ≤ LINE_BYTES }
    requires whole { ArePiecesOf text.now pieces.now }
    requires start { IsTrue (is_start start) }
    ensures read { (words : Words) → value_of words ≡ Some start
        → IsReadAs (form.Fold name words (words_among text.now pieces.now)) result }
    ensures kept { IfOk result IsKept }
{
    match script(alloc, text, pieces, true) {
        Ok(script) => Ok(Line::Declares(name, DeclKind::Fold { start, script })),
        Err(fault) => Err(fault),
    }
}

/// A fold with this name, from what stands behind its `=`.
pub fn fold(alloc: Global, text: &[u8], name: Name, pieces: &[Piece]) -> Result<Line, LineFault>
    requires short { length text.now ≤ LINE_BYTES }
    requires whole { ArePiecesOf text.now pieces.now }
    ensures read { IsRead (fold_by (name, words_among text.now pieces.now)) result }
    ensures kept { IfOk result IsKept }
{
    let Some((before, behind)) = cut(text, pieces, b":") else {
        return Err(LineFault::Syntax);
    };
    let Some(start) = value(text, before) else {
        return Err(LineFault::Syntax);
    };
    fold_from(alloc, text, name, start, behind)
}
