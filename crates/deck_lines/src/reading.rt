// A line, by the word that it begins with.

ghost use Rattle.std.specs.Prelude.{◌≡◌, ◌≤◌, length, IfOk, IfErr};
ghost use Rattle.std.specs.Option.{option_and_then};
ghost use Rattle.expr_script.specs.Pieces.{words_among};
ghost use Rattle.deck_lines.specs.Cuts.{ArePiecesOf};
ghost use Rattle.deck_lines.specs.Kept.{IsKept};
ghost use Rattle.deck_lines.specs.Lines.{IsRead, IsLine, IsLineFault};
ghost use Rattle.deck_lines.specs.Reading.{head_of, declared_by, thread_of, form_by, form_of};
ghost use Rattle.deck_lines.specs.Texts.{line_words};

use crate::calls::{fire, read};
use crate::choose::choose;
use crate::cut::first;
use crate::declarations::{fold, signal, source};
use crate::fault::LineFault;
use crate::keyword::Keyword;
use crate::line::Line;
use crate::names::head;
use crate::said::said;
use expr_script::pieces::{Piece, pieces};
use script_tree::limits::LINE_BYTES;
use script_tree::name::Name;
use std::alloc::Global;

// The declaration of a node with this name.
fn declares(
    alloc: Global,
    text: &[u8],
    keyword: Keyword,
    name: Name,
    pieces: &[Piece],
) -> Result<Line, LineFault>
    requires short { length text.now ≤ LINE_BYTES }
    requires whole { ArePiecesOf text.now pieces.now }
    ensures read { IsRead (declared_by keyword (name, words_among text.now pieces.now)) result }
    ensures kept { IfOk result IsKept }
{
    match keyword {
        Keyword::Source => source(text, name, pieces),
        Keyword::Signal => signal(alloc, text, name, pieces),
        Keyword::Fold => fold(alloc, text, name, pieces),
        Keyword::Choose => choose(alloc, text, name, pieces),
        Keyword::Thread | Keyword::Fire | Keyword::Read => Err(LineFault::Syntax),
    }
}

// A declaration, from what stands behind its first word.
fn declared(
    alloc: Global,
    text: &[u8],
    keyword: Keyword,
    pieces: &[Piece],
) -> Result<Line, LineFault>
    requires short { length text.now ≤ LINE_BYTES }
    requires whole { ArePiecesOf text.now pieces.now }
    ensures read { IsRead (option_and_then (declared_by keyword) (head_of (words_among text.now pieces.now))) result }
    ensures kept { IfOk result IsKept }
{
    match head(text, pieces) {
        Some((name, rest)) => declares(alloc, text, keyword, name, rest),
        None => Err(LineFault::Syntax),
    }
}

// The beginning of a thread, behind which nothing stands.
fn thread(text: &[u8], pieces: &[Piece]) -> Result<Line, LineFault>
    requires { ArePiecesOf text.now pieces.now }
    ensures read { IsRead (thread_of (words_among text.now pieces.now)) result }
    ensures kept { IfOk result IsKept }
{
    match first(text, pieces) {
        Some(_) => Err(LineFault::Syntax),
        None => Ok(Line::Thread),
    }
}

// A line, from what stands behind its first word.
fn behind(alloc: Global, text: &[u8], keyword: Keyword, pieces: &[Piece]) -> Result<Line, LineFault>
    requires short { length text.now ≤ LINE_BYTES }
    requires whole { ArePiecesOf text.now pieces.now }
    ensures read { IsRead (form_by keyword (words_among text.now pieces.now)) result }
    ensures kept { IfOk result IsKept }
{
    match keyword {
        Keyword::Thread => thread(text, pieces),
        Keyword::Fire => fire(alloc, text, pieces),
        Keyword::Read => read(alloc, text, pieces),
        Keyword::Source => declared(alloc, text, Keyword::Source, pieces),
        Keyword::Signal => declared(alloc, text, Keyword::Signal, pieces),
        Keyword::Fold => declared(alloc, text, Keyword::Fold, pieces),
        Keyword::Choose => declared(alloc, text, Keyword::Choose, pieces),
    }
}

// What the pieces of a text say.
#[tactic(auto, using(crate::proofs::Finding::read_laws))]
fn read_pieces(alloc: Global, text: &[u8], pieces: &[Piece]) -> Result<Line, LineFault>
    requires short { length text.now ≤ LINE_BYTES }
    requires whole { ArePiecesOf text.now pieces.now }
    ensures read { IsRead (form_of (words_among text.now pieces.now)) result }
    ensures kept { IfOk result IsKept }
{
    let Some((word, rest)) = first(text, pieces) else {
        return Ok(Line::Nothing);
    };
    match Keyword::of(word.bytes_of(text)) {
        Some(keyword) => behind(alloc, text, keyword, rest),
        None => Err(LineFault::Syntax),
    }
}

/// What a line says, which has at most as many bytes as the limit and is given without its line feed. One carriage
/// return at its end is a blank, and a `#` with all that follows it is no part of it. `Syntax` comes where it has none
/// of the forms of a line, or a script of it is none; else `TooMany` with the first limit that it goes beyond, in the
/// order of `Limit`. Takes memory; `Memory` comes only for want of it.
pub fn read_line(alloc: Global, line: &[u8]) -> Result<Line, LineFault>
    requires { length line.now ≤ LINE_BYTES }
    ensures ok { IfOk result (IsLine (line_words line.now)) }
    ensures err { IfErr result (IsLineFault (line_words line.now)) }
    ensures kept { IfOk result IsKept }
{
    let text = said(line);
    let pieces = match pieces(alloc, text) {
        Ok(pieces) => pieces,
        Err(_) => return Err(LineFault::Memory),
    };
    read_pieces(alloc, text, &pieces)
}
