//! The words and signs of a line, and where they stand.

ghost use Rattle.std.specs.Prelude.{◌≡◌, ◌+◌, ◌<◌, ◌≤◌, ◌++◌, drop, length, take_while, All, IfOk};
ghost use Rattle.script_tree.specs.Names.{is_word};
ghost use Rattle.expr_script.specs.Cut.{begins_word, IsCut};
ghost use Rattle.expr_script.specs.Pieces.{is_blank, is_pair, piece_len, pieces_from, pieces, bytes_of, IsPieceOf};

use script_tree::bytes::is_word;
use script_tree::memory::OutOfMemory;
use std::alloc::Global;

/// A word or a sign of a line: where it begins, and how many bytes it has.
#[derive(Clone, Copy, PartialEq, Eq, Debug)]
pub struct Piece {
    pub from: usize,
    pub len: usize,
}

impl Piece {
    /// Its bytes in the line that it was cut from.
    pub fn bytes_of(self, text: &[u8]) -> &[u8]
        requires { self.from + self.len ≤ length text.now }
        ensures { result.now ≡ bytes_of text.now self }
    {
        &text[self.from..self.from + self.len]
    }
}

fn is_blank(byte: u8) -> bool
    ensures { result ≡ is_blank byte }
{
    byte == b' ' || byte == b'\t'
}

// Whether a text begins with a byte of a word.
pub(crate) fn begins_word(text: &[u8]) -> bool
    ensures { result ≡ begins_word text.now }
{
    match text {
        [] => false,
        [first, ..] => is_word(*first),
    }
}

fn is_pair(first: u8, second: u8) -> bool
    ensures { result ≡ is_pair first second }
{
    match second {
        b'?' | b'|' | b'&' => first == second,
        b'=' => first == b'=' || first == b'!' || first == b'<' || first == b'>',
        _ => false,
    }
}

fn word_len(text: &[u8]) -> usize
    ensures { result ≡ length (take_while is_word text.now) }
{
    text.iter().take_while(|byte| is_word(**byte)).count()
}

fn piece_len(text: &[u8]) -> usize
    requires { 0 < length text.now }
    ensures value { result ≡ piece_len text.now }
    ensures some { 0 < result }
    ensures within { result ≤ length text.now }
{
    if is_word(text[0]) {
        return word_len(text);
    }
    if text.len() > 1 && is_pair(text[0], text[1]) {
        2
    } else {
        1
    }
}

// One byte: it belongs to the piece before, is a blank, or begins a piece. The answer is how many bytes after it are
// of a piece.
#[tactic(auto, using(crate::proofs::Steps::piece_steps))]
fn one_byte(
    found: &mut Vec<Piece>,
    skip: usize,
    text: &[u8],
    at: usize,
) -> Result<usize, OutOfMemory>
    requires { at < length text.now }
    ensures { IfOk result (λ next. found.new.items ++ pieces_from next (at + 1) (drop (at + 1) text.now)
        ≡ found.old.items ++ pieces_from skip at (drop at text.now)) }
{
    if skip > 0 {
        return Ok(skip - 1);
    }
    if is_blank(text[at]) {
        return Ok(0);
    }
    let len = piece_len(&text[at..]);
    found.push(Piece { from: at, len })?;
    Ok(len - 1)
}

/// The words and signs of a line, in their order: a word is a longest run of ASCII letters, digits and `_`, of signs
/// the longest is taken, blanks are space and tab, and any other byte is a piece by itself. The bytes need not be
/// UTF-8. Takes memory; want of it is the one error.
pub fn pieces(alloc: Global, text: &[u8]) -> Result<Vec<Piece>, OutOfMemory>
    ensures cut { IfOk result (λ found. IsCut text.now found.items) }
    ensures found { IfOk result (λ found. found.items ≡ pieces text.now) }
    ensures whole { IfOk result (λ found. All (IsPieceOf text.now) found.items) }
    ensures within { IfOk result (λ found. All (λ piece. piece.from + piece.len ≤ length text.now) found.items) }
    ensures some { IfOk result (λ found. All (λ piece. 0 < piece.len) found.items) }
{
    let mut found = Vec::new(alloc);
    let mut skip = 0;
    for at in 0..text.len() {
        skip = one_byte(&mut found, skip, text, at)?;
    }
    Ok(found)
}
