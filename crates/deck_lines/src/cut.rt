// Cutting the pieces of a line.

ghost use Rattle.std.specs.Prelude.{◌≡◌, ◌+◌, ◌≤◌, [], ◌∷◌, true, false, length, IfNone, IfSome};
ghost use Rattle.std.specs.Str.{bytes_eq};
ghost use Rattle.expr_script.specs.Pieces.{words_among, bytes_of};
ghost use Rattle.deck_lines.specs.Cuts.{has, before, behind, ArePiecesOf};
ghost use Rattle.deck_lines.specs.Reading.{cut as split};

use expr_script::pieces::Piece;

/// Whether a piece is this word or sign.
pub fn is_word(text: &[u8], piece: Piece, word: &[u8]) -> bool
    requires { piece.from + piece.len ≤ length text.now }
    ensures { result ≡ bytes_eq (bytes_of text.now piece) word.now }
{
    piece.bytes_of(text) == word
}

/// The pieces before the first that is this word and those behind it, or none where no piece is.
#[tactic(auto, using(crate::proofs::Scanning::scan_laws))]
pub fn cut<'a>(text: &[u8], pieces: &'a [Piece], word: &[u8]) -> Option<(&'a [Piece], &'a [Piece])>
    requires { ArePiecesOf text.now pieces.now }
    ensures some { IfSome result (λ _. has word.now (words_among text.now pieces.now) ≡ true) }
    ensures before { IfSome result (λ p. words_among text.now p.0.now ≡ before word.now (words_among text.now pieces.now)) }
    ensures behind { IfSome result (λ p. words_among text.now p.1.now ≡ behind word.now (words_among text.now pieces.now)) }
    ensures whole { IfSome result (λ p. ArePiecesOf text.now p.0.now × ArePiecesOf text.now p.1.now) }
    ensures shorter { IfSome result (λ p. length p.0.now + length p.1.now + 1 ≡ length pieces.now) }
    ensures none { IfNone result (has word.now (words_among text.now pieces.now) ≡ false) }
{
    for (at, piece) in pieces.iter().enumerate() {
        if is_word(text, *piece, word) {
            let (before, _) = pieces.split_at(at);
            let (_, behind) = pieces.split_at(at + 1);
            return Some((before, behind));
        }
    }
    None
}

/// How many lists of pieces the ones that are this word separate.
#[tactic(auto, using(crate::proofs::Scanning::count_laws))]
pub fn parts(text: &[u8], pieces: &[Piece], word: &[u8]) -> usize
    requires { ArePiecesOf text.now pieces.now }
    ensures { result ≡ length (split word.now (words_among text.now pieces.now)) }
{
    let mut count = 1;
    for piece in pieces {
        if is_word(text, *piece, word) {
            count += 1;
        }
    }
    count
}

/// The first piece and those behind it.
#[tactic(auto, using(crate::proofs::Going::piece_laws))]
pub fn first<'a>(text: &[u8], pieces: &'a [Piece]) -> Option<(Piece, &'a [Piece])>
    requires { ArePiecesOf text.now pieces.now }
    ensures words { IfSome result (λ p. words_among text.now pieces.now ≡ bytes_of text.now p.0 ∷ words_among text.now p.1.now) }
    ensures lies { IfSome result (λ p. p.0.from + p.0.len ≤ length text.now) }
    ensures whole { IfSome result (λ p. ArePiecesOf text.now p.1.now) }
    ensures none { IfNone result (words_among text.now pieces.now ≡ []) }
{
    match pieces.split_first() {
        Some((first, rest)) => Some((*first, rest)),
        None => None,
    }
}
