// Cutting a deck into its lines.

ghost use Rattle.std.specs.Prelude.{◌≡◌, ◌+◌, ◌<◌, ◌∷◌, min, length};
ghost use Rattle.deck_text.specs.Lines.{lines};

use deck_lines::bytes::cut_at;

/// The first line of a text, without its line feed, and what follows that.
#[tactic(auto, using(crate::proofs::LineLaws::line_laws))]
pub fn first_line(text: &[u8]) -> (&[u8], &[u8])
    requires { 0 < length text.now }
    ensures cut { lines text.now ≡ result.0.now ∷ lines result.1.now }
    ensures ends { min (length result.0.now + 1) (length text.now) + length result.1.now ≡ length text.now }
    ensures shorter { length result.1.now < length text.now }
{
    match cut_at(text, b'\n') {
        Some((line, rest)) => (line, rest),
        None => (text, &[]),
    }
}
