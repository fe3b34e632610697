// The text of a line.

ghost use Rattle.std.specs.Prelude.{◌≡◌, ◌≤◌, length};
ghost use Rattle.deck_lines.specs.Texts.{without_return, without_comment, said};

use crate::bytes::cut_at;

// A line without one carriage return at its end.
#[tactic(auto, using(crate::proofs::Texting::text_laws))]
fn without_return(line: &[u8]) -> &[u8]
    ensures value { result.now ≡ without_return line.now }
    ensures within { length result.now ≤ length line.now }
{
    match line.split_last() {
        Some((last, rest)) if *last == b'\r' => rest,
        _ => line,
    }
}

fn without_comment(line: &[u8]) -> &[u8]
    ensures value { result.now ≡ without_comment line.now }
    ensures within { length result.now ≤ length line.now }
{
    match cut_at(line, b'#') {
        Some((said, _)) => said,
        None => line,
    }
}

/// The text of a line: without one carriage return at its end, and without its comment.
pub fn said(line: &[u8]) -> &[u8]
    ensures value { result.now ≡ said line.now }
    ensures within { length result.now ≤ length line.now }
{
    without_comment(without_return(line))
}
