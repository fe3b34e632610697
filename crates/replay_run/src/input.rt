// From an input's bytes to a deck's and a schedule's.

ghost use Rattle.std.specs.Prelude.{◌≡◌, ◌<◌, ◌≤◌, ◌∷◌, length, take, drop};
ghost use Rattle.replay_run.specs.Input.{whole_lines, is_divider, deck_text, schedule_text};

use deck_lines::bytes::cut_at;
use script_tree::bytes::is_same;

/// The bytes of an input that are its deck, and those that are its schedule. The schedule is what stands behind the first line that is
/// exactly `---`, where a carriage return may stand before the line feed, and the deck is what stands before that line. Without such a
/// line all is the deck, and the schedule is empty. Takes no memory.
pub fn split_input(bytes: &[u8]) -> (&[u8], &[u8])
    ensures deck { result.0.now ≡ deck_text bytes.now }
    ensures schedule { result.1.now ≡ schedule_text bytes.now }
{
    let mut start = 0;
    while start < bytes.len() {
        let rest = &bytes[start..];
        let len = line_len(rest);
        if is_divider(&rest[..len]) {
            return (&bytes[..start], &rest[len..]);
        }
        start += len;
    }
    (bytes, &[])
}

// How many bytes the first line of a text has, with its line feed.
fn line_len(text: &[u8]) -> usize
    requires { 0 < length text.now }
    ensures cut { whole_lines text.now ≡ take result text.now ∷ whole_lines (drop result text.now) }
    ensures some { 0 < result }
    ensures within { result ≤ length text.now }
{
    match cut_at(text, b'\n') {
        Some((line, _)) => line.len() + 1,
        None => text.len(),
    }
}

fn is_divider(line: &[u8]) -> bool
    ensures { result ≡ is_divider line.now }
{
    is_same(line, b"---\n") || (is_same(line, b"---\r\n") || is_same(line, b"---"))
}
