//! Cutting a text at a byte.

ghost use Rattle.std.specs.Prelude.{◌≡◌, ◌+◌, ◌≤◌, ◌==◌, [], length, IfNone, IfSome};
ghost use Rattle.std.specs.List.{before_first, after_first, position_or_len};

// The place of the first of such bytes, or the length where there is none.
#[tactic(auto, using(crate::proofs::CutLaws::cut_laws))]
fn place_of(text: &[u8], byte: u8) -> usize
    ensures value { result ≡ position_or_len (λ b. b == byte) text.now }
    ensures within { result ≤ length text.now }
{
    text.iter().take_while(|other| **other != byte).count()
}

/// What stands before the first of such bytes and what stands behind it, or none where there is no such byte.
pub fn cut_at(text: &[u8], byte: u8) -> Option<(&[u8], &[u8])>
    ensures before { IfSome result (λ p. p.0.now ≡ before_first (λ b. b == byte) text.now) }
    ensures after { IfSome result (λ p. p.1.now ≡ after_first (λ b. b == byte) text.now) }
    ensures shorter { IfSome result (λ p. length p.0.now + length p.1.now + 1 ≡ length text.now) }
    ensures none { IfNone result (before_first (λ b. b == byte) text.now ≡ text.now) }
    ensures nothing_after { IfNone result (after_first (λ b. b == byte) text.now ≡ []) }
{
    let at = place_of(text, byte);
    if at == text.len() {
        return None;
    }
    Some((&text[..at], &text[at + 1..]))
}
