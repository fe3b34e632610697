//! Bytes of texts.

ghost use Rattle.std.specs.Prelude.{◌≡◌};
ghost use Rattle.std.specs.Str.{bytes_eq};
ghost use Rattle.script_tree.specs.Names.{is_word};

/// Whether a byte stands in words: an ASCII letter, a digit or `_`.
pub fn is_word(byte: u8) -> bool
    ensures { result ≡ is_word byte }
{
    byte.is_ascii_alphanumeric() || byte == b'_'
}

/// Whether two texts have the same bytes. Contracts name the test, so that a text can be compared with many in turn.
pub fn is_same(text: &[u8], other: &[u8]) -> bool
    ensures { result ≡ bytes_eq text.now other.now }
{
    text == other
}
