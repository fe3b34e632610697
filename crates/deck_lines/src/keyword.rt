// The words that begin a line.

ghost use Rattle.std.specs.Prelude.{◌≡◌};
ghost use Rattle.deck_lines.specs.Reading.{keyword_of};

use script_tree::bytes::is_same;

/// What a line is for, by the word that it begins with.
#[derive(Clone, Copy, PartialEq, Eq, Debug)]
pub enum Keyword {
    Source,
    Signal,
    Fold,
    Choose,
    Thread,
    Fire,
    Read,
}

impl Keyword {
    /// The keyword that a word is, or none.
    pub fn of(word: &[u8]) -> Option<Keyword>
        ensures { result ≡ keyword_of word.now }
    {
        if is_same(word, b"source") {
            return Some(Keyword::Source);
        }
        if is_same(word, b"signal") {
            return Some(Keyword::Signal);
        }
        if is_same(word, b"fold") {
            return Some(Keyword::Fold);
        }
        if is_same(word, b"choose") {
            return Some(Keyword::Choose);
        }
        if is_same(word, b"thread") {
            return Some(Keyword::Thread);
        }
        if is_same(word, b"fire") {
            return Some(Keyword::Fire);
        }
        if is_same(word, b"read") {
            return Some(Keyword::Read);
        }
        None
    }
}
