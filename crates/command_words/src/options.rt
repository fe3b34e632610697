// The test of options, before the parser of options sees them. The parser would also take `--`, a sign before digits, a
// limit of any length, and an option that a command has not.

ghost use Rattle.std.specs.Prelude.{◌≡◌, ◌<◌, ◌↔◌, ◌∷◌, true, false, length, map, codes, nat_le, IsTrue, IfSome, IfNone};
ghost use Rattle.std.specs.List.{list_all};
ghost use Rattle.std.specs.Char.{is_ascii_digit};
ghost use Rattle.std.specs.Str.Parse.{digits_value};
ghost use Rattle.script_tree.specs.declared.limits.TheConstants.{VERSIONS};
ghost use Rattle.command_words.specs.Words.{IsLimit};
ghost use Rattle.command_words.specs.Options.{AreNoOptions};
ghost use Rattle.command_words.specs.Blocks.{Begins, BeginsWithNone, AreSome};
ghost use Rattle.command_words.specs.Tests.{is_limit, is_limit_within};

use crate::kinds::{Kind, Kinds};
use script_tree::limits::VERSIONS;

/// How many digits a limit of versions has at most.
const DIGITS: usize = 7;

/// Whether a text is decimal digits alone.
pub fn are_digits(text: &[u8]) -> bool
    ensures { result ≡ list_all is_ascii_digit text.now }
{
    text.iter().all(|byte| byte.is_ascii_digit())
}

// Whether digits write a number that is at most the greatest limit.
#[tactic(auto, using(crate::proofs::Limits::limit_laws))]
fn is_within(digits: &str) -> bool
    requires digits { list_all is_ascii_digit digits.now ≡ true }
    requires some { 0 < length digits.now }
    ensures { result ≡ nat_le (digits_value 10 digits.now) VERSIONS }
{
    match digits.parse::<u32>() {
        Ok(limit) => limit <= VERSIONS,
        Err(_) => false,
    }
}

// A limit of versions: 1 to 7 decimal digits of a number that is at most the greatest limit.
fn is_limit(text: &str) -> bool
    ensures { result ≡ is_limit text.now }
{
    if text.is_empty() || text.len() > DIGITS {
        return false;
    }
    if !are_digits(text.as_bytes()) {
        return false;
    }
    is_within(text)
}

/// The number of a limit of versions.
#[tactic(auto, using(crate::proofs::Limits::number_laws))]
pub fn limit_of(text: &str) -> u32
    requires { IsLimit text.now }
    ensures { result ≡ digits_value 10 text.now }
{
    match text.parse::<u32>() {
        Ok(limit) => limit,
        Err(_) => unreachable!(),
    }
}

fn is_limit_within(word: &str) -> bool
    ensures { result ≡ is_limit_within word.now }
{
    match word.strip_prefix("--versions=") {
        Some(text) => is_limit(text),
        None => false,
    }
}

fn is_word(word: &str, expected: &str) -> bool
    ensures { IsTrue result ↔ (word.now ≡ expected.now) }
{
    word == expected
}

/// The block of an option: of which kind it is, and how many words it has.
#[derive(Clone, Copy)]
struct Block {
    kind: Kind,
    words: usize,
}

// The block of `--versions` with the word behind it, if that is a limit.
#[tactic(auto, using(crate::proofs::Found::behind_laws))]
fn limit_block(first: &str, text: &str, others: &[&str]) -> Option<Block>
    requires { first.now ≡ codes "--versions" }
    ensures some { IfSome result (λ block. Begins (first.now ∷ text.now ∷ map (λ s. s.now) others.now) block.kind block.words) }
    ensures none { IfNone result (BeginsWithNone (first.now ∷ text.now ∷ map (λ s. s.now) others.now)) }
{
    if is_limit(text) {
        Some(Block {
            kind: Kind::Versions,
            words: 2,
        })
    } else {
        None
    }
}

// The block of `--versions`, with what stands behind that word.
#[tactic(auto, using(crate::proofs::Found::behind_laws))]
fn block_behind(first: &str, rest: &[&str]) -> Option<Block>
    requires { first.now ≡ codes "--versions" }
    ensures some { IfSome result (λ block. Begins (first.now ∷ map (λ s. s.now) rest.now) block.kind block.words) }
    ensures none { IfNone result (BeginsWithNone (first.now ∷ map (λ s. s.now) rest.now)) }
{
    match rest {
        [] => None,
        [text, others @ ..] => limit_block(first, text, others),
    }
}

// The block with which words begin.
#[tactic(auto, using(crate::proofs::Found::block_laws))]
fn first_block(first: &str, rest: &[&str]) -> Option<Block>
    ensures some { IfSome result (λ block. Begins (first.now ∷ map (λ s. s.now) rest.now) block.kind block.words) }
    ensures none { IfNone result (BeginsWithNone (first.now ∷ map (λ s. s.now) rest.now)) }
{
    if is_word(first, "--json") {
        return Some(Block {
            kind: Kind::Json,
            words: 1,
        });
    }
    if is_limit_within(first) {
        return Some(Block {
            kind: Kind::Versions,
            words: 1,
        });
    }
    if is_word(first, "--versions") {
        return block_behind(first, rest);
    }
    None
}

// The block with which words begin.
fn block_of(words: &[&str]) -> Option<Block>
    ensures some { IfSome result (λ block. Begins (map (λ s. s.now) words.now) block.kind block.words) }
    ensures none { IfNone result (0 < length words.now → BeginsWithNone (map (λ s. s.now) words.now)) }
{
    match words {
        [] => None,
        [first, rest @ ..] => first_block(first, rest),
    }
}

/// Whether words are options of these kinds, each at most once.
pub fn are_options(words: &[&str], kinds: Kinds) -> bool
    ensures some { result ≡ true → AreSome kinds (map (λ s. s.now) words.now) }
    ensures none { result ≡ false → AreNoOptions kinds (map (λ s. s.now) words.now) }
{
    if words.is_empty() {
        return true;
    }
    let Some(block) = block_of(words) else {
        return false
    };
    if !kinds.has(block.kind) {
        return false;
    }
    are_options(&words[block.words..], kinds.without(block.kind))
}
