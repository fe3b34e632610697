// Values.

ghost use Rattle.std.specs.Prelude.{◌≡◌, ◌<◌, ◌≤◌, ◌^◌, IfNone, IfSome};
ghost use Rattle.std.specs.Char.{is_ascii_digit};
ghost use Rattle.std.specs.List.{list_all};
ghost use Rattle.expr_script.specs.Words.{value};
ghost use Rattle.expr_script.specs.Pieces.{words_among};
ghost use Rattle.deck_lines.specs.Cuts.{ArePiecesOf};
ghost use Rattle.deck_lines.specs.Values as values;

use crate::cut::{first, is_word};
use expr_script::pieces::Piece;
use script_tree::bytes::is_same;
use script_tree::value::Value;

// The greatest number behind a minus, and its tenth.
const MOST: u64 = 9_223_372_036_854_775_808;

const TENTH: u64 = 922_337_203_685_477_580;

fn all_digits(word: &[u8]) -> bool
    ensures { result ≡ list_all is_ascii_digit word.now }
{
    word.iter().all(|byte| byte.is_ascii_digit())
}

fn is_digits(word: &[u8]) -> bool
    ensures { result ≡ values.is_digits word.now }
{
    !word.is_empty() && all_digits(word)
}

// The number that digits spell, or none where it is greater than the greatest one behind a minus.
#[tactic(auto, using(crate::proofs::Numbers::value_laws))]
fn number(digits: &[u8]) -> Option<u64>
    ensures some { IfSome result (λ n. n ≡ value 0 digits.now) }
    ensures few { IfSome result (λ n. n ≤ 2 ^ 63) }
    ensures none { IfNone result (2 ^ 63 < value 0 digits.now) }
{
    let mut total: u64 = 0;
    for digit in digits {
        if total > TENTH {
            return None;
        }
        let tens = total * 10;
        let sum = tens + u64::from(digit.saturating_sub(b'0'));
        if sum > MOST {
            return None;
        }
        total = sum;
    }
    Some(total)
}

fn plain(word: &[u8]) -> Option<Value>
    ensures { result ≡ values.plain word.now }
{
    if !is_digits(word) {
        return None;
    }
    let number = number(word)?;
    if number >= MOST {
        return None;
    }
    Some(Value::Int(number as i64))
}

fn below_zero(word: &[u8]) -> Option<Value>
    ensures { result ≡ values.below_zero word.now }
{
    if !is_digits(word) {
        return None;
    }
    let number = number(word)?;
    if number == MOST {
        return Some(Value::Int(i64::MIN));
    }
    Some(Value::Int(-(number as i64)))
}

fn one_word(word: &[u8]) -> Option<Value>
    ensures { result ≡ values.one_word word.now }
{
    if is_same(word, b"true") {
        return Some(Value::Bool(true));
    }
    if is_same(word, b"false") {
        return Some(Value::Bool(false));
    }
    plain(word)
}

/// The value that pieces spell: `true`, `false`, or a number of `i64` with or without one minus before it.
#[tactic(auto, using(crate::proofs::Going::piece_laws))]
pub fn value(text: &[u8], pieces: &[Piece]) -> Option<Value>
    requires { ArePiecesOf text.now pieces.now }
    ensures { result ≡ values.value_of (words_among text.now pieces.now) }
{
    let (word, rest) = first(text, pieces)?;
    let Some((next, more)) = first(text, rest) else {
        return one_word(word.bytes_of(text));
    };
    if !more.is_empty() {
        return None;
    }
    if !is_word(text, word, b"-") {
        return None;
    }
    below_zero(next.bytes_of(text))
}
