// The pieces of a line. Each is read from the front of a text, and what stands behind it is handed on.

ghost use Rattle.std.specs.Prelude.{◌≡◌, ◌≢◌, ◌↔◌, ℕ, ℤ, List, ◌<◌, ◌≤◌, ◌^◌, ◌++◌, length, IsTrue, true, false};
ghost use Rattle.std.specs.Prelude.{IfSome, IfNone, MatchOption, codes, decimal, FitsSigned, take_while};
ghost use Rattle.std.specs.Fmt.{signed_decimal};
ghost use Rattle.std.specs.Int.{w64};
ghost use Rattle.std.specs.List.{list_all};
ghost use Rattle.script_tree.specs.Names.{is_name};
ghost use Rattle.script_tree.specs.Printed.{value_text, fault_text};
ghost use Rattle.report_text.specs.Pieces.{is_inner, Ends, IsBlankFirst, IsValue, IsPlain};
ghost use Rattle.report_text.specs.Report.{counted, named_value};

use itoa::Buffer;
use script_tree::name::Name;
use script_tree::value::{Fault, Value};

/// What stands behind a word, or none where a text does not begin with it.
pub fn behind<'a>(text: &'a [u8], word: &[u8]) -> Option<&'a [u8]>
    ensures { MatchOption result ((rest : List ℕ) → text.now ≢ word.now ++ rest) (λ rest. text.now ≡ word.now ++ rest.now) }
{
    text.strip_prefix(word)
}

// A byte that stands within a piece: no space, comma, `=` or line feed.
fn is_inner(byte: u8) -> bool
    ensures { result ≡ is_inner byte }
{
    byte != b' ' && byte != b',' && byte != b'=' && byte != b'\n'
}

// How many such bytes a text begins with.
fn inner_len(text: &[u8]) -> usize
    ensures value { result ≡ length (take_while is_inner text.now) }
    ensures within { result ≤ length text.now }
{
    text.iter().take_while(|byte| is_inner(**byte)).count()
}

/// The piece that a text begins with, up to the first space, comma, `=` or line feed, and what stands from there on.
#[tactic(auto, using(crate::proofs::PieceLaws::piece_laws))]
pub fn piece(text: &[u8]) -> (&[u8], &[u8])
    ensures whole { text.now ≡ result.0.now ++ result.1.now }
    ensures inner { list_all is_inner result.0.now ≡ true }
    ensures ends { Ends result.1.now }
{
    text.split_at(inner_len(text))
}

fn is_printed_number(text: &[u8], number: u32) -> bool
    ensures { IsTrue result ↔ (text.now ≡ decimal number) }
{
    let mut buffer = Buffer::new();
    text == buffer.format(number).as_bytes()
}

fn is_printed_int(text: &[u8], number: i64) -> bool
    ensures { IsTrue result ↔ (text.now ≡ signed_decimal number) }
{
    let mut buffer = Buffer::new();
    text == buffer.format(number).as_bytes()
}

/// The number that a piece is printed as, or none where no number of `u32` is.
pub fn number_of(text: &[u8]) -> Option<u32>
    ensures some { IfSome result (λ n. text.now ≡ decimal n) }
    ensures none { IfNone result ((n : ℕ) → n < 2 ^ 32 → text.now ≢ decimal n) }
{
    let Ok(digits) = str::from_utf8(text) else {
        return None;
    };
    let Ok(number) = digits.parse::<u32>() else {
        return None;
    };
    if !is_printed_number(text, number) {
        return None;
    }
    Some(number)
}

fn int_of(text: &[u8]) -> Option<i64>
    ensures some { IfSome result (λ n. text.now ≡ signed_decimal n) }
    ensures none { IfNone result ((n : ℤ) → FitsSigned w64 n → text.now ≢ signed_decimal n) }
{
    let Ok(digits) = str::from_utf8(text) else {
        return None;
    };
    let Ok(number) = digits.parse::<i64>() else {
        return None;
    };
    if !is_printed_int(text, number) {
        return None;
    }
    Some(number)
}

fn is_same(text: &[u8], word: &[u8]) -> bool
    ensures { IsTrue result ↔ (text.now ≡ word.now) }
{
    text == word
}

// The kind of fault that a word names.
fn fault_of(word: &[u8]) -> Option<Fault>
    ensures some { IfSome result (λ fault. word.now ≡ fault_text fault) }
    ensures none { IfNone result ((fault : Fault) → word.now ≢ fault_text fault) }
{
    if is_same(word, b"overflow") {
        return Some(Fault::Overflow);
    }
    if is_same(word, b"zero-divisor") {
        return Some(Fault::ZeroDivisor);
    }
    if is_same(word, b"kind") {
        return Some(Fault::Kind);
    }
    if is_same(word, b"no-choice") {
        return Some(Fault::NoChoice);
    }
    None
}

// The value that a piece is printed as, if it is no fault.
fn plain_of(word: &[u8]) -> Option<Value>
    ensures some { IfSome result (λ value. (word.now ≡ value_text value) × IsValue value) }
    ensures none { IfNone result ((value : Value) → IsValue value → IsPlain value → word.now ≢ value_text value) }
{
    if is_same(word, b"true") {
        return Some(Value::Bool(true));
    }
    if is_same(word, b"false") {
        return Some(Value::Bool(false));
    }
    match int_of(word) {
        Some(number) => Some(Value::Int(number)),
        None => None,
    }
}

fn fault(text: &[u8]) -> Option<(Value, &[u8])>
    ensures some { IfSome result (λ p. (codes "fault " ++ text.now ≡ value_text p.0 ++ p.1.now) × IsValue p.0 × Ends p.1.now) }
    ensures none { IfNone result ((fault : Fault) (rest : List ℕ) → Ends rest → text.now ≢ fault_text fault ++ rest) }
{
    let (word, rest) = piece(text);
    match fault_of(word) {
        Some(fault) => Some((Value::Fault(fault), rest)),
        None => None,
    }
}

fn plain(text: &[u8]) -> Option<(Value, &[u8])>
    ensures some { IfSome result (λ p. (text.now ≡ value_text p.0 ++ p.1.now) × IsValue p.0 × Ends p.1.now) }
    ensures none { IfNone result ((value : Value) (rest : List ℕ) → IsValue value → IsPlain value → Ends rest
        → text.now ≢ value_text value ++ rest) }
{
    let (word, rest) = piece(text);
    match plain_of(word) {
        Some(value) => Some((value, rest)),
        None => None,
    }
}

/// The value that a text begins with, and what stands behind it.
pub fn value(text: &[u8]) -> Option<(Value, &[u8])>
    ensures some { IfSome result (λ p. (text.now ≡ value_text p.0 ++ p.1.now) × IsValue p.0 × Ends p.1.now) }
    ensures none { IfNone result ((value : Value) (rest : List ℕ) → IsValue value → Ends rest → text.now ≢ value_text value ++ rest) }
{
    match behind(text, b"fault ") {
        Some(rest) => fault(rest),
        None => plain(text),
    }
}

/// The name that a text begins with, and what stands behind it.
pub fn name(text: &[u8]) -> Option<(Name, &[u8])>
    ensures some { IfSome result (λ p. (text.now ≡ p.0 ++ p.1.now) × IsTrue (is_name p.0) × Ends p.1.now) }
    ensures none { IfNone result ((name rest : List ℕ) → IsTrue (is_name name) → Ends rest → text.now ≢ name ++ rest) }
{
    let (word, rest) = piece(text);
    match Name::of_bytes(word) {
        Some(name) => Some((name, rest)),
        None => None,
    }
}

/// The number that a text begins with, and what stands behind it.
pub fn number(text: &[u8]) -> Option<(u32, &[u8])>
    ensures some { IfSome result (λ p. (text.now ≡ decimal p.0 ++ p.1.now) × Ends p.1.now) }
    ensures none { IfNone result ((n : ℕ) (rest : List ℕ) → n < 2 ^ 32 → Ends rest → text.now ≢ decimal n ++ rest) }
{
    let (word, rest) = piece(text);
    match number_of(word) {
        Some(number) => Some((number, rest)),
        None => None,
    }
}

/// A label with a number behind it, and what stands behind that.
pub fn count<'a>(text: &'a [u8], label: &[u8]) -> Option<(u32, &'a [u8])>
    ensures some { IfSome result (λ p. (text.now ≡ counted label.now p.0 p.1.now) × Ends p.1.now) }
    ensures none { IfNone result ((n : ℕ) (rest : List ℕ) → n < 2 ^ 32 → Ends rest → text.now ≢ counted label.now n rest) }
{
    match behind(text, label) {
        Some(rest) => number(rest),
        None => None,
    }
}

/// Two labels with a number behind each, and what stands behind them.
pub fn counts<'a>(text: &'a [u8], first: &[u8], second: &[u8]) -> Option<(u32, u32, &'a [u8])>
    requires { IsBlankFirst second.now }
    ensures some { IfSome result (λ p. (text.now ≡ counted first.now p.0 (counted second.now p.1 p.2.now)) × Ends p.2.now) }
    ensures none { IfNone result ((m n : ℕ) (rest : List ℕ) → m < 2 ^ 32 → n < 2 ^ 32 → Ends rest
        → text.now ≢ counted first.now m (counted second.now n rest)) }
{
    let Some((one, rest)) = count(text, first) else {
        return None;
    };
    let Some((two, rest)) = count(rest, second) else {
        return None;
    };
    Some((one, two, rest))
}

/// A name with a value, and what stands behind it.
pub fn named(text: &[u8]) -> Option<(Name, Value, &[u8])>
    ensures some { IfSome result (λ p. (text.now ≡ named_value (p.0, p.1) ++ p.2.now) × IsTrue (is_name p.0) × IsValue p.1 × Ends p.2.now) }
    ensures none { IfNone result ((name : List ℕ) (value : Value) (rest : List ℕ) → IsTrue (is_name name) → IsValue value → Ends rest
        → text.now ≢ named_value (name, value) ++ rest) }
{
    let Some((name, rest)) = name(text) else {
        return None;
    };
    let Some(rest) = behind(rest, b"=") else {
        return None;
    };
    let Some((value, rest)) = value(rest) else {
        return None;
    };
    Some((name, value, rest))
}
