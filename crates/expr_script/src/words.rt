// The token that a word or a sign is.

ghost use Rattle.std.specs.Prelude.{◌≡◌, ◌≤◌, length};
ghost use Rattle.std.specs.List.{list_all};
ghost use Rattle.std.specs.Char.{is_ascii_digit};
ghost use Rattle.script_tree.specs.Names.{place_in};
ghost use Rattle.expr_script.specs.Words.{is_digits, number, name_token, short_sign, sign_token};
ghost use Rattle.expr_script.specs.Words.{fixed_token, pick_token, other_token, token};

use crate::atoms::Atoms;
use script_grammar::token::{Token, Word};
use script_tree::bytes::is_same;
use script_tree::expr::Binary;
use script_tree::limits::INPUTS;
use script_tree::name::{Name, NameList};

// The greatest number of a script.
const MOST: u64 = 9_223_372_036_854_775_807;

fn all_digits(word: &[u8]) -> bool
    ensures { result ≡ list_all is_ascii_digit word.now }
{
    word.iter().all(|byte| byte.is_ascii_digit())
}

fn is_digits(word: &[u8]) -> bool
    ensures { result ≡ is_digits word.now }
{
    !word.is_empty() && all_digits(word)
}

#[tactic(auto, using(crate::proofs::Numbers::value_laws))]
fn number(digits: &[u8]) -> Token
    ensures { result ≡ number digits.now }
{
    let mut total: u64 = 0;
    for digit in digits {
        let Some(tens) = total.checked_mul(10) else {
            return Token::Stray;
        };
        let Some(sum) = tens.checked_add(u64::from(digit.saturating_sub(b'0'))) else {
            return Token::Stray;
        };
        if sum > MOST {
            return Token::Stray;
        }
        total = sum;
    }
    Token::Plain(Word::Digits(total as i64))
}

// The place of a name, or how many names there are where it isn't among them.
pub fn place_of(names: &NameList, name: &Name) -> usize
    ensures place { result ≡ place_in names.now name.now }
    ensures within { result ≤ length names.now }
{
    for at in 0..names.len() {
        if names.get(at).same(name) {
            return at;
        }
    }
    names.len()
}

fn name_token(atoms: Atoms, inputs: &NameList, name: &Name) -> Token
    requires { length inputs.now ≤ INPUTS }
    ensures { result ≡ name_token atoms inputs.now name.now }
{
    match atoms {
        Atoms::Script(_) => Token::Plain(Word::Called(place_of(inputs, name) as u32)),
        Atoms::Body(_) => Token::Stray,
    }
}

fn short_sign(word: &[u8]) -> Token
    ensures { result ≡ short_sign word.now }
{
    if is_same(word, b"<") {
        return Token::Sign(Binary::Less);
    }
    if is_same(word, b">") {
        return Token::Sign(Binary::Greater);
    }
    if is_same(word, b"+") {
        return Token::Sign(Binary::Add);
    }
    if is_same(word, b"-") {
        return Token::Minus;
    }
    if is_same(word, b"*") {
        return Token::Sign(Binary::Multiply);
    }
    if is_same(word, b"/") {
        return Token::Sign(Binary::Divide);
    }
    if is_same(word, b"%") {
        return Token::Sign(Binary::Remainder);
    }
    if is_same(word, b"!") {
        return Token::Bang;
    }
    if is_same(word, b"(") {
        return Token::Opens;
    }
    if is_same(word, b")") {
        return Token::Closes;
    }
    Token::Stray
}

fn sign_token(word: &[u8]) -> Token
    ensures { result ≡ sign_token word.now }
{
    if is_same(word, b"??") {
        return Token::Sign(Binary::OrElse);
    }
    if is_same(word, b"||") {
        return Token::Sign(Binary::Or);
    }
    if is_same(word, b"&&") {
        return Token::Sign(Binary::And);
    }
    if is_same(word, b"==") {
        return Token::Sign(Binary::Equal);
    }
    if is_same(word, b"!=") {
        return Token::Sign(Binary::Unequal);
    }
    if is_same(word, b"<=") {
        return Token::Sign(Binary::AtMost);
    }
    if is_same(word, b">=") {
        return Token::Sign(Binary::AtLeast);
    }
    short_sign(word)
}

fn fixed_token(word: &[u8]) -> Token
    ensures { result ≡ fixed_token word.now }
{
    if is_same(word, b"true") {
        return Token::Plain(Word::Yes);
    }
    if is_same(word, b"false") {
        return Token::Plain(Word::No);
    }
    if is_same(word, b"if") {
        return Token::IfWord;
    }
    if is_same(word, b"then") {
        return Token::ThenWord;
    }
    if is_same(word, b"else") {
        return Token::ElseWord;
    }
    sign_token(word)
}

fn pick_token(picks: u32, word: &[u8]) -> Token
    ensures { result ≡ pick_token picks word.now }
{
    if picks > 0 && is_same(word, b"pick1") {
        return Token::Plain(Word::Pick(0));
    }
    if picks > 1 && is_same(word, b"pick2") {
        return Token::Plain(Word::Pick(1));
    }
    if picks > 2 && is_same(word, b"pick3") {
        return Token::Plain(Word::Pick(2));
    }
    if picks > 3 && is_same(word, b"pick4") {
        return Token::Plain(Word::Pick(3));
    }
    fixed_token(word)
}

fn other_token(atoms: Atoms, word: &[u8]) -> Token
    ensures { result ≡ other_token atoms word.now }
{
    match atoms {
        Atoms::Script(acc) => {
            if acc && is_same(word, b"acc") {
                return Token::Plain(Word::Acc);
            }
            fixed_token(word)
        }
        Atoms::Body(picks) => pick_token(picks, word),
    }
}

/// The token of a word or a sign, in a script with these names.
pub fn token(atoms: Atoms, inputs: &NameList, word: &[u8]) -> Token
    requires { length inputs.now ≤ INPUTS }
    ensures { result ≡ token atoms inputs.now word.now }
{
    if is_digits(word) {
        return number(word);
    }
    match Name::of_bytes(word) {
        Some(name) => name_token(atoms, inputs, &name),
        None => other_token(atoms, word),
    }
}
