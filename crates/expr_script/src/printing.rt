// The canonical text of a script.

ghost use Rattle.std.specs.Prelude.{◌≡◌, ◌++◌, IfOk, OnOk, OnErr};
ghost use Rattle.expr_script.specs.Cut.{begins_word};
ghost use Rattle.expr_script.specs.Joined.{gap};
ghost use Rattle.expr_script.specs.Printed.{sign_text, word_text, token_text, printed};

use crate::pieces::begins_word;
use itoa::Buffer;
use script_grammar::token::{Token, Word};
use script_grammar::writer::write_script;
use script_tree::expr::Binary;
use script_tree::items::Text;
use script_tree::memory::OutOfMemory;
use script_tree::name::NameList;
use script_tree::script::Script;
use std::alloc::Global;

fn sign_text(op: Binary) -> &'static [u8]
    ensures { result.now ≡ sign_text op }
{
    match op {
        Binary::OrElse => b"??",
        Binary::Or => b"||",
        Binary::And => b"&&",
        Binary::Equal => b"==",
        Binary::Unequal => b"!=",
        Binary::Less => b"<",
        Binary::AtMost => b"<=",
        Binary::Greater => b">",
        Binary::AtLeast => b">=",
        Binary::Add => b"+",
        Binary::Subtract => b"-",
        Binary::Multiply => b"*",
        Binary::Divide => b"/",
        Binary::Remainder => b"%",
    }
}

fn push_word(out: &mut Text, names: &NameList, word: Word) -> Result<(), OutOfMemory>
    ensures { OnOk result (out.new ≡ out.old ++ word_text names.now word) }
{
    match word {
        Word::Digits(number) => out.extend_from_slice(Buffer::new().format(number).as_bytes()),
        Word::Yes => out.extend_from_slice(b"true"),
        Word::No => out.extend_from_slice(b"false"),
        Word::Called(place) => match names.as_slice().get(place as usize) {
            Some(name) => out.extend_from_slice(name.as_slice()),
            None => Ok(()),
        },
        Word::Pick(place) => {
            out.extend_from_slice(b"pick")?;
            out.extend_from_slice(Buffer::new().format(u64::from(place) + 1).as_bytes())
        }
        Word::Acc => out.extend_from_slice(b"acc"),
    }
}

fn push_token(out: &mut Text, names: &NameList, token: Token) -> Result<(), OutOfMemory>
    ensures { OnOk result (out.new ≡ out.old ++ token_text names.now token) }
{
    match token {
        Token::Plain(word) => push_word(out, names, word),
        Token::Sign(op) => out.extend_from_slice(sign_text(op)),
        Token::Minus => out.extend_from_slice(b"-"),
        Token::Bang => out.extend_from_slice(b"!"),
        Token::Opens => out.extend_from_slice(b"("),
        Token::Closes => out.extend_from_slice(b")"),
        Token::IfWord => out.extend_from_slice(b"if"),
        Token::ThenWord => out.extend_from_slice(b"then"),
        Token::ElseWord => out.extend_from_slice(b"else"),
        Token::Stray => Ok(()),
    }
}

// Whether a word is written with a byte of a word first: all but a number below 0.
#[tactic(auto, using(crate::proofs::Starts::starts))]
fn word_begins(names: &NameList, word: Word) -> bool
    ensures { result ≡ begins_word (word_text names.now word) }
{
    match word {
        Word::Digits(number) => number >= 0,
        Word::Called(place) => match names.as_slice().get(place as usize) {
            Some(name) => begins_word(name.as_slice()),
            None => false,
        },
        Word::Yes | Word::No | Word::Pick(_) | Word::Acc => true,
    }
}

#[tactic(auto, using(crate::proofs::Starts::starts))]
fn token_begins(names: &NameList, token: Token) -> bool
    ensures { result ≡ begins_word (token_text names.now token) }
{
    match token {
        Token::Plain(word) => word_begins(names, word),
        Token::IfWord | Token::ThenWord | Token::ElseWord => true,
        Token::Sign(_) | Token::Minus | Token::Bang | Token::Opens | Token::Closes | Token::Stray =>
            false,
    }
}

fn push_spaced(
    out: &mut Text,
    names: &NameList,
    behind_word: bool,
    token: Token,
) -> Result<(), OutOfMemory>
    ensures { OnOk result (out.new ≡ out.old ++ (gap behind_word (token_text names.now token) ++ token_text names.now token)) }
{
    if behind_word && token_begins(names, token) {
        out.extend_from_slice(b" ")?;
    }
    push_token(out, names, token)
}

/// The canonical text of a script: parentheses stand exactly where the grammar needs them, numbers have no leading
/// zeros, one space stands exactly between two words that follow each other, and there are no other blanks. Takes
/// memory.
pub fn print_script(alloc: Global, script: &Script) -> Result<Text, OutOfMemory>
    ensures { IfOk result (λ text. text ≡ printed script.now) }
{
    let tokens = write_script(alloc, script.tree())?;
    let names = script.inputs();
    let mut text = Text::new(alloc);
    let mut behind_word = false;
    for token in &tokens {
        push_spaced(&mut text, names, behind_word, *token)?;
        behind_word = token_begins(names, *token);
    }
    Ok(text)
}

/// Adds the canonical text of a script at the end of a text. Takes memory; where there is none the text is as it was.
pub fn print_script_to(alloc: Global, script: &Script, text: &mut Text) -> Result<(), OutOfMemory>
    ensures ok { OnOk result (text.new ≡ text.old ++ printed script.now) }
    ensures err { OnErr result (text.new ≡ text.old) }
{
    let printed = print_script(alloc, script)?;
    text.extend_from_slice(printed.as_slice())
}
