//! The levels of the grammar, and the tokens that operators are written as.

ghost use Rattle.std.specs.Prelude.{◌≡◌, ◌≤◌};
ghost use Rattle.script_grammar.specs.Grammar.{binds, left, prefix_sign, sign};

use crate::token::Token;
use script_tree::expr::{Binary, Unary};

/// The level that an operand of a sign before it needs.
pub const UNARY: u8 = 7;

/// The level of a word that is a script by itself, and of a script in parentheses.
pub const ATOM: u8 = 8;

/// The level of an operator between two sides: 1 binds least, and 6 binds most.
pub fn binds(op: Binary) -> u8
    ensures value { result ≡ binds op }
    ensures small { result ≤ 6 }
{
    match op {
        Binary::OrElse => 1,
        Binary::Or => 2,
        Binary::And => 3,
        Binary::Equal
        | Binary::Unequal
        | Binary::Less
        | Binary::AtMost
        | Binary::Greater
        | Binary::AtLeast => 4,
        Binary::Add | Binary::Subtract => 5,
        Binary::Multiply | Binary::Divide | Binary::Remainder => 6,
    }
}

/// The level that an operator's left side needs: the operator's own, since it may stand there again, but a comparison
/// may not.
pub fn left(op: Binary) -> u8
    ensures { result ≡ left op }
{
    let level = binds(op);
    if level == 4 { 5 } else { level }
}

/// The token of an operator between two sides.
pub fn sign(op: Binary) -> Token
    ensures { result ≡ sign op }
{
    match op {
        Binary::Subtract => Token::Minus,
        other => Token::Sign(other),
    }
}

/// The token of an operator before its operand.
pub fn prefix_sign(op: Unary) -> Token
    ensures { result ≡ prefix_sign op }
{
    match op {
        Unary::Negate => Token::Minus,
        Unary::Not => Token::Bang,
    }
}
