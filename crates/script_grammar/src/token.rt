//! The tokens of scripts.

use script_tree::expr::Binary;

/// A word that is a script by itself.
#[derive(Clone, Copy, Debug)]
pub enum Word {
    /// A number. A text has no negative one: a minus sign before a number is an operator.
    Digits(i64),
    /// `true`
    Yes,
    /// `false`
    No,
    /// A name, by its place in the list of the script's names, from 0.
    Called(u32),
    /// `pick1` to `pick4`, from 0.
    Pick(u32),
    /// `acc`
    Acc,
}

/// A token of a script.
#[derive(Clone, Copy, Debug)]
pub enum Token {
    Plain(Word),
    /// An operator between two sides, but for the minus sign. `Sign(Binary::Subtract)` comes from no text, and the reader
    /// takes it for a stray token.
    Sign(Binary),
    /// `-`, an operator between two sides or before its operand.
    Minus,
    /// `!`
    Bang,
    /// `(`
    Opens,
    /// `)`
    Closes,
    /// `if`
    IfWord,
    /// `then`
    ThenWord,
    /// `else`
    ElseWord,
    /// What stands in no script.
    Stray,
}
