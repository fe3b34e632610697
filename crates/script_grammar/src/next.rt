//! What a token leads to.

use script_tree::expr::Expr;

/// What is there behind a token.
#[derive(Debug, Drop)]
pub enum Next {
    /// No script begins with the tokens up to it.
    Fails,
    /// An operand is wanted.
    WantsMore,
    /// An operand is there.
    HasOne(Expr),
}

/// What is there behind a token, and in how many parentheses, prefix operators and `if`s the token stands.
#[derive(Debug, Drop)]
pub struct Step {
    pub nesting: usize,
    pub next: Next,
}
