//! What is begun and wants an operand.

ghost use Rattle.std.specs.Prelude.{◌≡◌, ◌+◌, ◌∷◌};
ghost use Rattle.script_grammar.specs.Reading.{Stack};
ghost use Rattle.script_grammar.specs.Nesting.{count};
ghost use Rattle.script_grammar.specs.Stacks.{pending_of};

use script_tree::expr::{Binary, Expr, Unary};

/// One thing that is begun, with the operands that it has already.
#[derive(Debug, Drop)]
pub enum Pending {
    /// A parenthesis.
    Open,
    /// An operator before its operand.
    Prefix(Unary),
    /// An operator with its left side.
    Right(Expr, Binary),
    /// An `if` that wants its condition.
    Test,
    /// An `if` with its condition.
    Then(Expr),
    /// An `if` with its condition and its first part.
    Else(Expr, Expr),
}

impl Pending {
    /// What it adds to the nesting of the tokens inside it.
    pub fn weight(&self) -> usize
        ensures { (s : Stack) → count (pending_of self.now ∷ s) ≡ count s + result }
    {
        match self {
            Pending::Right(_, _) => 0,
            _ => 1,
        }
    }
}
