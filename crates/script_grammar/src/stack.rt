//! What the reader has begun.

ghost use Rattle.std.specs.Prelude.{◌≡◌, ◌+◌, ◌∷◌, [], IfOk, IsTrue, MatchOption, ◌↔◌};
ghost use Rattle.script_tree.specs.Tree.{tree_of};
ghost use Rattle.script_grammar.specs.Reading.{Has, close, need, reduce, settle};
ghost use Rattle.script_grammar.specs.Nesting.{count};
ghost use Rattle.script_grammar.specs.Stacks.{pending_of, stack_of};

use crate::level::{UNARY, binds};
use crate::pending::Pending;
use script_tree::expr::Expr;
use std::alloc::{AllocError, Global};

/// What is begun, the innermost last, with the number of those that nest what stands inside them.
#[derive(Drop)]
pub struct Stack {
    pub begun: Vec<Pending>,
    nesting: usize,
    ghost counted: { nesting ≡ count (stack_of begun.items) },
}

impl Stack {
    /// Nothing is begun.
    pub fn new(alloc: Global) -> Self
        ensures { stack_of result.begun.items ≡ [] }
    {
        Stack {
            begun: Vec::new(alloc),
            nesting: 0,
        }
    }

    /// How many parentheses, prefix operators and `if`s are begun. Nothing is walked for it.
    pub fn nesting(&self) -> usize
        ensures { result ≡ count (stack_of self.now.begun.items) }
    {
        self.nesting
    }

    /// Whether nothing is begun.
    pub fn is_empty(&self) -> bool
        ensures { IsTrue result ↔ (stack_of self.now.begun.items ≡ []) }
    {
        self.begun.is_empty()
    }

    /// Begins one thing more, inside all others. Want of memory is the one error.
    #[tactic(auto, using(crate::proofs::StackLaws::stack_laws))]
    pub fn push(&mut self, pending: Pending) -> Result<(), AllocError>
        ensures { IfOk result (λ _. stack_of self.new.begun.items ≡ pending_of pending ∷ stack_of self.old.begun.items) }
    {
        let weight = pending.weight();
        self.begun.push(pending)?;
        self.nesting += weight;
        Ok(())
    }

    /// Takes the innermost one away.
    #[tactic(auto, using(crate::proofs::StackLaws::stack_laws))]
    pub fn pop(&mut self) -> Option<Pending>
        ensures { MatchOption result ((stack_of self.old.begun.items ≡ []) × (self.new.begun.items ≡ self.old.begun.items))
            (λ pending. stack_of self.old.begun.items ≡ pending_of pending ∷ stack_of self.new.begun.items) }
    {
        let pending = self.begun.pop()?;
        self.nesting -= pending.weight();
        Some(pending)
    }

    /// The level that an operand needs here.
    #[tactic(auto, using(crate::proofs::StackLaws::stack_laws))]
    pub fn need(&self) -> u8
        ensures { result ≡ need (stack_of self.now.begun.items) }
    {
        match self.begun.last() {
            Some(Pending::Prefix(_)) => UNARY,
            Some(Pending::Right(_, op)) => binds(*op) + 1,
            _ => 0,
        }
    }

    /// An atom ends the prefix operators before it. Want of memory is the one error, here and below.
    #[tactic(auto, using(crate::proofs::StackLaws::stack_laws))]
    pub fn settle(&mut self, alloc: Global, x: Expr) -> Result<Expr, AllocError>
        ensures { IfOk result (λ top. Has (stack_of self.new.begun.items) (tree_of top)
            ≡ settle (stack_of self.old.begun.items) (tree_of x)) }
    {
        let mut x = x;
        while let Some(pending) = self.pop() {
            match pending {
                Pending::Prefix(op) => x = Expr::Unary(op, Box::new(alloc, x)?),
                other => {
                    self.push(other)?;
                    return Ok(x);
                }
            }
        }
        Ok(x)
    }

    /// The operators that bind at least so take their right side.
    #[tactic(auto, using(crate::proofs::StackLaws::stack_laws))]
    pub fn reduce(&mut self, alloc: Global, level: u8, x: Expr) -> Result<Expr, AllocError>
        ensures { IfOk result (λ top. Has (stack_of self.new.begun.items) (tree_of top)
            ≡ reduce level (stack_of self.old.begun.items) (tree_of x)) }
    {
        let mut x = x;
        while let Some(pending) = self.pop() {
            match pending {
                Pending::Right(y, op) => {
                    if binds(op) < level {
                        self.push(Pending::Right(y, op))?;
                        return Ok(x);
                    }
                    x = Expr::Binary(op, Box::new(alloc, y)?, Box::new(alloc, x)?);
                }
                other => {
                    self.push(other)?;
                    return Ok(x);
                }
            }
        }
        Ok(x)
    }

    /// All operators, and all `if`s with their last part, take what stands behind them.
    #[tactic(auto, using(crate::proofs::StackLaws::stack_laws))]
    pub fn close(&mut self, alloc: Global, x: Expr) -> Result<Expr, AllocError>
        ensures { IfOk result (λ top. Has (stack_of self.new.begun.items) (tree_of top)
            ≡ close (stack_of self.old.begun.items) (tree_of x)) }
    {
        let mut x = x;
        while let Some(pending) = self.pop() {
            match pending {
                Pending::Right(y, op) => {
                    x = Expr::Binary(op, Box::new(alloc, y)?, Box::new(alloc, x)?);
                }
                Pending::Else(c, y) => {
                    x = Expr::If(
                        Box::new(alloc, c)?,
                        Box::new(alloc, y)?,
                        Box::new(alloc, x)?,
                    );
                }
                other => {
                    self.push(other)?;
                    return Ok(x);
                }
            }
        }
        Ok(x)
    }
}
