//! What the next token does to what is begun.

ghost use Rattle.std.specs.Prelude.{◌≡◌, ◌∷◌, Some, IfOk};
ghost use Rattle.script_tree.specs.Tree.{tree_of};
ghost use Rattle.script_grammar.specs.Grammar.{left, word_tree};
ghost use Rattle.script_grammar.specs.Reading.{Has, Wants, close, on_close, on_else, on_then, operate, reduce, step};
ghost use Rattle.script_grammar.specs.Nesting.{count, count_of, nesting};
ghost use Rattle.script_grammar.specs.declared.next.Next.TheVariants.{Fails};
ghost use Rattle.script_grammar.specs.Stacks.{pending_of, next_of, stack_of, state_of};

use crate::level::{binds, left};
use crate::next::{Next, Step};
use crate::pending::Pending;
use crate::stack::Stack;
use crate::token::{Token, Word};
use script_tree::expr::{Binary, Expr, Unary};
use std::alloc::{AllocError, Global};

fn leaf(word: Word) -> Expr
    ensures { tree_of result ≡ word_tree word }
{
    match word {
        Word::Digits(value) => Expr::Number(value),
        Word::Yes => Expr::Truth(true),
        Word::No => Expr::Truth(false),
        Word::Called(place) => Expr::Input(place),
        Word::Pick(place) => Expr::Pick(place),
        Word::Acc => Expr::Acc,
    }
}

fn begin(stack: &mut Stack, pending: Pending) -> Result<Next, AllocError>
    ensures { IfOk result (λ next. next_of next stack.new.begun.items
        ≡ Some (Wants (pending_of pending ∷ stack_of stack.old.begun.items))) }
{
    stack.push(pending)?;
    Ok(Next::WantsMore)
}

// A token where an operand is wanted.
fn begun(alloc: Global, stack: &mut Stack, token: Token) -> Result<Next, AllocError>
    ensures { IfOk result (λ next. next_of next stack.new.begun.items ≡ step (Wants (stack_of stack.old.begun.items)) token) }
{
    match token {
        Token::Plain(word) => Ok(Next::HasOne(stack.settle(alloc, leaf(word))?)),
        Token::Minus => begin(stack, Pending::Prefix(Unary::Negate)),
        Token::Bang => begin(stack, Pending::Prefix(Unary::Not)),
        Token::Opens => begin(stack, Pending::Open),
        Token::IfWord => {
            if stack.need() == 0 {
                begin(stack, Pending::Test)
            } else {
                Ok(Next::Fails)
            }
        }
        _ => Ok(Next::Fails),
    }
}

// A token that can't follow.
fn stray(stack: &Stack) -> Step
    ensures leads { result.next ≡ Fails }
    ensures depth { result.nesting ≡ count (stack_of stack.now.begun.items) }
{
    Step {
        nesting: stack.nesting(),
        next: Next::Fails,
    }
}

fn operate(alloc: Global, op: Binary, stack: &mut Stack, x: Expr) -> Result<Step, AllocError>
    ensures leads { IfOk result (λ s. next_of s.next stack.new.begun.items
        ≡ operate op (reduce (left op) (stack_of stack.old.begun.items) (tree_of x))) }
    ensures depth { IfOk result (λ s. s.nesting ≡ count (stack_of stack.old.begun.items)) }
{
    let nesting = stack.nesting();
    let x = stack.reduce(alloc, left(op), x)?;
    if binds(op) < stack.need() {
        return Ok(Step {
            nesting,
            next: Next::Fails,
        });
    }
    let next = begin(stack, Pending::Right(x, op))?;
    Ok(Step { nesting, next })
}

fn on_close(alloc: Global, stack: &mut Stack, x: Expr) -> Result<Next, AllocError>
    ensures { IfOk result (λ next. next_of next stack.new.begun.items ≡ on_close (Has (stack_of stack.old.begun.items) (tree_of x))) }
{
    match stack.pop() {
        Some(Pending::Open) => Ok(Next::HasOne(stack.settle(alloc, x)?)),
        _ => Ok(Next::Fails),
    }
}

fn on_then(stack: &mut Stack, x: Expr) -> Result<Next, AllocError>
    ensures { IfOk result (λ next. next_of next stack.new.begun.items ≡ on_then (Has (stack_of stack.old.begun.items) (tree_of x))) }
{
    match stack.pop() {
        Some(Pending::Test) => begin(stack, Pending::Then(x)),
        _ => Ok(Next::Fails),
    }
}

fn on_else(stack: &mut Stack, x: Expr) -> Result<Next, AllocError>
    ensures { IfOk result (λ next. next_of next stack.new.begun.items ≡ on_else (Has (stack_of stack.old.begun.items) (tree_of x))) }
{
    match stack.pop() {
        Some(Pending::Then(test)) => begin(stack, Pending::Else(test, x)),
        _ => Ok(Next::Fails),
    }
}

// A token behind an operand. What ends before a closing token no longer nests it.
fn followed(alloc: Global, stack: &mut Stack, x: Expr, token: Token) -> Result<Step, AllocError>
    ensures leads { IfOk result (λ s. next_of s.next stack.new.begun.items
        ≡ step (Has (stack_of stack.old.begun.items) (tree_of x)) token) }
    ensures depth { IfOk result (λ s. s.nesting ≡ nesting (Has (stack_of stack.old.begun.items) (tree_of x)) token) }
{
    match token {
        Token::Sign(Binary::Subtract) => Ok(stray(stack)),
        Token::Sign(op) => operate(alloc, op, stack, x),
        Token::Minus => operate(alloc, Binary::Subtract, stack, x),
        Token::Closes => {
            let x = stack.close(alloc, x)?;
            let nesting = stack.nesting();
            let next = on_close(alloc, stack, x)?;
            Ok(Step { nesting, next })
        }
        Token::ThenWord => {
            let x = stack.close(alloc, x)?;
            let nesting = stack.nesting();
            let next = on_then(stack, x)?;
            Ok(Step { nesting, next })
        }
        Token::ElseWord => {
            let x = stack.close(alloc, x)?;
            let nesting = stack.nesting();
            let next = on_else(stack, x)?;
            Ok(Step { nesting, next })
        }
        _ => Ok(stray(stack)),
    }
}

/// What a token leads to behind what is begun and the operand that is there, if one is, and how deep the token is
/// nested. Want of memory is the one error.
pub fn advance(
    alloc: Global,
    stack: &mut Stack,
    top: Option<Expr>,
    token: Token,
) -> Result<Step, AllocError>
    ensures leads { IfOk result (λ s. next_of s.next stack.new.begun.items ≡ step (state_of stack.old.begun.items top) token) }
    ensures depth { IfOk result (λ s. s.nesting ≡ nesting (state_of stack.old.begun.items top) token) }
{
    match top {
        None => {
            let nesting = stack.nesting();
            let next = begun(alloc, stack, token)?;
            Ok(Step { nesting, next })
        }
        Some(x) => followed(alloc, stack, x, token),
    }
}
