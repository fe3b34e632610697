//! A script from its tokens, with the place of its fault.

ghost use Rattle.std.specs.Prelude.{◌≡◌, Bool, Some, IfOk};
ghost use Rattle.std.specs.Option.{option_map};
ghost use Rattle.script_tree.specs.Scripts.{all_leaves};
ghost use Rattle.script_tree.specs.Tree.{Tree, tree_of};
ghost use Rattle.script_grammar.specs.Grammar.{BeginsWithin, Spells, word_tree};
ghost use Rattle.script_grammar.specs.Reading.{finish};
ghost use Rattle.script_grammar.specs.Stacks.{state_of};
ghost use Rattle.script_grammar.specs.Refusals.{IsRefusal};
ghost use Rattle.script_grammar.specs.Words.{all_words};

use crate::next::{Next, Step};
use crate::stack::Stack;
use crate::step::advance;
use crate::token::Token;
use script_tree::expr::Expr;
use script_tree::limits::LEVELS;
use std::alloc::{AllocError, Global};

/// Why tokens are no script that is read. Places count tokens from 0.
#[derive(Debug, Drop)]
pub enum Refusal {
    /// The first token such that no script begins with the tokens up to it. Where a script goes on behind the last
    /// token, the place is the number of tokens.
    Syntax(usize),
    /// The first token that stands inside more than 64 parentheses, prefix operators and `if`s.
    TooDeep(usize),
    /// There was no memory for the tree or for the reader's stack.
    Memory,
}

impl From<AllocError> for Refusal {
    ghost use Rattle.std.specs.Prelude.{◌≡◌};
    ghost use Rattle.script_grammar.specs.declared.reader.Refusal.TheVariants.{Memory};

    ghost from_gives = { λ _ e. e ≡ Memory };

    fn from(_: AllocError) -> Refusal {
        Refusal::Memory
    }
}

// The tree, if nothing is begun any more.
fn finished(alloc: Global, stack: &mut Stack, top: Option<Expr>) -> Result<Option<Expr>, AllocError>
    ensures { IfOk result (λ found. option_map tree_of found ≡ finish (Some (state_of stack.old.begun.items top))) }
{
    let Some(x) = top else {
        return Ok(None);
    };
    let x = stack.close(alloc, x)?;
    if stack.is_empty() {
        Ok(Some(x))
    } else {
        Ok(None)
    }
}

/// The script that the tokens are. It reads each token once, with a stack of what is begun: a token costs the same
/// however much is begun, but for what ends at it.
///
/// A script that is answered has no token nested above the limit, and its leaves are the words of the tokens. A refusal
/// names the first token at fault; at one token `Syntax` goes before `TooDeep`. `Memory` may be the answer wherever
/// memory is taken, and says nothing of the tokens.
pub fn read_script(alloc: Global, tokens: &[Token]) -> Result<Expr, Refusal>
    ensures found { IfOk result (λ x. Spells tokens.now (tree_of x)) }
    ensures leaves { IfOk result (λ x. (test : Tree → Bool)
        → all_leaves test (tree_of x) ≡ all_words (λ word. test (word_tree word)) tokens.now) }
    ensures shallow { IfOk result (λ _. BeginsWithin LEVELS tokens.now) }
    ensures fault { IsRefusal tokens.now result }
{
    let mut stack = Stack::new(alloc);
    let mut top = None;
    for (index, token) in tokens.iter().enumerate() {
        let Step { nesting, next } = advance(alloc, &mut stack, top, *token)?;
        top = match next {
            Next::Fails => return Err(Refusal::Syntax(index)),
            Next::WantsMore => None,
            Next::HasOne(x) => Some(x),
        };
        if nesting > LEVELS {
            return Err(Refusal::TooDeep(index));
        }
    }
    match finished(alloc, &mut stack, top)? {
        Some(x) => Ok(x),
        None => Err(Refusal::Syntax(tokens.len())),
    }
}
