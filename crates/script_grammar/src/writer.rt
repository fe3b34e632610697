//! The canonical text of a script, token by token.

ghost use Rattle.std.specs.Prelude.{◌≡◌, ◌++◌, IfOk};
ghost use Rattle.script_tree.specs.Tree.{tree_of};
ghost use Rattle.script_grammar.specs.Grammar.{level, tokens};
ghost use Rattle.script_grammar.specs.Canonical.{canonical, put};

use crate::level::{ATOM, UNARY, binds, left, prefix_sign, sign};
use crate::token::{Token, Word};
use script_tree::expr::Expr;
use std::alloc::{AllocError, Global};

fn level(script: &Expr) -> u8
    ensures { result ≡ level (canonical (tree_of script.now)) }
{
    match script {
        Expr::Unary(_, _) => UNARY,
        Expr::Binary(op, _, _) => binds(*op),
        Expr::If(_, _, _) => 0,
        _ => ATOM,
    }
}

// Writes a script where its place needs this level.
#[cycle(writer)]
fn write_part(out: &mut Vec<Token>, needed: u8, script: &Expr) -> Result<(), AllocError>
    ensures { IfOk result (λ _. out.new.items ≡ out.old.items ++ tokens (put needed (canonical (tree_of script.now)))) }
{
    if level(script) >= needed {
        return write(out, script);
    }
    out.push(Token::Opens)?;
    write(out, script)?;
    out.push(Token::Closes)?;
    Ok(())
}

#[cycle(writer)]
fn write(out: &mut Vec<Token>, script: &Expr) -> Result<(), AllocError>
    ensures { IfOk result (λ _. out.new.items ≡ out.old.items ++ tokens (canonical (tree_of script.now))) }
{
    match script {
        Expr::Number(value) => out.push(Token::Plain(Word::Digits(*value)))?,
        Expr::Truth(value) if *value => out.push(Token::Plain(Word::Yes))?,
        Expr::Truth(_) => out.push(Token::Plain(Word::No))?,
        Expr::Input(place) => out.push(Token::Plain(Word::Called(*place)))?,
        Expr::Pick(place) => out.push(Token::Plain(Word::Pick(*place)))?,
        Expr::Acc => out.push(Token::Plain(Word::Acc))?,
        Expr::Unary(op, operand) => {
            out.push(prefix_sign(*op))?;
            write_part(out, UNARY, operand)?;
        }
        Expr::Binary(op, x, y) => {
            write_part(out, left(*op), x)?;
            out.push(sign(*op))?;
            write_part(out, binds(*op) + 1, y)?;
        }
        Expr::If(test, first, second) => {
            out.push(Token::IfWord)?;
            write(out, test)?;
            out.push(Token::ThenWord)?;
            write(out, first)?;
            out.push(Token::ElseWord)?;
            write(out, second)?;
        }
    }
    Ok(())
}

/// The canonical tokens of a script: parentheses stand exactly where the grammar needs them to give the same tree.
/// It goes down the tree by recursion, and takes memory for the answer alone; want of it is the one error.
pub fn write_script(alloc: Global, script: &Expr) -> Result<Vec<Token>, AllocError>
    ensures { IfOk result (λ ts. ts.items ≡ tokens (canonical (tree_of script.now))) }
{
    let mut out = Vec::new(alloc);
    write(&mut out, script)?;
    Ok(out)
}
