// The scripts of the workload's nodes, as trees.

ghost use Rattle.std.specs.Prelude.{◌≡◌, ◌<◌, ◌∷◌, [], pos, IfOk};
ghost use Rattle.script_tree.specs.Tree as tree;
ghost use Rattle.script_tree.specs.Tree.{tree_of};
ghost use Rattle.separate_decks.specs.Workload.{over, two, second, whole, signal_tree, choice_tree};

use crate::naming::{one_name, two_names};
use script_tree::expr::{Binary, Expr};
use script_tree::memory::OutOfMemory;
use script_tree::script::Script;
use std::alloc::Global;

fn join(alloc: Global, op: Binary, left: Expr, right: Expr) -> Result<Expr, OutOfMemory>
    ensures { IfOk result (λ joined. tree_of joined ≡ tree.Join op (tree_of left) (tree_of right)) }
{
    Ok(Expr::Binary(op, Box::new(alloc, left)?, Box::new(alloc, right)?))
}

// Where the other one of two nodes stands among their different names.
fn second_input(first: u32, other: u32) -> Expr
    ensures { tree_of result ≡ second first other }
{
    if first == other {
        return Expr::Input(0);
    }
    Expr::Input(1)
}

// What an expression leaves when it is divided by a number.
fn remainder(alloc: Global, left: Expr, divisor: i64) -> Result<Expr, OutOfMemory>
    ensures { IfOk result (λ made. tree_of made ≡ tree.Join Binary.Remainder (tree_of left) (tree.Number divisor)) }
{
    join(alloc, Binary::Remainder, left, Expr::Number(divisor))
}

fn fold_tree(alloc: Global, first: u32, other: u32) -> Result<Expr, OutOfMemory>
    ensures { IfOk result (λ made. tree_of made
        ≡ tree.Join Binary.Subtract (tree.Join Binary.Add tree.Acc (tree.Input 0)) (second first other)) }
{
    let sum = join(alloc, Binary::Add, Expr::Acc, Expr::Input(0))?;
    join(alloc, Binary::Subtract, sum, second_input(first, other))
}

/// `acc + a - b` over two nodes. Takes memory.
pub fn fold_script(alloc: Global, first: u32, other: u32) -> Result<Script, OutOfMemory>
    requires first { first < 216 }
    requires other { other < 216 }
    ensures { IfOk result (λ script. script
        ≡ over (two first other) (tree.Join Binary.Subtract (tree.Join Binary.Add tree.Acc (tree.Input 0)) (second first other))) }
{
    let tree = fold_tree(alloc, first, other)?;
    let names = two_names(alloc, first, other)?;
    Ok(Script::new(names, tree))
}

// `(p + q) % 1000` or `(p - q) % 1000`.
fn thousandths(alloc: Global, op: Binary, other: Expr) -> Result<Expr, OutOfMemory>
    ensures { IfOk result (λ made. tree_of made ≡ tree.Join Binary.Remainder (tree.Join op (tree.Input 0) (tree_of other)) (whole 1000)) }
{
    let joined = join(alloc, op, Expr::Input(0), other)?;
    remainder(alloc, joined, 1000)
}

// `if p < q then p else q`.
fn lesser(alloc: Global, first: u32, other: u32) -> Result<Expr, OutOfMemory>
    ensures { IfOk result (λ made. tree_of made
        ≡ tree.If (tree.Join Binary.Less (tree.Input 0) (second first other)) (tree.Input 0) (second first other)) }
{
    let test = join(
        alloc,
        Binary::Less,
        Expr::Input(0),
        second_input(first, other),
    )?;
    Ok(Expr::If(
        Box::new(alloc, test)?,
        Box::new(alloc, Expr::Input(0))?,
        Box::new(alloc, second_input(first, other))?,
    ))
}

fn signal_tree(alloc: Global, first: u32, other: u32, rule: u32) -> Result<Expr, OutOfMemory>
    ensures { IfOk result (λ made. tree_of made ≡ signal_tree rule (tree.Input 0) (second first other)) }
{
    if rule == 0 {
        return thousandths(alloc, Binary::Add, second_input(first, other));
    }
    if rule == 1 {
        return thousandths(alloc, Binary::Subtract, second_input(first, other));
    }
    lesser(alloc, first, other)
}

/// A signal's script over two nodes, by a rule. Takes memory.
pub fn signal_script(
    alloc: Global,
    first: u32,
    other: u32,
    rule: u32,
) -> Result<Script, OutOfMemory>
    requires first { first < 216 }
    requires other { other < 216 }
    ensures { IfOk result (λ script. script ≡ over (two first other) (signal_tree rule (tree.Input 0) (second first other))) }
{
    let tree = signal_tree(alloc, first, other, rule)?;
    let names = two_names(alloc, first, other)?;
    Ok(Script::new(names, tree))
}

// `(p % 4 + 4) % 4`.
fn choice_tree(alloc: Global) -> Result<Expr, OutOfMemory>
    ensures { IfOk result (λ made. tree_of made ≡ choice_tree) }
{
    let rest = remainder(alloc, Expr::Input(0), 4)?;
    let sum = join(alloc, Binary::Add, rest, Expr::Number(4))?;
    remainder(alloc, sum, 4)
}

/// `(p % 4 + 4) % 4` over a node. Takes memory.
pub fn choice_script(alloc: Global, node: u32) -> Result<Script, OutOfMemory>
    requires { node < 216 }
    ensures { IfOk result (λ script. script ≡ over (node ∷ []) choice_tree) }
{
    let tree = choice_tree(alloc)?;
    let names = one_name(alloc, node)?;
    Ok(Script::new(names, tree))
}
