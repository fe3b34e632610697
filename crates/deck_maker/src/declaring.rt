// What the workload's nodes are declared as.

ghost use Rattle.std.specs.Prelude.{◌≡◌, ◌+◌, ◌*◌, ◌<◌, ◌∷◌, [], map, None, IfOk};
ghost use Rattle.separate_decks.specs.Draws.{skip, draw};
ghost use Rattle.separate_decks.specs.Workload.{name_of, over, source, fold, signal, choice_tree};
ghost use Rattle.deck_maker.specs.Nodes.{choose_among, kind_at, draws_at};

use crate::draws::Draws;
use crate::naming::{one_name, push_name};
use crate::scripts::{choice_script, fold_script, signal_script};
use script_tree::memory::OutOfMemory;
use script_tree::name::NameList;
use script_tree::value::Value;
use signal_graph::builder::{DeclKind, SelectList};
use std::alloc::Global;

fn source(draws: &mut Draws) -> DeclKind
    ensures kind { result ≡ source (draw draws.old 1 100) }
    ensures state { draws.new ≡ skip 1 draws.old }
{
    DeclKind::Source {
        start: Value::Int(draws.draw(100) as i64),
    }
}

fn fold_over(alloc: Global, first: u32, other: u32) -> Result<DeclKind, OutOfMemory>
    requires first { first < 216 }
    requires other { other < 216 }
    ensures { IfOk result (λ kind. kind ≡ fold first other) }
{
    Ok(DeclKind::Fold {
        start: Value::Int(0),
        script: fold_script(alloc, first, other)?,
    })
}

// A fold over two sources of a thread.
#[tactic(auto, using(crate::proofs::Drawing::later))]
fn fold(alloc: Global, thread: u32, draws: &mut Draws) -> Result<DeclKind, OutOfMemory>
    requires { thread < 8 }
    ensures kind { IfOk result (λ kind. kind ≡ fold (8 * thread + draw draws.old 1 8) (8 * thread + draw draws.old 2 8)) }
    ensures state { draws.new ≡ skip 2 draws.old }
{
    let first = draws.draw(8);
    let other = draws.draw(8);
    fold_over(alloc, 8 * thread + first, 8 * thread + other)
}

fn signal_over(alloc: Global, first: u32, other: u32, rule: u32) -> Result<DeclKind, OutOfMemory>
    requires first { first < 216 }
    requires other { other < 216 }
    ensures { IfOk result (λ kind. kind ≡ signal first other rule) }
{
    Ok(DeclKind::Signal {
        script: signal_script(alloc, first, other, rule)?,
    })
}

// A signal over two of so many nodes.
#[tactic(auto, using(crate::proofs::Drawing::later))]
fn signal(alloc: Global, nodes: u32, draws: &mut Draws) -> Result<DeclKind, OutOfMemory>
    requires some { 0 < nodes }
    requires few { nodes < 216 }
    ensures kind { IfOk result (λ kind. kind ≡ signal (draw draws.old 1 nodes) (draw draws.old 2 nodes) (draw draws.old 3 3)) }
    ensures state { draws.new ≡ skip 3 draws.old }
{
    let first = draws.draw(nodes);
    let other = draws.draw(nodes);
    let rule = draws.draw(3);
    signal_over(alloc, first, other, rule)
}

fn four_names(
    alloc: Global,
    first: u32,
    second: u32,
    third: u32,
    fourth: u32,
) -> Result<NameList, OutOfMemory>
    requires first { first < 216 }
    requires second { second < 216 }
    requires third { third < 216 }
    requires fourth { fourth < 216 }
    ensures { IfOk result (λ names. names ≡ map name_of (first ∷ second ∷ third ∷ fourth ∷ [])) }
{
    let mut names = one_name(alloc, first)?;
    push_name(alloc, &mut names, second)?;
    push_name(alloc, &mut names, third)?;
    push_name(alloc, &mut names, fourth)?;
    Ok(names)
}

// Four candidates among so many nodes.
#[tactic(auto, using(crate::proofs::Drawing::later))]
fn candidates(alloc: Global, nodes: u32, draws: &mut Draws) -> Result<NameList, OutOfMemory>
    requires some { 0 < nodes }
    requires few { nodes < 216 }
    ensures names { IfOk result (λ names. names
        ≡ map name_of (draw draws.old 1 nodes ∷ draw draws.old 2 nodes ∷ draw draws.old 3 nodes ∷ draw draws.old 4 nodes ∷ [])) }
    ensures state { draws.new ≡ skip 4 draws.old }
{
    let first = draws.draw(nodes);
    let second = draws.draw(nodes);
    let third = draws.draw(nodes);
    let fourth = draws.draw(nodes);
    four_names(alloc, first, second, third, fourth)
}

fn choose_by(alloc: Global, node: u32, candidates: NameList) -> Result<DeclKind, OutOfMemory>
    requires { node < 216 }
    ensures { IfOk result (λ kind. kind ≡ DeclKind.Choose ((over (node ∷ []) choice_tree, candidates) ∷ []) None) }
{
    let mut parts = SelectList::new(alloc);
    parts.push((choice_script(alloc, node)?, candidates))?;
    Ok(DeclKind::Choose {
        selectors: parts,
        body: None,
    })
}

// A choose over five of so many nodes.
#[tactic(auto, using(crate::proofs::Drawing::later))]
fn choose(alloc: Global, nodes: u32, draws: &mut Draws) -> Result<DeclKind, OutOfMemory>
    requires some { 0 < nodes }
    requires few { nodes < 216 }
    ensures kind { IfOk result (λ kind. kind ≡ choose_among nodes draws.old) }
    ensures state { draws.new ≡ skip 5 draws.old }
{
    let node = draws.draw(nodes);
    let candidates = candidates(alloc, nodes, draws)?;
    choose_by(alloc, node, candidates)
}

/// What the node with a number is declared as. Takes memory.
#[tactic(auto, unfolding(crate::specs::Nodes::kind_at, crate::specs::Nodes::draws_at))]
pub fn declaration(alloc: Global, node: u32, draws: &mut Draws) -> Result<DeclKind, OutOfMemory>
    requires { node < 216 }
    ensures kind { IfOk result (λ kind. kind ≡ kind_at node draws.old) }
    ensures state { draws.new ≡ skip (draws_at node) draws.old }
{
    if node < 64 {
        return Ok(source(draws));
    }
    if node < 72 {
        return fold(alloc, node - 64, draws);
    }
    if (node - 72) % 6 < 5 {
        return signal(alloc, node, draws);
    }
    choose(alloc, node, draws)
}
