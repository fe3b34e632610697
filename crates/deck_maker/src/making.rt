// The workload's deck.

ghost use Rattle.std.specs.Prelude.{◌≡◌, None, IfOk, OnOk};
ghost use Rattle.signal_graph.specs.Declarations.{IsDeclaration, refusal, with_declaration};
ghost use Rattle.separate_decks.specs.Draws.{skip};
ghost use Rattle.separate_decks.specs.Workload.{workload_graph, workload_scripts};

use crate::calling::scripts;
use crate::declaring::declaration;
use crate::draws::Draws;
use crate::laws::workload_is_deck;
use crate::naming::node_name;
use deck_text::Deck;
use script_tree::memory::OutOfMemory;
use script_tree::name::Name;
use separate_decks::laws::workload_is_separate;
use signal_graph::builder::{DeclKind, GraphBuilder};
use signal_graph::graph::Graph;
use std::alloc::Global;

/// How many nodes there are.
const NODES: u32 = 216;

// Adds a declaration that a builder refuses for want of memory alone.
fn add(builder: &mut GraphBuilder, name: Name, kind: DeclKind) -> Result<(), OutOfMemory>
    requires declaration { IsDeclaration kind }
    requires free { refusal builder.old name kind ≡ None }
    ensures { OnOk result (builder.new ≡ with_declaration builder.old name kind) }
{
    match builder.add(name, kind) {
        Ok(_) => Ok(()),
        Err(_) => Err(OutOfMemory),
    }
}

fn graph(alloc: Global, draws: &mut Draws) -> Result<Graph, OutOfMemory>
    ensures graph { IfOk result (λ graph. graph ≡ workload_graph draws.old) }
    ensures state { OnOk result (draws.new ≡ skip 560 draws.old) }
{
    workload_is_separate();
    let mut builder = GraphBuilder::new(alloc);
    for node in 0..NODES {
        let name = node_name(alloc, node)?;
        let kind = declaration(alloc, node, draws)?;
        add(&mut builder, name, kind)?;
    }
    builder.build()
}

/// The workload's deck of a number: 64 sources `s0` to `s63`, 8 folds `f0` to `f7`, each over two sources of one thread,
/// and 24 rows of five signals `g` and a choose `c`; and 8 threads of 500 calls, each a read of one node, or a fire of
/// one source of the thread and a look at one node. Whatever the number is, the threads set different sources, so all
/// runs of all calls end with the same values. Takes memory.
pub fn make(alloc: Global, number: u64) -> Result<Deck, OutOfMemory>
    ensures graph { IfOk result (λ deck. deck.graph ≡ workload_graph number) }
    ensures scripts { IfOk result (λ deck. deck.scripts ≡ workload_scripts number) }
{
    let mut draws = Draws::new(number);
    let graph = graph(alloc, &mut draws)?;
    let scripts = scripts(alloc, &mut draws)?;
    workload_is_deck();
    Ok(Deck::new(graph, scripts))
}
