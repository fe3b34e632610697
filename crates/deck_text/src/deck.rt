// A deck: a graph, and the calls of its threads.

ghost use Rattle.std.specs.Prelude.{◌≡◌, IfOk};

use signal_graph::call::Scripts;
use signal_graph::graph::Graph;
use std::marker::Model;

/// A graph and one list of calls per thread: a deck that lines spell. So no line of its canonical text is too long, and
/// no script in it is nested too deep. It has at least one thread and at most as many as the limit; each thread has
/// fewer than 2^32 calls, each fire a set and each read a look, each at most as many as the limits, and no set has a
/// fault as its value. Names in calls need not be declared.
#[derive(Drop)]
pub struct Deck {
    graph: Graph,
    scripts: Scripts,
}

impl Model for Deck {
    ghost use Rattle.std.specs.Coded.{codes};
    ghost use Rattle.script_tree.specs.TreeCode.{tree_code};
    ghost use Rattle.deck_text.specs.Decks.{Decked};
    ghost use Rattle.deck_text.specs.Kept.{IsDeck};

    ghost Value = { Decked };

    ghost coded = { Prim.hlevel (codes, tree_code) };

    ghost view = { λ deck. record { graph = deck.graph; scripts = deck.scripts } };

    ghost invariant = { λ deck. IsDeck (record { graph = deck.graph; scripts = deck.scripts }) };
}

impl Deck {
    ghost use Rattle.deck_text.specs.Calls.{AreThreads};
    ghost use Rattle.deck_text.specs.Kept.{IsDeck};

    /// The deck of this graph and these calls, which some lines spell. Takes no memory.
    pub fn new(graph: Graph, scripts: Scripts) -> Deck
        requires { IsDeck (record { graph = graph; scripts = scripts }) }
        ensures graph { result.graph ≡ graph }
        ensures scripts { result.scripts ≡ scripts }
    {
        Deck { graph, scripts }
    }

    /// The graph of its declarations. With it comes what every deck keeps. Takes no memory.
    pub fn graph(&self) -> &Graph
        ensures value { result.now ≡ self.now.graph }
        ensures kept { IsDeck self.now }
    {
        &self.graph
    }

    /// The calls of each thread, thread 1 first. Takes no memory.
    pub fn scripts(&self) -> &Scripts
        ensures value { result.now ≡ self.now.scripts }
        ensures kept { AreThreads result.now }
    {
        &self.scripts
    }

    /// The graph and the calls of each thread, thread 1 first. With them comes what every deck keeps. Takes no memory.
    pub fn into_parts(self) -> (Graph, Scripts)
        ensures graph { result.0 ≡ self.graph }
        ensures scripts { result.1 ≡ self.scripts }
        ensures kept { IsDeck self }
        ensures threads { AreThreads result.1 }
    {
        let Deck { graph, scripts } = self;
        (graph, scripts)
    }
}
