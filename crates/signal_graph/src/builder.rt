// Builders of graphs.

ghost use Rattle.std.specs.Prelude.{◌≡◌, ℕ, ◌<◌, ◌∷◌, ◌++◌, map, find, length, MatchOption, Some, None, IfOk, IfErr, OnOk, OnErr};
ghost use Rattle.signal_graph.specs.Graph as definition;
ghost use Rattle.signal_graph.specs.Graph.{IsGraph, Kept, BodyKept, no_nodes};
ghost use Rattle.std.specs.List.{All};
ghost use Rattle.signal_graph.specs.Declarations.{Part, AreKept};

use crate::graph::{Graph, make_graph};
use crate::names::NameTable;
use crate::node::Node;
use crate::resolve::{first_undeclared, resolve};
use script_tree::items::Items;
use script_tree::limits::NODES;
use script_tree::memory::OutOfMemory;
use script_tree::name::{Name, NameList};
use script_tree::script::Script;
use script_tree::value::Value;
use std::alloc::Global;
use std::marker::Model;

/// The selectors of a choose: each a script and the names of its candidates.
pub type SelectList = Items<(Script, NameList)>;

/// What a declaration declares, with its inputs by their names.
#[derive(Debug, Drop)]
pub enum DeclKind {
    /// A source with its start value.
    Source {
        start: Value,
    },
    /// A signal with its script.
    Signal {
        script: Script,
    },
    /// A fold with its start value and its script.
    Fold {
        start: Value,
        script: Script,
    },
    /// A choose with its selectors and perhaps a body over their picks.
    Choose {
        selectors: SelectList,
        body: Option<Script>,
    },
}

/// Why a declaration was refused.
#[derive(Debug, Drop)]
pub enum GraphFault {
    /// The declared name is declared before.
    DoubleName,
    /// A name that the declaration uses, the first one, is not declared before.
    UnknownInput(Name),
    /// As many nodes as a graph may have are there.
    TooManyNodes,
    /// There was no memory.
    Memory,
}

/// A graph that grows, one declaration after the other. Contracts see the graph so far.
#[derive(Drop)]
pub struct GraphBuilder {
    alloc: Global,
    names: NameTable,
    nodes: Vec<Node>,
}

impl Model for GraphBuilder {
    ghost use Rattle.signal_graph.specs.Graph as definition;
    ghost use Rattle.std.specs.Coded.{codes};
    ghost use Rattle.script_tree.specs.TreeCode.{tree_code};

    ghost Value = { definition.Graph };

    ghost coded = { Prim.hlevel (codes, tree_code) };

    ghost view = { λ b. record { names = b.names; nodes = b.nodes.items } };

    ghost invariant = { λ b. definition.IsGraph (record { names = b.names; nodes = b.nodes.items }) };
}

// What each script of a declaration keeps by its type. Changes nothing.
fn scripts_are_kept(kind: &DeclKind)
    ensures { AreKept kind.now }
{
    match kind {
        DeclKind::Source { .. } => {}
        DeclKind::Signal { script } => script.well_formed(),
        DeclKind::Fold { script, .. } => script.well_formed(),
        DeclKind::Choose { selectors, body } => {
            parts_are_kept(selectors.as_slice());
            body_is_kept(body);
        }
    }
}

fn parts_are_kept(parts: &[(Script, NameList)])
    ensures { All (λ (part : Part). Kept part.0) parts.now }
{
    for part in parts {
        part.0.well_formed();
    }
}

fn body_is_kept(body: &Option<Script>)
    ensures { BodyKept body.now }
{
    if let Some(body) = body {
        body.well_formed();
    }
}

impl GraphBuilder {
    ghost use Rattle.signal_graph.specs.Declarations.{IsDeclaration, refusal, with_declaration};

    /// The empty builder. Takes no memory.
    pub fn new(alloc: Global) -> GraphBuilder
        ensures { result ≡ no_nodes }
    {
        GraphBuilder {
            alloc,
            names: NameTable::new(alloc),
            nodes: Vec::new(alloc),
        }
    }

    /// How many nodes there are.
    pub fn len(&self) -> u32
        ensures { result ≡ length self.now.nodes }
    {
        self.nodes.len() as u32
    }

    /// Adds a node at the end, and answers its number. It is refused where there are as many nodes as a graph may have,
    /// else where its name is declared, else where it uses a name that is not declared: the first one, part by part,
    /// those of a part's script before its candidates. Takes memory; `Memory` comes only where there is no such reason.
    /// After a refusal the builder is as it was, and the declaration is dropped.
    pub fn add(&mut self, name: Name, kind: DeclKind) -> Result<u32, GraphFault>
        requires { IsDeclaration kind }
        ensures ok { IfOk result (λ n. (n ≡ length self.old.nodes) × (self.new ≡ with_declaration self.old name kind)) }
        ensures causes { MatchOption (refusal self.old name kind) (IfErr result (λ fault. fault ≡ GraphFault.Memory))
            (λ fault. result ≡ Err fault) }
        ensures err { OnErr result (self.new ≡ self.old) }
    {
        let number = self.len();
        if number >= NODES {
            return Err(GraphFault::TooManyNodes);
        }
        if self.names.contains(&name) {
            return Err(GraphFault::DoubleName);
        }
        if let Some(unknown) = first_undeclared(&self.names, &kind) {
            return Err(GraphFault::UnknownInput(unknown));
        }
        match self.add_known(name, kind) {
            Ok(()) => Ok(number),
            Err(_) => Err(GraphFault::Memory),
        }
    }

    /// The graph of all that was added. Takes memory; where there is none the builder is dropped.
    pub fn build(self) -> Result<Graph, OutOfMemory>
        ensures { IfOk result (λ graph. graph ≡ self) }
    {
        let GraphBuilder {
            alloc,
            names,
            nodes,
        } = self;
        make_graph(alloc, names, nodes)
    }

    // Adds a node whose names are all declared.
    fn add_known(&mut self, name: Name, kind: DeclKind) -> Result<(), OutOfMemory>
        requires declaration { IsDeclaration kind }
        requires free { refusal self.old name kind ≡ None }
        ensures ok { OnOk result (self.new ≡ with_declaration self.old name kind) }
        ensures err { OnErr result (self.new ≡ self.old) }
    {
        scripts_are_kept(&kind);
        let node = resolve(self.alloc, &self.names, kind)?;
        self.nodes.push(node)?;
        match self.names.push(name) {
            Ok(()) => Ok(()),
            Err(fault) => {
                self.nodes.pop();
                Err(fault)
            }
        }
    }
}
