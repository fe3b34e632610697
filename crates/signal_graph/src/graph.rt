// Graphs.

ghost use Rattle.std.specs.Prelude.{◌≡◌, ◌≢◌, ℕ, ◌<◌, ◌≤◌, if◌then◌else◌, length, slice_get};
ghost use Rattle.std.specs.Prelude.{option_copied, Some, None, IsSome, IfSome, IfNone, IfOk};
ghost use Rattle.signal_graph.specs.Graph as definition;
ghost use Rattle.signal_graph.specs.Graph.{IsGraph, IsNode, node_at, name_at, number_of, kind_of};
ghost use Rattle.signal_graph.specs.Graph.{script_of, inputs_of, body_of, selectors_of, static_outs};
ghost use Rattle.signal_graph.specs.Values.{val, start, picks};
ghost use Rattle.signal_graph.specs.Machine.{names_node};

use crate::evaluate::value_at;
use crate::names::NameTable;
use crate::node::{Node, NodeKind, Selector};
use crate::outs::static_outs;
use crate::starts::{all_picks, start_values};
use script_tree::items::Items;
use script_tree::limits::NODES;
use script_tree::memory::OutOfMemory;
use script_tree::name::Name;
use script_tree::picks::Picks;
use script_tree::script::Script;
use script_tree::value::Value;
use std::alloc::Global;
use std::marker::Model;

/// A graph: its nodes in the order of declaration, and what is asked about them again and again. Nodes are named by
/// their numbers, which count from 0. Contracts see the names and the nodes. No call takes memory.
#[derive(Drop)]
pub struct Graph {
    names: NameTable,
    nodes: Vec<Node>,
    outs: Vec<Items<u32>>,
    starts: Vec<Value>,
    picked: Vec<Picks>,
}

impl Model for Graph {
    ghost use Rattle.signal_graph.specs.Graph as definition;
    ghost use Rattle.signal_graph.specs.Kept.{IsKept};
    ghost use Rattle.std.specs.Coded.{codes};
    ghost use Rattle.script_tree.specs.TreeCode.{tree_code};

    ghost Value = { definition.Graph };

    ghost coded = { Prim.hlevel (codes, tree_code) };

    ghost view = { λ g. record { names = g.names; nodes = g.nodes.items } };

    ghost invariant = { λ g. IsKept (record { names = g.names; nodes = g.nodes.items }) g.outs.items g.starts.items g.picked.items };
}

/// The graph of these names and nodes. Takes memory.
pub(crate) fn make_graph(
    alloc: Global,
    names: NameTable,
    nodes: Vec<Node>,
) -> Result<Graph, OutOfMemory>
    requires { IsGraph (record { names = names; nodes = nodes.items }) }
    ensures { IfOk result (λ graph. graph ≡ record { names = names; nodes = nodes.items }) }
{
    let outs = static_outs(alloc, nodes.as_slice())?;
    let starts = start_values(alloc, nodes.as_slice())?;
    let picked = all_picks(alloc, nodes.as_slice(), starts.as_slice())?;
    Ok(Graph {
        names,
        nodes,
        outs,
        starts,
        picked,
    })
}

impl Graph {
    /// How many nodes there are. With it come the facts that every graph keeps.
    pub fn len(&self) -> u32
        ensures value { result ≡ length self.now.nodes }
        ensures kept { IsGraph self.now }
    {
        self.nodes.len() as u32
    }

    /// The node with a number, and what it keeps: it names earlier nodes alone.
    pub fn node(&self, node: u32) -> &Node
        requires { node < length self.now.nodes }
        ensures value { result.now ≡ node_at self.now node }
        ensures kept { IsNode self.now.names node result.now }
    {
        &self.nodes[node as usize]
    }

    /// The name of a node.
    pub fn name(&self, node: u32) -> &Name
        requires { node < length self.now.nodes }
        ensures { result.now ≡ name_at self.now node }
    {
        self.names.get(node)
    }

    /// What a node is.
    pub fn kind(&self, node: u32) -> NodeKind
        requires { node < length self.now.nodes }
        ensures { result ≡ kind_of (node_at self.now node) }
    {
        self.node(node).kind()
    }

    /// The one script of a node without a body, or none at a source.
    pub fn script(&self, node: u32) -> Option<&Script>
        requires known { node < length self.now.nodes }
        requires no_body { body_of (node_at self.now node) ≡ None }
        ensures { option_copied result ≡ script_of (node_at self.now node) }
    {
        self.node(node).script()
    }

    /// The nodes that a node's scripts name: in the order of the script's names, and at a choose the different ones of
    /// all selectors in the order of first appearance.
    pub fn inputs(&self, node: u32) -> &[u32]
        requires { node < length self.now.nodes }
        ensures { result.now ≡ inputs_of (node_at self.now node) }
    {
        self.node(node).inputs()
    }

    /// The nodes whose scripts name a node, ascending. A node that only lists it as a candidate is none of them.
    pub fn static_outs(&self, node: u32) -> &[u32]
        requires { node < length self.now.nodes }
        ensures { result.now ≡ static_outs self.now node }
    {
        self.outs[node as usize].as_slice()
    }

    /// The value of a node in the start state.
    pub fn start_value(&self, node: u32) -> Value
        requires { node < length self.now.nodes }
        ensures { result ≡ val self.now (start self.now) node }
    {
        value_at(self.starts.as_slice(), node)
    }

    /// How many selectors a choose has, and 0 for another kind.
    pub fn selectors(&self, node: u32) -> u32
        requires { node < length self.now.nodes }
        ensures { result ≡ length (selectors_of (node_at self.now node)) }
    {
        self.node(node).selectors().len() as u32
    }

    /// The script of a selector of a choose. Selectors count from 0.
    pub fn selector(&self, node: u32, index: u32) -> &Script
        requires known { node < length self.now.nodes }
        requires selects { index < length (selectors_of (node_at self.now node)) }
        ensures { IfSome (slice_get (selectors_of (node_at self.now node)) index) (λ s. result.now ≡ s.script) }
    {
        &self.selector_at(node, index).script
    }

    /// The nodes that the script of a selector names, in the order of its names.
    pub fn selector_inputs(&self, node: u32, index: u32) -> &[u32]
        requires known { node < length self.now.nodes }
        requires selects { index < length (selectors_of (node_at self.now node)) }
        ensures { IfSome (slice_get (selectors_of (node_at self.now node)) index) (λ s. result.now ≡ s.inputs) }
    {
        self.selector_at(node, index).inputs.as_slice()
    }

    /// The candidates of a selector, in their order.
    pub fn selector_candidates(&self, node: u32, index: u32) -> &[u32]
        requires known { node < length self.now.nodes }
        requires selects { index < length (selectors_of (node_at self.now node)) }
        ensures { IfSome (slice_get (selectors_of (node_at self.now node)) index) (λ s. result.now ≡ s.candidates) }
    {
        self.selector_at(node, index).candidates.as_slice()
    }

    /// The body of a choose, or none where there is none.
    pub fn body(&self, node: u32) -> Option<&Script>
        requires { node < length self.now.nodes }
        ensures { option_copied result ≡ body_of (node_at self.now node) }
    {
        self.node(node).body()
    }

    /// What the selectors of a choose select in the start state, one item per selector, and the empty list for another
    /// kind.
    pub fn start_picks(&self, node: u32) -> Picks
        requires { node < length self.now.nodes }
        ensures { result ≡ picks self.now (start self.now) node }
    {
        self.picked[node as usize].copy()
    }

    /// The number of the node with a name, or none where no node has it.
    pub fn find(&self, name: &Name) -> Option<u32>
        ensures value { result ≡ (if names_node self.now name.now then Some (number_of self.now name.now) else None) }
        ensures some { IfSome result (λ n. (n < length self.now.nodes) × (name_at self.now n ≡ name.now)) }
        ensures none { IfNone result ((m : ℕ) → m < length self.now.nodes → name_at self.now m ≢ name.now) }
    {
        self.names.find(name)
    }

    /// The number of the node with a name, or how many nodes there are where no node has it.
    pub fn number(&self, name: &Name) -> u32
        ensures { result ≡ number_of self.now name.now }
    {
        self.names.place(name)
    }

    fn selector_at(&self, node: u32, index: u32) -> &Selector
        requires known { node < length self.now.nodes }
        requires selects { index < length (selectors_of (node_at self.now node)) }
        ensures { slice_get (selectors_of (node_at self.now node)) index ≡ Some result.now }
    {
        &self.node(node).selectors()[index as usize]
    }
}
