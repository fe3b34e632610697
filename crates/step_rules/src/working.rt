// What is gathered, found and evaluated at a node.

ghost use Rattle.std.specs.Prelude.{◌≡◌, ◌<◌, ◌∷◌, [], ◌||◌, length};
ghost use Rattle.signal_graph.specs.Graph.{is_in, inputs_of, node_at, is_source};
ghost use Rattle.signal_graph.specs.Values.{nodes_in};
ghost use Rattle.flow_model.specs.Machine.Words.{is_gathered, is_found, is_candidate};
ghost use Rattle.flow_model.specs.Machine.Steps.{all_gathered, has_body_value};
ghost use Rattle.flow_model.specs.Parts.Books.{bare};
ghost use Rattle.flow_state.specs.Booked.{node_count};
ghost use Rattle.step_rules.specs.Rests.{is_choose};

use flow_state::Book;
use script_tree::picks::Picks;
use signal_graph::graph::Graph;
use signal_graph::node::Node;

/// Whether the node is a source.
pub(crate) fn is_source(graph: &Graph, node: u32) -> bool
    requires { node < length graph.now.nodes }
    ensures { result ≡ is_source (node_at graph.now node) }
{
    match graph.node(node) {
        Node::Source { .. } => true,
        _ => false,
    }
}

/// Whether the node is a choose: no other has selectors.
pub(crate) fn is_choose(graph: &Graph, node: u32) -> bool
    requires { node < length graph.now.nodes }
    ensures { result ≡ is_choose (node_at graph.now node) }
{
    match graph.node(node) {
        Node::Choose { .. } => true,
        _ => false,
    }
}

/// Whether the value of an input is gathered for the node.
pub(crate) fn is_gathered(book: &Book, node: u32, input: u32) -> bool
    requires { node < node_count book.now }
    ensures { result ≡ is_gathered (bare book.now.book) node input }
{
    book.gathered(node, input).is_some()
}

/// Whether the values of all these nodes are gathered for the node.
pub(crate) fn are_gathered(book: &Book, node: u32, inputs: &[u32]) -> bool
    requires { node < node_count book.now }
    ensures { result ≡ all_gathered (bare book.now.book) node inputs.now }
{
    for input in inputs {
        if !is_gathered(book, node, *input) {
            return false;
        }
    }
    true
}

/// The same for all nodes that are picked.
pub(crate) fn are_picks_gathered(book: &Book, node: u32, picks: &Picks) -> bool
    requires { node < node_count book.now }
    ensures { result ≡ all_gathered (bare book.now.book) node (nodes_in picks.now) }
{
    for index in 0..picks.len() {
        if !is_pick_gathered(book, node, picks.get(index)) {
            return false;
        }
    }
    true
}

fn is_pick_gathered(book: &Book, node: u32, pick: Option<u32>) -> bool
    requires { node < node_count book.now }
    ensures { result ≡ all_gathered (bare book.now.book) node (nodes_in (pick ∷ [])) }
{
    match pick {
        Some(input) => is_gathered(book, node, input),
        None => true,
    }
}

/// Whether anything is found for the node.
pub(crate) fn is_found(book: &Book, node: u32) -> bool
    requires { node < node_count book.now }
    ensures { result ≡ is_found (bare book.now.book) node }
{
    book.found(node).is_some()
}

/// Whether a node is picked.
pub(crate) fn has_pick(picks: &Picks, node: u32) -> bool
    ensures { result ≡ is_in node (nodes_in picks.now) }
{
    for index in 0..picks.len() {
        if is_pick(picks.get(index), node) {
            return true;
        }
    }
    false
}

fn is_pick(pick: Option<u32>, node: u32) -> bool
    ensures { result ≡ is_in node (nodes_in (pick ∷ [])) }
{
    match pick {
        Some(other) => other == node,
        None => false,
    }
}

/// Whether the node's selectors have picked a candidate.
pub(crate) fn is_candidate(book: &Book, node: u32, candidate: u32) -> bool
    requires { node < node_count book.now }
    ensures { result ≡ is_candidate (bare book.now.book) node candidate }
{
    has_pick(&book.found_picks(node), candidate)
}

/// Whether the node's scripts name an input, or its selectors have picked it.
pub(crate) fn is_read(book: &Book, graph: &Graph, node: u32, input: u32) -> bool
    requires node { node < node_count book.now }
    requires known { node < length graph.now.nodes }
    ensures { result ≡ (is_in input (inputs_of (node_at graph.now node)) || is_candidate (bare book.now.book) node input) }
{
    if is_among(graph.inputs(node), input) {
        return true;
    }
    is_candidate(book, node, input)
}

/// Whether a node is among others.
pub(crate) fn is_among(nodes: &[u32], node: u32) -> bool
    ensures { result ≡ is_in node nodes.now }
{
    nodes.iter().any(|other| *other == node)
}

/// Whether the node has no body, or the body's value.
pub(crate) fn has_body_value(book: &Book, graph: &Graph, node: u32) -> bool
    requires node { node < node_count book.now }
    requires known { node < length graph.now.nodes }
    ensures { result ≡ has_body_value graph.now (bare book.now.book) node }
{
    if graph.body(node).is_none() {
        return true;
    }
    book.body(node).is_some()
}
