// What a node rests on before a call.

ghost use Rattle.std.specs.Prelude.{◌≡◌, ◌<◌, true, ◌∷◌, [], length};
ghost use Rattle.signal_graph.specs.Values.{nodes_in};
ghost use Rattle.flow_state.specs.Booked.{live_in, node_count};
ghost use Rattle.step_rules.specs.Rests.{AreBelow, any_open, any_changed, rests_on, is_touched};

use crate::picked::nodes_in;
use flow_state::Book;
use script_tree::picks::Picks;
use signal_graph::graph::Graph;
use signal_graph::node::Node;

/// Whether one of the nodes that the node rests on is open for the call. `picks` are the node's picks before the call.
pub(crate) fn rests_on_open(
    book: &Book,
    graph: &Graph,
    version: u32,
    node: u32,
    picks: &Picks,
) -> bool
    requires live { live_in book.now version ≡ true }
    requires node { node < length graph.now.nodes }
    requires inside { AreBelow (node_count book.now) (rests_on graph.now node picks.now) }
    ensures { result ≡ any_open book.now version (rests_on graph.now node picks.now) }
{
    if any_open(book, version, graph.inputs(node)) {
        return true;
    }
    any_pick_open(book, version, picks)
}

/// Whether the node is no source and the call has changed one of the nodes that it rests on.
pub(crate) fn is_touched(book: &Book, graph: &Graph, version: u32, node: u32, picks: &Picks) -> bool
    requires live { live_in book.now version ≡ true }
    requires node { node < length graph.now.nodes }
    requires inside { AreBelow (node_count book.now) (rests_on graph.now node picks.now) }
    ensures { result ≡ is_touched graph.now book.now version node picks.now }
{
    if let Node::Source { .. } = graph.node(node) {
        return false;
    }
    if book.any_changed(version, graph.inputs(node)) {
        return true;
    }
    book.any_changed(version, nodes_in(picks).as_slice())
}

fn any_open(book: &Book, version: u32, nodes: &[u32]) -> bool
    requires live { live_in book.now version ≡ true }
    requires inside { AreBelow (node_count book.now) nodes.now }
    ensures { result ≡ any_open book.now version nodes.now }
{
    for node in nodes {
        if book.opens(version, *node) {
            return true;
        }
    }
    false
}

fn any_pick_open(book: &Book, version: u32, picks: &Picks) -> bool
    requires live { live_in book.now version ≡ true }
    requires inside { AreBelow (node_count book.now) (nodes_in picks.now) }
    ensures { result ≡ any_open book.now version (nodes_in picks.now) }
{
    for index in 0..picks.len() {
        if is_pick_open(book, version, picks.get(index)) {
            return true;
        }
    }
    false
}

fn is_pick_open(book: &Book, version: u32, pick: Option<u32>) -> bool
    requires live { live_in book.now version ≡ true }
    requires inside { AreBelow (node_count book.now) (nodes_in (pick ∷ [])) }
    ensures { result ≡ any_open book.now version (nodes_in (pick ∷ [])) }
{
    match pick {
        Some(node) => book.opens(version, node),
        None => false,
    }
}
