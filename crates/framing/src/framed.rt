// A call frames a node.

ghost use Rattle.std.specs.Prelude.{◌≡◌, true};
ghost use Rattle.node_versions.specs.Entries.{has, active_nodes};
ghost use Rattle.flow_model.specs.declared.step.Step.TheVariants as step;
ghost use Rattle.flow_state.specs.Booked.{live_in, node_count, on_call};
ghost use Rattle.flow_state.specs.Fitting.{IsListStep, MakesList};
ghost use Rattle.framing.specs.Framed.{SomeCanFrame, TakesFrame, wanting_all, AreBelow, EdgesBelow};

use entering::enter;
use flow_state::Book;
use node_versions::{NodeList, State};
use signal_graph::graph::Graph;

/// The call has a Frame in the node's list, the node is open for it, and it wants the nodes that are framed with this
/// one: the step Frame. It is allowed in a lawful state of the graph that has this book, and this list at the node. Takes
/// no memory.
pub fn frame(book: &mut Book, list: &mut NodeList, graph: &Graph, version: u32, node: u32)
    requires { IsListStep graph.now book.old node list.old (step.Frame version node) }
    ensures { MakesList graph.now book.old node list.old (step.Frame version node) book.new list.new }
{
    take_frame(book, list, version, node);
    book.open(version, node);
    want_all(book, version, graph.static_outs(node));
    want_active(book, list, version);
}

// The call's Mark becomes a Frame, or the call enters the list with one.
fn take_frame(book: &mut Book, list: &mut NodeList, version: u32, node: u32)
    requires { SomeCanFrame book.old node list.old version }
    ensures { TakesFrame book.old node list.old version book.new list.new }
{
    if list.entry_of(version).is_some() {
        list.raise_mark(version);
        return;
    }
    enter(book, list, version, node, State::Frame);
}

// The call comes to want all these nodes, but for those that are open for it.
fn want_all(book: &mut Book, version: u32, nodes: &[u32])
    requires live { live_in book.old version ≡ true }
    requires below { AreBelow (node_count book.old) nodes.now }
    ensures { book.new ≡ on_call book.old version (wanting_all nodes.now) }
{
    for node in nodes {
        book.want(version, *node);
    }
}

// The call comes to want all nodes whose out-edges are active for it, but for those that are open for it.
fn want_active(book: &mut Book, list: &NodeList, version: u32)
    requires live { live_in book.old version ≡ true }
    requires entry { has list.now.entries version ≡ true }
    requires below { EdgesBelow (node_count book.old) list.now.outs }
    ensures { book.new ≡ on_call book.old version (wanting_all (active_nodes list.now.entries list.now.outs version)) }
{
    // Most nodes are no candidates: they have no out-edges.
    if list.outs_len() == 0 {
        return;
    }
    let Some(own) = list.entry_of(version) else {
        return;
    };
    for index in 0..list.outs_len() {
        if list.active_at(own, index) {
            let (chooser, _) = list.out(index);
            book.want(version, chooser);
        }
    }
}
