// A node's new value stands.

ghost use Rattle.std.specs.Prelude.{◌≡◌, ◌<◌, true, map, length, None};
ghost use Rattle.flow_model.specs.declared.step.Step.TheVariants as step;
ghost use Rattle.flow_model.specs.Machine.Words.{first_pick_over, value_over, value_or};
ghost use Rattle.flow_state.specs.Booked.{live_in, node_count, work_at};
ghost use Rattle.flow_state.specs.Found.{found_of, selection_of};
ghost use Rattle.flow_state.specs.Fitting.{IsListStep, MakesList};
ghost use Rattle.sweep.specs.NewValues.{gathered_value, found_value, new_value};

use flow_state::{Book, Finding, Found, FoundList};
use node_versions::NodeList;
use script_tree::value::{Fault, Value};
use signal_graph::compare::is_same;
use signal_graph::graph::Graph;
use signal_graph::node::Node;

/// The node's new value stands, with its picks, and the call has finished there: the step Resolve. The value is the last
/// one that the call sets, at a source, and else what was found or evaluated, which is forgotten. The step is allowed in
/// a lawful state of the graph that has this book and, at the node, this list. Takes no memory.
pub fn resolve(book: &mut Book, list: &mut NodeList, graph: &Graph, version: u32, node: u32)
    requires { IsListStep graph.now book.old node list.old (step.Resolve version node) }
    ensures { MakesList graph.now book.old node list.old (step.Resolve version node) book.new list.new }
{
    let value = new_value(book, graph, version, node);
    let own = list.index_of(version);
    let changed = !is_same(value, list.value_before_at(own));
    let picks = book.found_picks(node);
    list.finish_at(own, value, changed, picks);
    book.close(version, node, changed);
    book.clear(node);
}

// The value that the call gives the node.
fn new_value(book: &Book, graph: &Graph, version: u32, node: u32) -> Value
    requires live { live_in book.now version ≡ true }
    requires node { node < node_count book.now }
    requires known { node < length graph.now.nodes }
    ensures { result ≡ new_value graph.now book.now version node }
{
    if let Node::Source { .. } = graph.node(node) {
        return book.set_value(version, node);
    }
    match graph.body(node) {
        Some(_) => value_or(book.body(node)),
        None => found_value(book, node),
    }
}

// The value that is found, or that of the one pick.
fn found_value(book: &Book, node: u32) -> Value
    requires { node < node_count book.now }
    ensures { result ≡ found_value (work_at book.now node) }
{
    match book.found(node) {
        Some(finding) => finding_value(book, node, finding),
        None => Value::Fault(Fault::NoChoice),
    }
}

fn finding_value(book: &Book, node: u32, finding: &Finding) -> Value
    requires { node < node_count book.now }
    ensures { result ≡ value_over None (gathered_value (work_at book.now node)) (found_of finding.now) }
{
    match finding {
        Finding::Gives(value) => *value,
        Finding::Selects(list) => first_pick(book, node, list),
    }
}

fn first_pick(book: &Book, node: u32, list: &FoundList) -> Value
    requires { node < node_count book.now }
    ensures { result ≡ first_pick_over (gathered_value (work_at book.now node)) (map selection_of list.now) }
{
    if list.len() == 0 {
        return Value::Fault(Fault::NoChoice);
    }
    match list.get(0) {
        Found::Candidate(candidate) => value_or(book.gathered(node, *candidate)),
        Found::Fault(fault) => Value::Fault(*fault),
    }
}

fn value_or(value: Option<Value>) -> Value
    ensures { result ≡ value_or value }
{
    match value {
        Some(value) => value,
        None => Value::Fault(Fault::NoChoice),
    }
}
