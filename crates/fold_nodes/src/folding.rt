// A fold's value before a call, and its new one.

ghost use Rattle.std.specs.Prelude.{◌≡◌, ◌<◌, IsTrue};
ghost use Rattle.std.specs.Option.{IsSome};
ghost use Rattle.signal_graph.specs.Graph.{Graph, kind_of, node_at};
ghost use Rattle.signal_graph.specs.declared.node.NodeKind.TheVariants as kinds;
ghost use Rattle.node_versions.specs.Entries.{has, before, last_done, value_before};
ghost use Rattle.flow_model.specs.declared.step.Step.TheVariants as step;
ghost use Rattle.flow_state.specs.Booked.{node_count, work_at};
ghost use Rattle.flow_state.specs.Found.{found_of};
ghost use Rattle.flow_state.specs.Fitting.{IsListStep, MakesList};
ghost use Rattle.fold_nodes.specs.Given.{given_value, value_given};

use flow_state::{Book, Finding};
use node_versions::NodeList;
use script_tree::picks::Picks;
use script_tree::value::{Fault, Value};
use signal_graph::compare::is_same;

/// What a fold's script reads as `acc` for the call: the node's value before it. Takes no memory.
pub fn fold_acc(list: &NodeList, version: u32) -> Value
    requires entry { IsTrue (has list.now.entries version) }
    requires done { IsSome (last_done (before list.now.entries version)) }
    ensures { result ≡ value_before list.entry.now.entries version }
{
    list.value_before(version)
}

/// The value that was found for a fold stands, and the call has finished there: the step Resolve. It is allowed in a
/// lawful state of some graph that has this book and, at the node, which is a fold, this list. Takes no memory.
pub fn resolve_fold(book: &mut Book, list: &mut NodeList, version: u32, node: u32)
    requires { (graph : Graph) × (kind_of (node_at graph node) ≡ kinds.Fold)
        × IsListStep graph book.old node list.old (step.Resolve version node) }
    ensures { (graph : Graph) → kind_of (node_at graph node) ≡ kinds.Fold
        → MakesList graph book.old node list.old (step.Resolve version node) book.new list.new }
{
    let value = given_value(book, node);
    let own = list.index_of(version);
    let same = is_same(value, list.value_before_at(own));
    list.finish_at(own, value, !same, Picks::new());
    book.close(version, node, !same);
    book.clear(node);
}

// The value that is found.
fn given_value(book: &Book, node: u32) -> Value
    requires { node < node_count book.now }
    ensures { result ≡ given_value (work_at book.now node).found }
{
    match book.found(node) {
        Some(finding) => value_of(finding),
        None => Value::Fault(Fault::NoChoice),
    }
}

fn value_of(finding: &Finding) -> Value
    ensures { result ≡ value_given (found_of finding.now) }
{
    match finding {
        Finding::Gives(value) => *value,
        Finding::Selects(_) => Value::Fault(Fault::NoChoice),
    }
}
