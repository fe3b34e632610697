// Where the last values of a report are others than those that are due.

ghost use Rattle.std.specs.Prelude.{◌≡◌, ◌↔◌, ◌<◌, length, IsTrue, IfSome, IfNone};
ghost use Rattle.std.specs.List.{zip};
ghost use Rattle.signal_graph.specs.Graph.{name_at};
ghost use Rattle.signal_graph.specs.Values.{at};
ghost use Rattle.report_check.specs.Differing.{DifferFirst};

use crate::same::same_value;
use script_tree::name::Name;
use script_tree::value::Value;
use signal_graph::evaluate::value_at;
use signal_graph::graph::Graph;

// Whether a last value is that of a node.
fn is_last(graph: &Graph, values: &[Value], node: u32, last: &(Name, Value)) -> bool
    requires { node < length graph.now.nodes }
    ensures { IsTrue result ↔ ((name_at graph.now node, at values.now node) ≡ last.now) }
{
    graph.name(node).same(&last.0) && same_value(value_at(values, node), last.1)
}

/// The first place at which last values are others than those of all nodes, if there is one.
pub fn first_other_final(graph: &Graph, values: &[Value], given: &[(Name, Value)]) -> Option<usize>
    requires { length values.now ≡ length graph.now.nodes }
    ensures some { IfSome result (λ place. DifferFirst (zip graph.now.names values.now) given.now place) }
    ensures none { IfNone result (zip graph.now.names values.now ≡ given.now) }
{
    let len = graph.len();
    for node in 0..len {
        let place = node as usize;
        if place >= given.len() {
            return Some(place);
        }
        if !is_last(graph, values, node, &given[place]) {
            return Some(place);
        }
    }
    if (len as usize) < given.len() {
        return Some(len as usize);
    }
    None
}
