// Which values are others than before, and which nodes rested on such a value.

ghost use Rattle.std.specs.Prelude.{◌≡◌, [], ◌∷◌};
ghost use Rattle.std.specs.List.{list_any};
ghost use Rattle.signal_graph.specs.Graph.{inputs_of, is_source};
ghost use Rattle.signal_graph.specs.Values.{at, nodes_in, picks_of};
ghost use Rattle.signal_graph.specs.Machine.{differs};
ghost use Rattle.serial_machine.specs.Between.{is_evaluated};

use script_tree::picks::Picks;
use script_tree::value::Value;
use signal_graph::compare::is_same;
use signal_graph::evaluate::value_at;
use signal_graph::node::Node;

/// Whether a node has another value than before.
pub fn differs(before: &[Value], now: &[Value], node: u32) -> bool
    ensures { result ≡ differs before.now now.now node }
{
    !is_same(value_at(before, node), value_at(now, node))
}

fn any_differs(before: &[Value], now: &[Value], nodes: &[u32]) -> bool
    ensures { result ≡ list_any (differs before.now now.now) nodes.now }
{
    nodes.iter().any(|node| differs(before, now, *node))
}

fn is_changed(before: &[Value], now: &[Value], pick: Option<u32>) -> bool
    ensures { result ≡ list_any (differs before.now now.now) (nodes_in (pick ∷ [])) }
{
    match pick {
        Some(node) => differs(before, now, node),
        None => false,
    }
}

fn any_picked_differs(before: &[Value], now: &[Value], picks: &Picks) -> bool
    ensures { result ≡ list_any (differs before.now now.now) (nodes_in picks.now) }
{
    for index in 0..picks.len() {
        if is_changed(before, now, picks.get(index)) {
            return true;
        }
    }
    false
}

/// Whether a node, whose picks before are given, is no source and rested before on a node that has another value now.
#[tactic(auto, using(crate::proofs::Counting::any_append))]
pub fn is_evaluated(node: &Node, picks: &Picks, before: &[Value], now: &[Value]) -> bool
    requires { picks.now ≡ picks_of node.now before.now }
    ensures { result ≡ is_evaluated before.now now.now node.now }
{
    if let Node::Source { .. } = node {
        return false;
    }
    if any_differs(before, now, node.inputs()) {
        return true;
    }
    any_picked_differs(before, now, picks)
}
