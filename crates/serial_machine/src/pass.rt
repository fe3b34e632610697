// All values after a fire, in one pass over the nodes.

ghost use Rattle.std.specs.Prelude.{◌≡◌, ℕ, ◌+◌, ◌<◌, ◌^◌, [], true, false, length, take, slice_set, slice_index_or};
ghost use Rattle.script_tree.specs.declared.value.Value.{Value};
ghost use Rattle.signal_graph.specs.Graph.{IsGraph, node_at, is_in};
ghost use Rattle.signal_graph.specs.Values.{Values, at, values, run, node_value, picks_of};
ghost use Rattle.signal_graph.specs.Machine.{differs};
ghost use Rattle.signal_graph.specs.Evaluation.{CanEvaluate};
ghost use Rattle.signal_graph.specs.OnePass.{new_value, new_from};
ghost use Rattle.serial_machine.specs.State.{ArePicks};
ghost use Rattle.serial_machine.specs.Marking.{is_marked, AreMore};
ghost use Rattle.serial_machine.specs.Reading.{reads, AreChoosers};
ghost use Rattle.serial_machine.specs.Between.{one_if, is_evaluated, count_changed, count_evaluated};

use crate::compare::{differs, is_evaluated};
use crate::marks::Marks;
use script_tree::items::Items;
use script_tree::picks::Picks;
use script_tree::value::Value;
use signal_graph::evaluate::{Evaluated, run, value_at};
use signal_graph::graph::Graph;
use signal_graph::node::Node;

/// What a fire did to the nodes.
#[derive(Clone, Copy)]
pub struct Counts {
    /// How many have another value than before.
    pub changed: u32,
    /// How many that are no source rested before on a node that has another value.
    pub evaluated: u32,
}

/// A count, with one more where a test holds.
fn counted(count: u32, test: bool) -> u32
    requires { count + 1 < 2 ^ 32 }
    ensures { result ≡ count + one_if test }
{
    if test { count + 1 } else { count }
}

/// What a node gives where it is evaluated, from its value before. A fold makes a step then.
#[tactic(auto, using(crate::proofs::OnePass::fold_value))]
fn step(node: &Node, old: Value, earlier: &[Value]) -> Evaluated
    requires { CanEvaluate node.now }
    ensures value { (before : Values) (set : Value) → is_evaluated before earlier.now node.now ≡ true
        → result.value ≡ new_value node.now set old before earlier.now }
    ensures picks { result.picks ≡ picks_of node.now earlier.now }
{
    match node {
        Node::Fold { script, inputs, .. } => {
            Evaluated::without_picks(run(script, inputs.as_slice(), earlier, old))
        }
        Node::Source { .. } => node.evaluate(old, earlier),
        Node::Signal { .. } => node.evaluate(old, earlier),
        Node::Choose { .. } => node.evaluate(old, earlier),
    }
}

/// Gives a node its value and picks after a fire, where the nodes before it have theirs and a source has what is set,
/// and answers whether it was evaluated. A node that rests on nothing that changed keeps its value and picks.
fn renew(
    graph: &Graph,
    number: u32,
    before: &[Value],
    now: &mut Vec<Value>,
    picks: &mut Vec<Picks>,
) -> bool
    requires graph { IsGraph graph.now }
    requires known { number < length graph.now.nodes }
    requires has_value { length now.old.items ≡ length graph.now.nodes }
    requires has_picks { length picks.old.items ≡ length graph.now.nodes }
    requires follow { values graph.now before.now ≡ before.now }
    requires picked { slice_index_or picks.old.items number [] ≡ picks_of (node_at graph.now number) before.now }
    ensures evaluated { result ≡ is_evaluated before.now (take number now.old.items) (node_at graph.now number) }
    ensures value { now.new.items ≡ slice_set now.old.items number
        (new_value (node_at graph.now number) (at now.old.items number) (at before.now number) before.now (take number now.old.items)) }
    ensures picks { picks.new.items ≡ slice_set picks.old.items number (picks_of (node_at graph.now number) (take number now.old.items)) }
{
    let node = graph.node(number);
    let place = number as usize;
    if let Node::Source { .. } = node {
        return false;
    }
    let earlier = &now[..place];
    if !is_evaluated(node, &picks[place], before, earlier) {
        now[place] = value_at(before, number);
        return false;
    }
    let found = step(node, value_at(before, number), earlier);
    now[place] = found.value;
    picks[place] = found.picks;
    true
}

// Marks all nodes that can rest on one, where its value is another than before.
#[tactic(auto, using(crate::proofs::ChooserLists::told))]
fn tell(graph: &Graph, choosers: &[Items<u32>], number: u32, moved: bool, marks: &mut Marks)
    requires known { number < length graph.now.nodes }
    requires choosers { AreChoosers graph.now choosers.now }
    requires size { length marks.old ≡ length graph.now.nodes }
    ensures size { length marks.new ≡ length marks.old }
    ensures more { AreMore marks.old marks.new }
    ensures told { moved ≡ true → (n : ℕ) → n < length graph.now.nodes → reads (node_at graph.now n) number ≡ true
        → is_marked marks.new n ≡ true }
{
    if moved {
        add_all(graph.static_outs(number), marks);
        add_all(choosers[number as usize].as_slice(), marks);
    }
}

fn add_all(nodes: &[u32], marks: &mut Marks)
    ensures size { length marks.new ≡ length marks.old }
    ensures more { AreMore marks.old marks.new }
    ensures added { (n : ℕ) → n < length marks.old → is_in n nodes.now ≡ true → is_marked marks.new n ≡ true }
{
    for node in nodes {
        marks.add(*node);
    }
}

/// Brings the values of all nodes and their picks from before a fire, where `now` has what is set, to after it, and
/// counts what the fire did. It goes from marked node to marked node, of which each one that has another value marks the
/// nodes that can rest on it: at first those are marked that are set. When the pass comes to a node, all nodes that it
/// rests on have their new values. Each node is evaluated at most once. Takes no memory.
pub fn renew_all(
    graph: &Graph,
    choosers: &[Items<u32>],
    before: &[Value],
    now: &mut Vec<Value>,
    picks: &mut Vec<Picks>,
    marks: &mut Marks,
) -> Counts
    requires follow { values graph.now before.now ≡ before.now }
    requires fits { length now.old.items ≡ length graph.now.nodes }
    requires picked { ArePicks graph.now before.now picks.old.items }
    requires choosers { AreChoosers graph.now choosers.now }
    requires size { length marks.old ≡ length graph.now.nodes }
    requires set { (n : ℕ) → is_marked marks.old n ≡ false → at now.old.items n ≡ at before.now n }
    ensures fits { length now.new.items ≡ length graph.now.nodes }
    ensures values { now.new.items ≡ new_from before.now now.old.items [] graph.now.nodes }
    ensures picked { ArePicks graph.now now.new.items picks.new.items }
    ensures changed { result.changed ≡ count_changed graph.now before.now now.new.items }
    ensures evaluated { result.evaluated ≡ count_evaluated graph.now before.now now.new.items }
    ensures size { length marks.new ≡ length marks.old }
    ensures agree { (n : ℕ) → is_marked marks.new n ≡ false → at before.now n ≡ at now.new.items n }
{
    let mut changed = 0;
    let mut evaluated = 0;
    let mut from = 0;
    for _ in 0..graph.len() {
        let Some(number) = marks.next_from(from) else {
            return Counts { changed, evaluated };
        };
        let touched = renew(graph, number, before, now, picks);
        let moved = differs(before, now.as_slice(), number);
        tell(graph, choosers, number, moved, marks);
        changed = counted(changed, moved);
        evaluated = counted(evaluated, touched);
        from = number + 1;
    }
    Counts { changed, evaluated }
}
