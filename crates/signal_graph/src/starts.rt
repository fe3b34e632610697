// What the nodes of a graph hold and pick in the start state.

ghost use Rattle.std.specs.Prelude.{◌≡◌, map, All, IfOk};
ghost use Rattle.signal_graph.specs.Values.{values, start, picks_of};
ghost use Rattle.signal_graph.specs.Evaluation.{CanEvaluate};
ghost use Rattle.signal_graph.specs.Kept.{unnamed};

use crate::node::Node;
use script_tree::memory::OutOfMemory;
use script_tree::picks::Picks;
use script_tree::value::Value;
use std::alloc::Global;

/// The values of all nodes in the start state. Takes memory.
pub(crate) fn start_values(alloc: Global, nodes: &[Node]) -> Result<Vec<Value>, OutOfMemory>
    requires { All CanEvaluate nodes.now }
    ensures { IfOk result (λ starts. starts.items ≡ values (unnamed nodes.now) (start (unnamed nodes.now))) }
{
    let mut starts = Vec::new(alloc);
    for node in nodes {
        let found = node.evaluate(node.start_value(), starts.as_slice());
        starts.push(found.value)?;
    }
    Ok(starts)
}

/// What each node picks over the values of all nodes. Takes memory.
pub(crate) fn all_picks(
    alloc: Global,
    nodes: &[Node],
    values: &[Value],
) -> Result<Vec<Picks>, OutOfMemory>
    requires { All CanEvaluate nodes.now }
    ensures { IfOk result (λ picked. picked.items ≡ map (λ node. picks_of node values.now) nodes.now) }
{
    let mut picked = Vec::new(alloc);
    for node in nodes {
        picked.push(node.picks(values))?;
    }
    Ok(picked)
}
