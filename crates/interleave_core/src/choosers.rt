// How many nodes list each node as a candidate.

ghost use Rattle.std.specs.Prelude.{◌≡◌, ◌<◌, ◌≤◌, ◌==◌, ◌+◌, length, map, IfOk};
ghost use Rattle.std.specs.List.{AllByRecursion};
ghost use Rattle.script_tree.specs.declared.limits.TheConstants.{NODES};
ghost use Rattle.signal_graph.specs.Graph.{is_in, node_at, numbers, selectors_of};
ghost use Rattle.flow_model.specs.Kept.Lawful.{lists_candidate};
ghost use Rattle.flow_state.specs.Fitting.{choosers};
ghost use Rattle.interleave_core.specs.Choosers.{Tells, IsUpTo};

use script_tree::memory::OutOfMemory;
use signal_graph::graph::Graph;
use std::alloc::Global;

// For each node, how many nodes list it, and one more than the last of these.
#[derive(Drop)]
struct Tally {
    counts: Vec<u32>,
    marks: Vec<u32>,
}

/// For each node, how many nodes list it as a candidate: so many out-edges can stand at it. Takes memory. Goes over all
/// candidates once.
pub(crate) fn count_choosers(alloc: Global, graph: &Graph) -> Result<Vec<u32>, OutOfMemory>
    ensures { IfOk result (λ counts. counts.items ≡ map (choosers graph.now) (numbers graph.now)) }
{
    let len = graph.len();
    let mut tally = Tally {
        counts: vec![in alloc; 0; len as usize]?,
        marks: vec![in alloc; 0; len as usize]?,
    };
    for node in 0..len {
        tally.count_node(graph, node);
    }
    Ok(tally.counts)
}

impl Tally {
    // Counts a node at all nodes that it lists.
    fn count_node(&mut self, graph: &Graph, node: u32)
        requires few { node < NODES }
        requires node { node < length graph.now.nodes }
        requires counts { length self.old.counts.items ≡ length graph.now.nodes }
        requires marks { length self.old.marks.items ≡ length graph.now.nodes }
        requires up_to { IsUpTo node self.old.counts.items self.old.marks.items }
        ensures up_to { IsUpTo (node + 1) self.new.counts.items self.new.marks.items }
        ensures tells { Tells node (λ m. lists_candidate m (selectors_of (node_at graph.now node)))
            self.old.counts.items self.old.marks.items self.new.counts.items self.new.marks.items }
    {
        for selector in graph.node(node).selectors() {
            self.count_all(node, selector.candidates.as_slice());
        }
    }

    // Counts a node at all these nodes, but for those where it counts already.
    fn count_all(&mut self, node: u32, candidates: &[u32])
        requires few { node < NODES }
        requires counts { AllByRecursion (λ m. m < length self.old.counts.items) candidates.now }
        requires marks { length self.old.marks.items ≡ length self.old.counts.items }
        requires up_to { IsUpTo (node + 1) self.old.counts.items self.old.marks.items }
        ensures up_to { IsUpTo (node + 1) self.new.counts.items self.new.marks.items }
        ensures tells { Tells node (λ m. is_in m candidates.now)
            self.old.counts.items self.old.marks.items self.new.counts.items self.new.marks.items }
    {
        for candidate in candidates {
            self.count_one(node, *candidate);
        }
    }

    // Counts a node at another one, unless it counts there already.
    fn count_one(&mut self, node: u32, candidate: u32)
        requires few { node < NODES }
        requires counts { candidate < length self.old.counts.items }
        requires marks { length self.old.marks.items ≡ length self.old.counts.items }
        requires up_to { IsUpTo (node + 1) self.old.counts.items self.old.marks.items }
        ensures up_to { IsUpTo (node + 1) self.new.counts.items self.new.marks.items }
        ensures tells { Tells node (λ m. candidate == m)
            self.old.counts.items self.old.marks.items self.new.counts.items self.new.marks.items }
    {
        let place = candidate as usize;
        let mark = node + 1;
        if self.marks[place] != mark {
            self.marks[place] = mark;
            self.counts[place] += 1;
        }
    }
}
