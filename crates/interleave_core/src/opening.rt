// The lists of all nodes before any call.

ghost use Rattle.std.specs.Prelude.{◌≡◌, ◌<◌, ◌≤◌, ◌==◌, length, map, take, Some, IfOk};
ghost use Rattle.script_tree.specs.declared.limits.TheConstants.{THREADS};
ghost use Rattle.signal_graph.specs.Graph.{numbers, is_in};
ghost use Rattle.signal_graph.specs.Values.{nodes_in};
ghost use Rattle.interleave_core.specs.Opening.{start_list, bare_list, GainsEdges, CanGain, CanGainAll, CanGainNew, is_at, is_new_pick};

use crate::choosers::count_choosers;
use flow_model::SPARE_ENTRIES;
use node_versions::NodeList;
use script_tree::memory::OutOfMemory;
use script_tree::picks::Picks;
use signal_graph::graph::Graph;
use std::alloc::Global;

/// The list of each node before any call: the start value and picks as version 0, and an out-edge to each node that picks
/// it at the start. Takes all memory that the lists will need. Goes over the nodes twice and over all candidates once.
pub(crate) fn opening_lists(
    alloc: Global,
    graph: &Graph,
    callers: u32,
) -> Result<Vec<NodeList>, OutOfMemory>
    requires { callers ≤ THREADS }
    ensures { IfOk result (λ lists. lists.items ≡ map (start_list graph.now callers) (numbers graph.now)) }
{
    let mut lists = bare_lists(alloc, graph, callers)?;
    for node in 0..graph.len() {
        let picks = graph.start_picks(node);
        add_edges(&mut lists, node, &picks);
    }
    Ok(lists)
}

// The lists without their out-edges.
fn bare_lists(alloc: Global, graph: &Graph, callers: u32) -> Result<Vec<NodeList>, OutOfMemory>
    requires { callers ≤ THREADS }
    ensures { IfOk result (λ lists. lists.items ≡ map (bare_list graph.now callers) (numbers graph.now)) }
{
    let choosers = count_choosers(alloc, graph)?;
    let mut lists = Vec::with_capacity(alloc, graph.len() as usize)?;
    for node in 0..graph.len() {
        let list = NodeList::new(
            alloc,
            callers + SPARE_ENTRIES,
            choosers[node as usize],
            graph.start_value(node),
            graph.start_picks(node),
        )?;
        lists.push(list)?;
    }
    Ok(lists)
}

// Each node that is picked gets an out-edge to the node, since version 0: one, however often it is picked.
fn add_edges(lists: &mut Vec<NodeList>, node: u32, picks: &Picks)
    requires { CanGainAll lists.old.items node picks.now }
    ensures { GainsEdges node (λ m. is_in m (nodes_in picks.now)) lists.old.items lists.new.items }
{
    for index in 0..picks.len() {
        add_new(lists, node, picks, index);
    }
}

// The node that is picked at an index gets an out-edge, unless it is picked before it too.
fn add_new(lists: &mut Vec<NodeList>, node: u32, picks: &Picks, index: u32)
    requires index { index < length picks.now }
    requires can { CanGainNew lists.old.items node picks.now index }
    ensures { GainsEdges node (is_new_pick picks.now index) lists.old.items lists.new.items }
{
    let Some(picked) = picks.get(index) else {
        return;
    };
    if !is_picked_before(picks, index, picked) {
        add_edge(lists, node, picked);
    }
}

// Whether a node is picked before an index.
fn is_picked_before(picks: &Picks, index: u32, picked: u32) -> bool
    requires { index ≤ length picks.now }
    ensures { result ≡ is_in picked (nodes_in (take index picks.now)) }
{
    for earlier in 0..index {
        if is_node(picks.get(earlier), picked) {
            return true;
        }
    }
    false
}

fn is_node(pick: Option<u32>, node: u32) -> bool
    ensures { result ≡ is_at (Some pick) node }
{
    match pick {
        Some(picked) => picked == node,
        None => false,
    }
}

// A node gets an out-edge to another one, since version 0.
fn add_edge(lists: &mut Vec<NodeList>, node: u32, picked: u32)
    requires { CanGain lists.old.items node picked }
    ensures { GainsEdges node (λ m. picked == m) lists.old.items lists.new.items }
{
    let list = &mut lists[picked as usize];
    list.add_out(node, 0);
}
