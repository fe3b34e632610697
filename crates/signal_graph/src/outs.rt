// For each node the nodes whose scripts name it.

ghost use Rattle.std.specs.Prelude.{◌≡◌, ℕ, ◌<◌, ◌≤◌, [], ◌∷◌, ◌++◌, if◌then◌else◌, length, slice_index_or, vec_len, All, IfOk, OnOk};
ghost use Rattle.signal_graph.specs.Graph.{is_in, static_outs};
ghost use Rattle.signal_graph.specs.Kept.{NamesEarlier, unnamed, ends_with};

use crate::node::Node;
use script_tree::items::Items;
use script_tree::limits::NODES;
use script_tree::memory::OutOfMemory;
use std::alloc::Global;

fn empty_lists(alloc: Global, count: usize) -> Result<Vec<Items<u32>>, OutOfMemory>
    ensures len { IfOk result (λ lists. vec_len lists ≡ count) }
    ensures empty { IfOk result (λ lists. (m : ℕ) → slice_index_or lists.items m [] ≡ []) }
{
    let mut lists = Vec::new(alloc);
    for _ in 0..count {
        lists.push(Items::new(alloc))?;
    }
    Ok(lists)
}

// A script may name a node twice, and then the second time the list ends with the number that is to be added.
fn add_once(list: &mut Items<u32>, node: u32) -> Result<(), OutOfMemory>
    ensures { OnOk result (list.new ≡ (if ends_with list.old node then list.old else list.old ++ node ∷ [])) }
{
    if let Some(last) = list.as_slice().last() {
        if *last == node {
            return Ok(());
        }
    }
    list.push(node)
}

fn add_outs(lists: &mut Vec<Items<u32>>, inputs: &[u32], node: u32) -> Result<(), OutOfMemory>
    requires known { All (λ m. m < vec_len lists.old) inputs.now }
    requires below { (m : ℕ) → m < vec_len lists.old → All (λ n. n < node) (slice_index_or lists.old.items m []) }
    ensures len { OnOk result (vec_len lists.new ≡ vec_len lists.old) }
    ensures added { OnOk result ((m : ℕ) → m < vec_len lists.old
        → slice_index_or lists.new.items m [] ≡ slice_index_or lists.old.items m [] ++ (if is_in m inputs.now then node ∷ [] else [])) }
{
    for input in inputs {
        add_once(&mut lists[*input as usize], node)?;
    }
    Ok(())
}

/// For each node of a graph the nodes whose scripts name it, ascending. Takes memory.
pub(crate) fn static_outs(alloc: Global, nodes: &[Node]) -> Result<Vec<Items<u32>>, OutOfMemory>
    requires earlier { NamesEarlier nodes.now }
    requires few { length nodes.now ≤ NODES }
    ensures len { IfOk result (λ lists. vec_len lists ≡ length nodes.now) }
    ensures outs { IfOk result (λ lists. (m : ℕ) → m < length nodes.now
        → slice_index_or lists.items m [] ≡ static_outs (unnamed nodes.now) m) }
{
    let mut lists = empty_lists(alloc, nodes.len())?;
    for (number, node) in nodes.iter().enumerate() {
        add_outs(&mut lists, node.inputs(), number as u32)?;
    }
    Ok(lists)
}
