// For each node the chooses that select among nodes of which it is one.

ghost use Rattle.std.specs.Prelude.{◌≡◌, ℕ, ◌<◌, [], true, length, slice_index_or, IfOk, OnOk};
ghost use Rattle.signal_graph.specs.Graph.{is_in};
ghost use Rattle.serial_machine.specs.Reading.{candidates_of_all, HaveMore, AreChoosers};

use script_tree::items::Items;
use script_tree::memory::OutOfMemory;
use signal_graph::graph::Graph;
use signal_graph::node::Selector;
use std::alloc::Global;

fn empty_lists(alloc: Global, count: u32) -> Result<Vec<Items<u32>>, OutOfMemory>
    ensures { IfOk result (λ lists. length lists.items ≡ count) }
{
    let mut lists = Vec::new(alloc);
    for _ in 0..count {
        lists.push(Items::new(alloc))?;
    }
    Ok(lists)
}

// Adds a node to the list of another, unless it ends that list.
fn add_to(lists: &mut Vec<Items<u32>>, place: u32, node: u32) -> Result<(), OutOfMemory>
    ensures len { OnOk result (length lists.new.items ≡ length lists.old.items) }
    ensures kept { OnOk result (HaveMore lists.old.items lists.new.items) }
    ensures added { OnOk result (place < length lists.old.items → is_in node (slice_index_or lists.new.items place []) ≡ true) }
{
    if place as usize >= lists.len() {
        return Ok(());
    }
    let list = &mut lists[place as usize];
    list.push(node)
}

// Adds a node to the list of each of its candidates.
fn add_chooser(
    lists: &mut Vec<Items<u32>>,
    candidates: &[u32],
    node: u32,
) -> Result<(), OutOfMemory>
    ensures len { OnOk result (length lists.new.items ≡ length lists.old.items) }
    ensures kept { OnOk result (HaveMore lists.old.items lists.new.items) }
    ensures added { OnOk result ((m : ℕ) → m < length lists.old.items → is_in m candidates.now ≡ true
        → is_in node (slice_index_or lists.new.items m []) ≡ true) }
{
    for candidate in candidates {
        add_to(lists, *candidate, node)?;
    }
    Ok(())
}

#[tactic(auto, using(crate::proofs::ChooserLists::lists_next))]
fn add_selectors(
    lists: &mut Vec<Items<u32>>,
    selectors: &[Selector],
    node: u32,
) -> Result<(), OutOfMemory>
    ensures len { OnOk result (length lists.new.items ≡ length lists.old.items) }
    ensures kept { OnOk result (HaveMore lists.old.items lists.new.items) }
    ensures added { OnOk result ((m : ℕ) → m < length lists.old.items → is_in m (candidates_of_all selectors.now) ≡ true
        → is_in node (slice_index_or lists.new.items m []) ≡ true) }
{
    for selector in selectors {
        add_chooser(lists, selector.candidates.as_slice(), node)?;
    }
    Ok(())
}

/// For each node the chooses that select among nodes of which it is one. Takes memory.
pub fn choosers(alloc: Global, graph: &Graph) -> Result<Vec<Items<u32>>, OutOfMemory>
    ensures { IfOk result (λ lists. AreChoosers graph.now lists.items) }
{
    let mut lists = empty_lists(alloc, graph.len())?;
    for node in 0..graph.len() {
        add_selectors(&mut lists, graph.node(node).selectors(), node)?;
    }
    Ok(lists)
}
