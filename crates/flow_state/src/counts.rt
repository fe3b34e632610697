// How many seats want each node: one count for each, with no mark of the seats.

ghost use Rattle.std.specs.Prelude.{◌≡◌, ◌<◌, ◌≤◌, ◌+◌, ◌^◌, ◌==◌, ◌&&◌, ℕ, length};
ghost use Rattle.std.specs.List.{AllByRecursion};
ghost use Rattle.signal_graph.specs.Graph.{is_in};
ghost use Rattle.flow_model.specs.Machine.Sets.{put_all};
ghost use Rattle.flow_model.specs.Machine.Steps.{nodes_set};
ghost use Rattle.node_set.specs.Members.{with_nodes, no_members};
ghost use Rattle.flow_state.specs.Booked.{AreInside};
ghost use Rattle.flow_state.specs.Seats.{one_if, count_at, Follow};

use node_set::NodeSet;
use order_graph::MAX_CALLERS;
use script_tree::value::Value;

// Whether no seat wants the node. None wants a number that no node has.
pub(crate) fn is_unwanted(counts: &[u32], node: u32) -> bool
    ensures { result ≡ (count_at counts.now node == 0) }
{
    if node as usize >= counts.len() {
        return true;
    }
    counts[node as usize] == 0
}

// Puts all nodes that are set into a set of nodes, and raises the count of each that is new.
pub(crate) fn want_all(sets: &[(u32, Value)], wanted: &mut NodeSet, counts: &mut [u32])
    requires inside { AreInside wanted.old.size sets.now }
    requires size { length counts.old ≡ wanted.old.size }
    requires few { (n : ℕ) → count_at counts.old n ≤ MAX_CALLERS }
    ensures wanted { wanted.new ≡ with_nodes wanted.old (put_all (nodes_set sets.now) wanted.old.nodes) }
    ensures size { length counts.new ≡ length counts.old }
    ensures counts { Follow counts.old wanted.old.nodes counts.new wanted.new.nodes }
{
    for (node, _) in sets {
        let is_new = wanted.insert(*node);
        raise(counts, *node, is_new);
    }
}

// Takes all nodes out of a set, and lowers the count of each. In use a call that has ended wants nothing, so that a free
// seat has nothing to take out.
pub(crate) fn want_none(wanted: &mut NodeSet, counts: &mut [u32])
    requires size { length counts.old ≡ wanted.old.size }
    requires counted { (n : ℕ) → one_if (is_in n wanted.old.nodes) ≤ count_at counts.old n }
    ensures wanted { wanted.new ≡ no_members wanted.old.size }
    ensures size { length counts.new ≡ length counts.old }
    ensures counts { Follow counts.old wanted.old.nodes counts.new wanted.new.nodes }
{
    while let Some(node) = wanted.first() {
        wanted.is_kept();
        let was_in = wanted.remove(node);
        lower(counts, node, was_in);
    }
}

// Raises the count of a node by one, where `more` says so.
pub(crate) fn raise(counts: &mut [u32], node: u32, more: bool)
    requires inside { node < length counts.old }
    requires few { count_at counts.old node + one_if more < 2 ^ 32 }
    ensures size { length counts.new ≡ length counts.old }
    ensures counts { (n : ℕ) → count_at counts.new n ≡ count_at counts.old n + one_if ((n == node) && more) }
{
    if !more {
        return;
    }
    counts[node as usize] += 1;
}

// Lowers the count of a node by one, where `fewer` says so.
pub(crate) fn lower(counts: &mut [u32], node: u32, fewer: bool)
    requires inside { node < length counts.old }
    requires some { one_if fewer ≤ count_at counts.old node }
    ensures size { length counts.new ≡ length counts.old }
    ensures counts { (n : ℕ) → count_at counts.new n + one_if ((n == node) && fewer) ≡ count_at counts.old n }
{
    if !fewer {
        return;
    }
    counts[node as usize] -= 1;
}
