// A node depends on a candidate no more.

ghost use Rattle.std.specs.Prelude.{◌≡◌};
ghost use Rattle.signal_graph.specs.Graph.{Graph};
ghost use Rattle.node_versions.specs.Entries.{with_outs};
ghost use Rattle.flow_model.specs.declared.step.Step.TheVariants as step;
ghost use Rattle.flow_model.specs.Machine.Changes.{remove_first};
ghost use Rattle.flow_state.specs.Fitting.{IsListStep, MakesList};
ghost use Rattle.dynamic_edges.specs.Edges.{first_since};

use entering::ensure_mark;
use flow_state::Book;
use node_versions::NodeList;

/// The node does not depend on a candidate that it picked before: the step Drop. The call has an entry in the candidate's
/// list, and the node's out-edge goes. It is allowed in a lawful state of some graph that has this book, and this list at
/// the candidate. Takes no memory.
pub fn drop_choice(
    book: &mut Book,
    old_list: &mut NodeList,
    version: u32,
    node: u32,
    candidate: u32,
)
    requires { (graph : Graph) × IsListStep graph book.old candidate old_list.old (step.Drop version node candidate) }
    ensures { (graph : Graph) → MakesList graph book.old candidate old_list.old (step.Drop version node candidate) book.new old_list.new }
{
    old_list.is_kept();
    ensure_mark(book, old_list, version, candidate);
    remove_edge(old_list, node);
}

// The first out-edge of the node goes.
fn remove_edge(list: &mut NodeList, node: u32)
    ensures { list.new ≡ with_outs list.old (remove_first node list.old.outs) }
{
    list.is_kept();
    if let Some(since) = since_of(list, node) {
        list.remove_out(node, since);
    }
}

// The since of the first out-edge of the node.
fn since_of(list: &NodeList, node: u32) -> Option<u32>
    ensures { result ≡ first_since node list.now.outs }
{
    for index in 0..list.outs_len() {
        let (chooser, since) = list.out(index);
        if chooser == node {
            return Some(since);
        }
    }
    None
}
