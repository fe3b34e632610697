// A node stays as it was.

ghost use Rattle.std.specs.Prelude.{◌≡◌, ◌<◌, IsTrue, [], length};
ghost use Rattle.std.specs.Option.{IsSome};
ghost use Rattle.signal_graph.specs.Graph.{node_at, selectors_of};
ghost use Rattle.node_versions.specs.Entries.{has, before, last_done, picks_before};
ghost use Rattle.flow_model.specs.declared.step.Step.TheVariants as step;
ghost use Rattle.flow_state.specs.Fitting.{IsListStep, MakesList};

use flow_state::Book;
use node_versions::NodeList;
use script_tree::picks::Picks;
use signal_graph::graph::Graph;

/// Nothing that the node rests on was changed by the call: the node stays as it was before it, and the call has
/// finished there. This is the step Skip. It is allowed in a lawful state of the graph that has this book and, at the
/// node, this list. Takes no memory.
pub fn skip(book: &mut Book, list: &mut NodeList, graph: &Graph, version: u32, node: u32)
    requires { IsListStep graph.now book.old node list.old (step.Skip version node) }
    ensures { MakesList graph.now book.old node list.old (step.Skip version node) book.new list.new }
{
    let own = list.index_of(version);
    let value = list.value_before_at(own);
    let picks = kept_picks(list, graph, version, node);
    list.finish_at(own, value, false, picks);
    book.close(version, node, false);
}

// The node's picks before the call. Where it has no selectors it has none, and its list is not looked through for them.
fn kept_picks(list: &NodeList, graph: &Graph, version: u32, node: u32) -> Picks
    requires known { node < length graph.now.nodes }
    requires entry { IsTrue (has list.now.entries version) }
    requires done { IsSome (last_done (before list.now.entries version)) }
    requires fit { selectors_of (node_at graph.now node) ≡ [] → picks_before list.now.entries version ≡ [] }
    ensures { result ≡ picks_before list.now.entries version }
{
    if graph.selectors(node) == 0 {
        return Picks::new();
    }
    list.picks_before(version)
}
