// A node comes to depend on a candidate.

ghost use Rattle.std.specs.Prelude.{◌≡◌};
ghost use Rattle.signal_graph.specs.Graph.{Graph};
ghost use Rattle.flow_model.specs.declared.step.Step.TheVariants as step;
ghost use Rattle.flow_state.specs.Fitting.{IsListStep};
ghost use Rattle.flow_state.specs.Joining.{MakesJoined};

use entering::ensure_mark;
use flow_state::Book;
use node_versions::NodeList;

/// The call has an entry in the candidate's list, and the candidate has an out-edge to the node: the first part of the
/// step Discover. The wanted sets of later calls are its second part. It is allowed in a lawful state of some graph that
/// has this book, and this list at the candidate. Takes no memory.
pub fn discover(
    book: &mut Book,
    candidate_list: &mut NodeList,
    version: u32,
    node: u32,
    candidate: u32,
)
    requires { (graph : Graph) × IsListStep graph book.old candidate candidate_list.old (step.Discover version node candidate) }
    ensures { (graph : Graph) → MakesJoined graph book.old candidate_list.old version node candidate book.new candidate_list.new }
{
    candidate_list.is_kept();
    ensure_mark(book, candidate_list, version, candidate);
    candidate_list.add_out(node, version);
}
