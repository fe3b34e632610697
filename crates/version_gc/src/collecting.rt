// Entries of ended calls go.

ghost use Rattle.std.specs.Prelude.{◌≡◌, ◌+◌, ℕ, length};
ghost use Rattle.signal_graph.specs.Graph.{Graph};
ghost use Rattle.flow_model.specs.declared.step.Step.TheVariants as step;
ghost use Rattle.flow_state.specs.Fitting.{IsListStep, MakesList};

use flow_state::Book;
use node_versions::NodeList;

/// Of the entries of ended calls only the last Done stays in a node's list: the step Collect. Answers how many went. It is
/// allowed in a lawful state of some graph that has this book, and this list at some node. Takes no memory.
pub fn collect(book: &Book, list: &mut NodeList) -> u32
    requires { (graph : Graph) × (n : ℕ) × IsListStep graph book.now n list.old (step.Collect n) }
    ensures step { (graph : Graph) (n : ℕ) → MakesList graph book.now n list.old (step.Collect n) book.now list.new }
    ensures gone { result + length list.new.entries ≡ length list.old.entries }
{
    list.collect(|entry| !book.live(entry.version))
}
