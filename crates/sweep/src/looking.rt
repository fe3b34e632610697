// A call looks at a node.

ghost use Rattle.std.specs.Prelude.{◌≡◌, ℕ, Some};
ghost use Rattle.signal_graph.specs.Graph.{Graph};
ghost use Rattle.flow_model.specs.declared.step.Step.TheVariants as step;
ghost use Rattle.flow_state.specs.Booked.{next_look_in};
ghost use Rattle.flow_state.specs.Fitting.{IsListStep, MakesRead};

use flow_state::Book;
use node_versions::NodeList;

/// The value of the call's next look is taken from the list of its node: the step Look. It is allowed in a lawful state
/// of some graph that has this book and this list. Takes no memory.
pub fn look(book: &mut Book, list: &NodeList, version: u32)
    requires { (graph : Graph) × (node : ℕ) × (next_look_in book.old version ≡ Some node)
        × IsListStep graph book.old node list.now (step.Look version) }
    ensures { (graph : Graph) (node : ℕ) → next_look_in book.old version ≡ Some node
        → MakesRead graph book.old node list.entry.now (step.Look version) book.new }
{
    let value = list.value_for(version);
    book.look(version, value);
}
