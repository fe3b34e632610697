// The value of an input is gathered.

ghost use Rattle.signal_graph.specs.Graph.{Graph};
ghost use Rattle.flow_model.specs.declared.step.Step.TheVariants as step;
ghost use Rattle.flow_state.specs.Fitting.{IsListStep, MakesRead};

use flow_state::Book;
use node_versions::NodeList;

/// The call's value of an input, or of a candidate that was found, is kept for the node: the step Gather. It is allowed
/// in a lawful state of some graph that has this book and, at the input, this list. Takes no memory.
pub fn gather(book: &mut Book, input_list: &NodeList, version: u32, node: u32, input: u32)
    requires { (graph : Graph) × IsListStep graph book.old input input_list.now (step.Gather version node input) }
    ensures { (graph : Graph) → MakesRead graph book.old input input_list.entry.now (step.Gather version node input) book.new }
{
    let value = input_list.value_for(version);
    book.gather(node, input, value);
}
