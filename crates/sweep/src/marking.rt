// A call's Mark enters a list.

ghost use Rattle.signal_graph.specs.Graph.{Graph};
ghost use Rattle.flow_model.specs.declared.step.Step.TheVariants as step;
ghost use Rattle.flow_state.specs.Fitting.{IsListStep, MakesList};

use entering::enter;
use flow_state::Book;
use node_versions::{NodeList, State};

/// The call's Mark enters the list of a node whose value the call will read: the step Mark. It is allowed in a lawful
/// state of some graph that has this book and, at the node, this list. Takes no memory.
pub fn mark(book: &mut Book, list: &mut NodeList, version: u32, node: u32)
    requires { (graph : Graph) × IsListStep graph book.old node list.old (step.Mark version node) }
    ensures { (graph : Graph) → MakesList graph book.old node list.old (step.Mark version node) book.new list.new }
{
    list.is_kept();
    enter(book, list, version, node, State::Mark);
}
