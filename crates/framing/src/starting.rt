// A call starts.

ghost use Rattle.signal_graph.specs.Graph.{Graph};
ghost use Rattle.flow_model.specs.declared.step.Step.TheVariants as step;
ghost use Rattle.flow_state.specs.Fitting.{IsBookStep, MakesBook};

use flow_state::Book;

/// The call has framed all that it reaches and executes from now on: the step Start. It is allowed in a lawful state of
/// some graph that has this book. Takes no memory.
pub fn start(book: &mut Book, version: u32)
    requires { (graph : Graph) × IsBookStep graph book.old (step.Start version) }
    ensures { (graph : Graph) → MakesBook graph book.old (step.Start version) book.new }
{
    book.start(version);
}
