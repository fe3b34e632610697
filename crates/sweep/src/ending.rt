// A call ends.

ghost use Rattle.signal_graph.specs.Graph.{Graph};
ghost use Rattle.flow_model.specs.declared.step.Step.TheVariants as step;
ghost use Rattle.flow_state.specs.Fitting.{IsBookStep, MakesBook};

use flow_state::Book;

/// The call has finished everywhere and taken all its looks: it joins the log with its reply, and its slot is free. This
/// is the step End. It is allowed in a lawful state of some graph that has this book. Takes no memory.
pub fn end(book: &mut Book, version: u32)
    requires { (graph : Graph) × IsBookStep graph book.old (step.End version) }
    ensures { (graph : Graph) → MakesBook graph book.old (step.End version) book.new }
{
    book.end(version);
}
