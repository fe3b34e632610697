// An answer joins the book.

ghost use Rattle.signal_graph.specs.Graph.{Graph};
ghost use Rattle.flow_state.specs.Answers.{IsAnswerStep, MakesAnswer};
ghost use Rattle.flow_state.specs.Jobs.{value_answer};

use flow_state::{Answer, Book, Finding, Outcome};
use script_tree::value::Value;

/// What an evaluation found is kept for its node, and counted where it was of the node's scripts: the step Evaluate or
/// Body. It is allowed in a lawful state of some graph that has this book, in which the answer is what the step finds.
/// Takes no memory.
pub fn put(book: &mut Book, answer: Answer)
    requires { (graph : Graph) × IsAnswerStep graph book.old answer }
    ensures { (graph : Graph) → MakesAnswer graph book.old answer book.new }
{
    let Answer {
        version,
        node,
        outcome,
    } = answer;
    match outcome {
        Outcome::Value(value) => put_value(book, version, node, value),
        Outcome::Found(list) => {
            book.keep_found(node, Finding::Selects(list));
            book.count(version);
        }
        Outcome::Body(value) => book.keep_body(node, value),
    }
}

/// The same for the value that a node's script gives. Takes no memory.
pub fn put_value(book: &mut Book, version: u32, node: u32, value: Value)
    requires { (graph : Graph) × IsAnswerStep graph book.old (value_answer version node value) }
    ensures { (graph : Graph) → MakesAnswer graph book.old (value_answer version node value) book.new }
{
    book.keep_found(node, Finding::Gives(value));
    book.count(version);
}
