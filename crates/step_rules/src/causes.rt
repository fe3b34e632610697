// Why a call can't end.

ghost use Rattle.std.specs.Prelude.{◌≡◌, true, ◌&&◌, is_none};
ghost use Rattle.signal_graph.specs.Graph.{Graph};
ghost use Rattle.flow_model.specs.declared.step.Step.TheVariants as step;
ghost use Rattle.flow_model.specs.Machine.State.{Core, executes};
ghost use Rattle.flow_model.specs.Machine.Steps.{allowed};
ghost use Rattle.flow_model.specs.Machine.Next.{why_not_ended};
ghost use Rattle.flow_model.specs.Parts.Books.{book_of};
ghost use Rattle.flow_state.specs.Booked.{live_in};
ghost use Rattle.flow_state.specs.Fitting.{IsBookOf};
ghost use Rattle.step_rules.specs.Ends.{first_unfinished};

use flow_model::Cause;
use flow_model::laws::causes_are_exact;
use flow_state::Book;

/// Why a live call can't end: its least direct predecessor, else the first node at which it has not finished, that is the
/// least wanted one, the least open one or that of the next look. There is none exactly where the step End is allowed: a
/// call that frames always has a node that it wants or one that is open, so that it lacks its Start is never all that is
/// left. Takes no memory.
pub fn why_not_ended(book: &Book, version: u32) -> Option<Cause>
    requires { live_in book.now version ≡ true }
    ensures cause { (s : Core) → book.now.book ≡ book_of s → result ≡ why_not_ended s version }
    ensures exact { (graph : Graph) (s : Core) → IsBookOf graph s book.now → allowed graph s (step.End version) ≡ is_none result }
    ensures executing { (graph : Graph) (s : Core) → book.now.book ≡ book_of s
        → allowed graph s (step.End version) ≡ (executes s version && is_none result) }
{
    causes_are_exact();
    first_cause(book, version)
}

// The first cause.
fn first_cause(book: &Book, version: u32) -> Option<Cause>
    requires { live_in book.now version ≡ true }
    ensures { (s : Core) → book.now.book ≡ book_of s → result ≡ why_not_ended s version }
{
    if let Some(before) = book.first_before(version) {
        return Some(Cause::Before(before));
    }
    let node = unfinished(book, version)?;
    Some(Cause::Unfinished { node })
}

// The first node at which a live call has not finished.
fn unfinished(book: &Book, version: u32) -> Option<u32>
    requires { live_in book.now version ≡ true }
    ensures { result ≡ first_unfinished book.now version }
{
    let seat = book.seat(version);
    if let Some(node) = seat.first_wanted() {
        return Some(node);
    }
    if let Some(node) = seat.first_open() {
        return Some(node);
    }
    seat.next_look()
}
