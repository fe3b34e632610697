// What comes next for a call that has nodes to frame, or has not started.

ghost use Rattle.std.specs.Prelude.{◌≡◌, true};
ghost use Rattle.signal_graph.specs.Graph.{Graph};
ghost use Rattle.flow_state.specs.Booked.{live_in};
ghost use Rattle.step_rules.specs.Fits.{IsWhole, IsSeatOf};
ghost use Rattle.step_rules.specs.Points.{first_points, first_point, starting_in};

use crate::entering::framing;
use crate::lists::Lists;
use flow_model::{Cause, Step, Turn};
use flow_state::{Book, Seat};

/// What comes next before a call works at nodes, by its seat: it frames its least wanted node, and then starts. None where
/// it executes with nothing left to frame.
pub(crate) fn before_work<L: Lists>(
    book: &Book,
    seat: &Seat,
    lists: &mut L,
    version: u32,
) -> Option<Turn>
    requires whole { (graph : Graph) × IsWhole graph book.now (L.listing_of lists.old) (L.nodes lists.old) }
    requires live { live_in book.now version ≡ true }
    requires seat { IsSeatOf book.now version seat.now }
    ensures turn { (graph : Graph) → result ≡ first_point (first_points graph book.now (L.listing_of lists.old) version) }
    ensures lists { L.listing_of lists.new ≡ L.listing_of lists.old }
    ensures nodes { L.nodes lists.new ≡ L.nodes lists.old }
{
    if let Some(node) = seat.first_wanted() {
        return Some(framing(book, lists, version, node));
    }
    if seat.executing() {
        return None;
    }
    Some(starting(book, version))
}

// A call starts, but after its direct predecessors.
fn starting(book: &Book, version: u32) -> Turn
    requires { live_in book.now version ≡ true }
    ensures { result ≡ starting_in book.now version }
{
    match book.first_framing_before(version) {
        Some(before) => Turn::NotYet(Cause::FramingBefore(before)),
        None => Turn::Step(Step::Start { version }),
    }
}
