// What comes next for a call.

ghost use Rattle.std.specs.Prelude.{◌≡◌, true};
ghost use Rattle.flow_model.specs.Machine.State.{Core};
ghost use Rattle.flow_model.specs.Machine.Next.{next};
ghost use Rattle.flow_state.specs.Booked.{live_in};
ghost use Rattle.step_rules.specs.Fits.{IsWholeOf, IsWhole};
ghost use Rattle.step_rules.specs.Points.{turn_in};

use crate::entering::reading;
use crate::lists::Lists;
use crate::open_node::at_open_node;
use crate::starting::before_work;
use flow_model::{Step, Turn};
use flow_state::Book;
use signal_graph::graph::Graph;

/// The next step of a live call, at its least open node, or why there is none now. Some lawful state of the graph has this
/// book and these lists. Lists are asked as they are needed, and stay as they were. Takes no memory.
pub fn next<L: Lists>(book: &Book, graph: &Graph, lists: &mut L, version: u32) -> Turn
    requires whole { IsWhole graph.now book.now (L.listing_of lists.old) (L.nodes lists.old) }
    requires live { live_in book.now version ≡ true }
    ensures turn { (s : Core) → IsWholeOf graph.now s book.now (L.listing_of lists.old) (L.nodes lists.old)
        → result ≡ next graph.now s version }
    ensures lists { L.listing_of lists.new ≡ L.listing_of lists.old }
    ensures nodes { L.nodes lists.new ≡ L.nodes lists.old }
{
    turn_of(book, graph, lists, version)
}

// The first point that applies.
fn turn_of<L: Lists>(book: &Book, graph: &Graph, lists: &mut L, version: u32) -> Turn
    requires whole { IsWhole graph.now book.now (L.listing_of lists.old) (L.nodes lists.old) }
    requires live { live_in book.now version ≡ true }
    ensures turn { result ≡ turn_in graph.now book.now (L.listing_of lists.old) version }
    ensures lists { L.listing_of lists.new ≡ L.listing_of lists.old }
    ensures nodes { L.nodes lists.new ≡ L.nodes lists.old }
{
    let seat = book.seat(version);
    if let Some(turn) = before_work(book, seat, lists, version) {
        return turn;
    }
    if let Some(node) = seat.first_open() {
        return at_open_node(book, seat, graph, lists, version, node, false);
    }
    if let Some(node) = seat.next_look() {
        return reading(book, lists, version, node, Step::Look { version });
    }
    Turn::Ready
}
