// What comes next for a call at a given node.

ghost use Rattle.std.specs.Prelude.{◌≡◌, ◌<◌, true};
ghost use Rattle.flow_model.specs.Machine.State.{Core};
ghost use Rattle.flow_model.specs.Machine.Next.{next_at};
ghost use Rattle.flow_state.specs.Booked.{live_in};
ghost use Rattle.step_rules.specs.Fits.{IsWholeOf, IsWhole};
ghost use Rattle.step_rules.specs.Points.{turn_at_in};

use crate::lists::Lists;
use crate::open_node::at_open_node;
use crate::starting::before_work;
use flow_model::{Cause, Turn};
use flow_state::Book;
use signal_graph::graph::Graph;

/// The next step of a live call at a given node, or why there is none now. Some lawful state of the graph has this book and
/// these lists. Lists are asked as they are needed, and stay as they were. Takes no memory.
pub fn next_at<L: Lists>(book: &Book, graph: &Graph, lists: &mut L, version: u32, node: u32) -> Turn
    requires whole { IsWhole graph.now book.now (L.listing_of lists.old) (L.nodes lists.old) }
    requires live { live_in book.now version ≡ true }
    requires node { node < L.nodes lists.old }
    ensures turn { (s : Core) → IsWholeOf graph.now s book.now (L.listing_of lists.old) (L.nodes lists.old)
        → result ≡ next_at graph.now s version node }
    ensures lists { L.listing_of lists.new ≡ L.listing_of lists.old }
    ensures nodes { L.nodes lists.new ≡ L.nodes lists.old }
{
    turn_at(book, graph, lists, version, node)
}

// The first point that applies.
fn turn_at<L: Lists>(book: &Book, graph: &Graph, lists: &mut L, version: u32, node: u32) -> Turn
    requires whole { IsWhole graph.now book.now (L.listing_of lists.old) (L.nodes lists.old) }
    requires live { live_in book.now version ≡ true }
    requires node { node < L.nodes lists.old }
    ensures turn { result ≡ turn_at_in graph.now book.now (L.listing_of lists.old) version node }
    ensures lists { L.listing_of lists.new ≡ L.listing_of lists.old }
    ensures nodes { L.nodes lists.new ≡ L.nodes lists.old }
{
    let seat = book.seat(version);
    if let Some(turn) = before_work(book, seat, lists, version) {
        return turn;
    }
    if !seat.opens(node) {
        return Turn::NotYet(Cause::NotOpen { node });
    }
    at_open_node(book, seat, graph, lists, version, node, true)
}
