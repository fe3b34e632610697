// Where a call can work.

ghost use Rattle.std.specs.Prelude.{◌≡◌, ◌<◌, ◌+◌, true, nat_lt};
ghost use Rattle.flow_model.specs.Machine.Words.{pressed, list_room};
ghost use Rattle.flow_model.specs.Parts.Books.{bare, has_room_for_in};
ghost use Rattle.flow_state.specs.Booked.{live_in, node_count};
ghost use Rattle.step_rules.specs.Fits.{IsWhole, listed};
ghost use Rattle.step_rules.specs.Fronts.{is_first, wants_nothing, front_picks, work_picks, due_picks};

use crate::lists::Lists;
use crate::resting::{is_touched, rests_on_open};
use flow_model::SPARE_ENTRIES;
use flow_state::Book;
use script_tree::picks::Picks;
use signal_graph::graph::Graph;

/// The node's picks before the call, where the call is at the front of the node: it executes, its Frame is the first of
/// the node's list, and it has finished at all that the node rests on.
pub(crate) fn front_picks<L: Lists>(
    book: &Book,
    graph: &Graph,
    lists: &mut L,
    version: u32,
    node: u32,
) -> Option<Picks>
    requires whole { IsWhole graph.now book.now (L.listing_of lists.old) (L.nodes lists.old) }
    requires live { live_in book.now version ≡ true }
    requires node { node < L.nodes lists.old }
    ensures picks { result ≡ front_picks graph.now book.now (L.listing_of lists.old node).entries version node }
    ensures lists { L.listing_of lists.new ≡ L.listing_of lists.old }
    ensures nodes { L.nodes lists.new ≡ L.nodes lists.old }
{
    if !is_first(book, lists, version, node) {
        return None;
    }
    let picks = lists.picks_before(node, version);
    if rests_on_open(book, graph, version, node, &picks) {
        return None;
    }
    Some(picks)
}

/// The same, where the call has nothing left to frame besides.
pub(crate) fn work_picks<L: Lists>(
    book: &Book,
    graph: &Graph,
    lists: &mut L,
    version: u32,
    node: u32,
) -> Option<Picks>
    requires whole { IsWhole graph.now book.now (L.listing_of lists.old) (L.nodes lists.old) }
    requires live { live_in book.now version ≡ true }
    requires node { node < L.nodes lists.old }
    ensures picks { result ≡ work_picks graph.now book.now (L.listing_of lists.old node).entries version node }
    ensures lists { L.listing_of lists.new ≡ L.listing_of lists.old }
    ensures nodes { L.nodes lists.new ≡ L.nodes lists.old }
{
    if !wants_nothing(book, version) {
        return None;
    }
    front_picks(book, graph, lists, version, node)
}

/// The same, where the call has changed something that the node rests on besides.
pub(crate) fn due_picks<L: Lists>(
    book: &Book,
    graph: &Graph,
    lists: &mut L,
    version: u32,
    node: u32,
) -> Option<Picks>
    requires whole { IsWhole graph.now book.now (L.listing_of lists.old) (L.nodes lists.old) }
    requires live { live_in book.now version ≡ true }
    requires node { node < L.nodes lists.old }
    ensures picks { result ≡ due_picks graph.now book.now (L.listing_of lists.old node).entries version node }
    ensures lists { L.listing_of lists.new ≡ L.listing_of lists.old }
    ensures nodes { L.nodes lists.new ≡ L.nodes lists.old }
{
    let Some(picks) = work_picks(book, graph, lists, version, node) else {
        return None;
    };
    if !is_touched(book, graph, version, node, &picks) {
        return None;
    }
    Some(picks)
}

/// Whether the call has nothing left to frame.
pub(crate) fn wants_nothing(book: &Book, version: u32) -> bool
    requires { live_in book.now version ≡ true }
    ensures { result ≡ wants_nothing book.now version }
{
    book.first_wanted(version).is_none()
}

/// Whether an executing call after this one waits for it to frame the node.
pub(crate) fn is_pressed(book: &Book, version: u32, node: u32) -> bool
    requires live { live_in book.now version ≡ true }
    requires node { node < node_count book.now }
    ensures { result ≡ pressed (bare book.now.book) version node }
{
    book.pressed(version, node)
}

/// Whether the call has an entry in the node's list, or finds room for one.
pub(crate) fn has_place<L: Lists>(book: &Book, lists: &mut L, version: u32, node: u32) -> bool
    requires { node < L.nodes lists.old }
    ensures place { result ≡ has_room_for_in book.now.book (listed (L.listing_of lists.old) node) version }
    ensures lists { L.listing_of lists.new ≡ L.listing_of lists.old }
    ensures nodes { L.nodes lists.new ≡ L.nodes lists.old }
{
    let sight = lists.sight(node, version);
    sight.has || has_room(book, sight.len)
}

/// Whether a list with so many entries has room for one more.
pub(crate) fn has_room(book: &Book, len: u32) -> bool
    ensures { result ≡ nat_lt len (list_room book.now.book.callers) }
{
    (len as u64) < book.callers() as u64 + SPARE_ENTRIES as u64
}

// Whether the call executes and its Frame is the first of the node's list.
fn is_first<L: Lists>(book: &Book, lists: &mut L, version: u32, node: u32) -> bool
    requires live { live_in book.now version ≡ true }
    requires node { node < L.nodes lists.old }
    ensures first { result ≡ is_first book.now (L.listing_of lists.old node).entries version }
    ensures lists { L.listing_of lists.new ≡ L.listing_of lists.old }
    ensures nodes { L.nodes lists.new ≡ L.nodes lists.old }
{
    if !book.executes(version) {
        return false;
    }
    match lists.first_open(node) {
        Some(first) => first == version,
        None => false,
    }
}
