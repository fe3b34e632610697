// Where a value can be read: for a node, and for a look.

ghost use Rattle.std.specs.Prelude.{◌≡◌, ◌<◌, true, Some, None, ◌&&◌, not, length};
ghost use Rattle.flow_model.specs.declared.step.Step.TheVariants as step;
ghost use Rattle.flow_model.specs.Parts.Books.{allowed_in};
ghost use Rattle.flow_state.specs.Booked.{live_in, node_count};
ghost use Rattle.step_rules.specs.Fits.{IsWhole, listed};
ghost use Rattle.std.specs.List.{list_any};
ghost use Rattle.signal_graph.specs.Graph.{is_in, inputs_of, node_at};
ghost use Rattle.signal_graph.specs.Values.{nodes_in};
ghost use Rattle.flow_model.specs.Machine.Words.{is_gathered, is_candidate, is_idle, next_look, is_some_of};
ghost use Rattle.flow_model.specs.Machine.State.{call};
ghost use Rattle.flow_model.specs.Parts.Books.{bare, asks_for_in};

use crate::fronts::{due_picks, has_room, wants_nothing};
use crate::lists::Lists;
use crate::working::{has_pick, is_among, is_candidate, is_gathered, is_read};
use flow_state::Book;
use script_tree::picks::Picks;
use signal_graph::graph::Graph;

/// Whether the step Gather is allowed: the node is due and reads the input, whose value is not gathered yet, and the call
/// has a served entry there.
pub(crate) fn may_gather<L: Lists>(
    book: &Book,
    graph: &Graph,
    lists: &mut L,
    version: u32,
    node: u32,
    input: u32,
) -> bool
    requires whole { IsWhole graph.now book.now (L.listing_of lists.old) (L.nodes lists.old) }
    requires live { live_in book.now version ≡ true }
    requires node { node < L.nodes lists.old }
    requires input { input < L.nodes lists.old }
    ensures allowed { result ≡ allowed_in graph.now book.now.book (listed (L.listing_of lists.old)) (step.Gather version node input) }
    ensures lists { L.listing_of lists.new ≡ L.listing_of lists.old }
    ensures nodes { L.nodes lists.new ≡ L.nodes lists.old }
{
    let Some(_picks) = due_picks(book, graph, lists, version, node) else {
        return false;
    };
    if !is_read(book, graph, node, input) {
        return false;
    }
    if is_gathered(book, node, input) {
        return false;
    }
    lists.served(input, version)
}

/// Whether the step Mark is allowed: the call executes, has no entry in the node's list and finds room there, and an open
/// node asks for it, or the next look is at it.
pub(crate) fn may_mark<L: Lists>(
    book: &Book,
    graph: &Graph,
    lists: &mut L,
    version: u32,
    node: u32,
) -> bool
    requires whole { IsWhole graph.now book.now (L.listing_of lists.old) (L.nodes lists.old) }
    requires live { live_in book.now version ≡ true }
    requires node { node < L.nodes lists.old }
    ensures allowed { result ≡ allowed_in graph.now book.now.book (listed (L.listing_of lists.old)) (step.Mark version node) }
    ensures lists { L.listing_of lists.new ≡ L.listing_of lists.old }
    ensures nodes { L.nodes lists.new ≡ L.nodes lists.old }
{
    if !book.executes(version) {
        return false;
    }
    let sight = lists.sight(node, version);
    if sight.has {
        return false;
    }
    if !has_room(book, sight.len) {
        return false;
    }
    if is_next_look(book, version, node) {
        return true;
    }
    is_asked_for(book, graph, lists, version, node)
}

/// Whether the step Look is allowed: nothing of the call is wanted or open, and the call has a served entry at the node of
/// its next look.
pub(crate) fn may_look<L: Lists>(book: &Book, graph: &Graph, lists: &mut L, version: u32) -> bool
    requires whole { IsWhole graph.now book.now (L.listing_of lists.old) (L.nodes lists.old) }
    requires live { live_in book.now version ≡ true }
    ensures allowed { result ≡ allowed_in graph.now book.now.book (listed (L.listing_of lists.old)) (step.Look version) }
    ensures lists { L.listing_of lists.new ≡ L.listing_of lists.old }
    ensures nodes { L.nodes lists.new ≡ L.nodes lists.old }
{
    if !is_idle(book, version) {
        return false;
    }
    match book.next_look(version) {
        Some(node) => lists.served(node, version),
        None => false,
    }
}

/// Whether the call executes and nothing of it is wanted or open.
pub(crate) fn is_idle(book: &Book, version: u32) -> bool
    requires { live_in book.now version ≡ true }
    ensures { result ≡ is_idle (bare book.now.book) version }
{
    if !book.executes(version) {
        return false;
    }
    if !wants_nothing(book, version) {
        return false;
    }
    book.first_open(version).is_none()
}

// Whether nothing of the call is wanted or open and its next look is at the node.
fn is_next_look(book: &Book, version: u32, node: u32) -> bool
    requires { live_in book.now version ≡ true }
    ensures { result ≡ (is_idle (bare book.now.book) version && is_some_of (next_look (bare book.now.book) version) node) }
{
    if !is_idle(book, version) {
        return false;
    }
    match book.next_look(version) {
        Some(next) => next == node,
        None => false,
    }
}

// Whether a node that is open for the call asks it to enter another.
fn is_asked_for<L: Lists>(
    book: &Book,
    graph: &Graph,
    lists: &mut L,
    version: u32,
    node: u32,
) -> bool
    requires whole { IsWhole graph.now book.now (L.listing_of lists.old) (L.nodes lists.old) }
    requires live { live_in book.now version ≡ true }
    requires node { node < L.nodes lists.old }
    ensures asked { result ≡ list_any (asks_for_in graph.now book.now.book (listed (L.listing_of lists.old)) version node)
        (call (bare book.now.book) version).open_nodes }
    ensures lists { L.listing_of lists.new ≡ L.listing_of lists.old }
    ensures nodes { L.nodes lists.new ≡ L.nodes lists.old }
{
    let mut from = 0;
    while let Some(asking) = book.next_open(version, from) {
        if asks_for(book, graph, lists, version, node, asking) {
            return true;
        }
        from = asking + 1;
    }
    false
}

// Whether an open node asks the call to enter another: as an input whose value is not gathered, or as a candidate that is
// found and had been picked before the call.
fn asks_for<L: Lists>(
    book: &Book,
    graph: &Graph,
    lists: &mut L,
    version: u32,
    node: u32,
    asking: u32,
) -> bool
    requires whole { IsWhole graph.now book.now (L.listing_of lists.old) (L.nodes lists.old) }
    requires live { live_in book.now version ≡ true }
    requires node { node < L.nodes lists.old }
    requires asking { asking < L.nodes lists.old }
    ensures asks { result ≡ asks_for_in graph.now book.now.book (listed (L.listing_of lists.old)) version node asking }
    ensures lists { L.listing_of lists.new ≡ L.listing_of lists.old }
    ensures nodes { L.nodes lists.new ≡ L.nodes lists.old }
{
    let Some(picks) = due_picks(book, graph, lists, version, asking) else {
        return false;
    };
    if is_missing_input(book, graph, asking, node) {
        return true;
    }
    is_picked_again(book, asking, node, &picks)
}

// Whether a node's scripts name an input whose value is not gathered.
fn is_missing_input(book: &Book, graph: &Graph, node: u32, input: u32) -> bool
    requires node { node < node_count book.now }
    requires known { node < length graph.now.nodes }
    ensures { result ≡ (is_in input (inputs_of (node_at graph.now node)) && not (is_gathered (bare book.now.book) node input)) }
{
    if !is_among(graph.inputs(node), input) {
        return false;
    }
    !is_gathered(book, node, input)
}

// Whether a candidate is found for a node and among these picks.
fn is_picked_again(book: &Book, node: u32, candidate: u32, picks: &Picks) -> bool
    requires { node < node_count book.now }
    ensures { result ≡ (is_candidate (bare book.now.book) node candidate && is_in candidate (nodes_in picks.now)) }
{
    if !is_candidate(book, node, candidate) {
        return false;
    }
    has_pick(picks, candidate)
}
