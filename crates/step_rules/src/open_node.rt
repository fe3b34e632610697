// What comes next at a node that is open for a call.

ghost use Rattle.std.specs.Prelude.{◌≡◌, ◌<◌, ◌++◌, true, false, drop, length};
ghost use Rattle.std.specs.List.{list_any};
ghost use Rattle.signal_graph.specs.Graph.{node_at, is_in, is_source, inputs_of};
ghost use Rattle.flow_model.specs.Machine.State.{opens};
ghost use Rattle.flow_model.specs.Machine.Words.{is_found, found_candidates};
ghost use Rattle.flow_model.specs.Machine.Steps.{has_body_value};
ghost use Rattle.flow_model.specs.Machine.Next.{first_of, other_than};
ghost use Rattle.flow_model.specs.Parts.Books.{bare};
ghost use Rattle.flow_state.specs.Booked.{live_in, node_count};
ghost use Rattle.step_rules.specs.Fits.{IsWhole, IsSeatOf};
ghost use Rattle.step_rules.specs.Points.{points_in, picked_in, open_given};
ghost use Rattle.step_rules.specs.Rests.{AreBelow};

use crate::entering::{entered, framing, reading, reading_candidate};
use crate::lists::Lists;
use crate::picked::{found_candidates, nodes_in};
use crate::plain_node::at_plain;
use crate::searches::{first_held, first_new, first_open, first_ungathered};
use crate::working::{has_body_value, is_choose, is_found, is_source};
use flow_model::{Cause, Step, Turn};
use flow_state::{Book, Seat};
use retrofit::to_help;
use signal_graph::graph::Graph;

/// What comes next for a call at a node that is open for it: the first of the points there that applies. Where the node
/// is `given`, the call has to have finished at all that the node rests on; at its least open node it has.
pub(crate) fn at_open_node<L: Lists>(
    book: &Book,
    seat: &Seat,
    graph: &Graph,
    lists: &mut L,
    version: u32,
    node: u32,
    given: bool,
) -> Turn
    requires whole { IsWhole graph.now book.now (L.listing_of lists.old) (L.nodes lists.old) }
    requires live { live_in book.now version ≡ true }
    requires seat { IsSeatOf book.now version seat.now }
    requires open { opens (bare book.now.book) version node ≡ true }
    ensures turn { result ≡ first_of (points_in graph.now book.now (L.listing_of lists.old) version given node) }
    ensures lists { L.listing_of lists.new ≡ L.listing_of lists.old }
    ensures nodes { L.nodes lists.new ≡ L.nodes lists.old }
{
    let first = lists.first_open(node);
    if let Some(other) = other_than(version, first) {
        return Turn::NotYet(Cause::OpenBefore {
            node,
            version: other,
        });
    }
    if is_choose(graph, node) {
        return at_choose(book, seat, graph, lists, version, node, given);
    }
    at_plain(book, seat, graph, lists, version, node, given)
}

// The points behind the first one, at a choose: what it rests on are its inputs and its picks before the call.
fn at_choose<L: Lists>(
    book: &Book,
    seat: &Seat,
    graph: &Graph,
    lists: &mut L,
    version: u32,
    node: u32,
    given: bool,
) -> Turn
    requires whole { IsWhole graph.now book.now (L.listing_of lists.old) (L.nodes lists.old) }
    requires live { live_in book.now version ≡ true }
    requires seat { IsSeatOf book.now version seat.now }
    requires open { opens (bare book.now.book) version node ≡ true }
    ensures turn { result ≡ first_of (drop 1 (points_in graph.now book.now (L.listing_of lists.old) version given node)) }
    ensures lists { L.listing_of lists.new ≡ L.listing_of lists.old }
    ensures nodes { L.nodes lists.new ≡ L.nodes lists.old }
{
    let picks = lists.picks_before(node, version);
    let picked = nodes_in(&picks);
    if let Some(input) = input_open(book, graph, version, node, picked.as_slice(), given) {
        return Turn::NotYet(Cause::InputOpen { node: input });
    }
    if let Some(later) = to_help(book, version, node) {
        return framing(book, lists, later, node);
    }
    at_front(book, seat, graph, lists, version, node, picked.as_slice())
}

// The points where no other call is in the way: a source is set, an untouched node is skipped, and else its inputs are
// gathered and its scripts evaluated.
fn at_front<L: Lists>(
    book: &Book,
    seat: &Seat,
    graph: &Graph,
    lists: &mut L,
    version: u32,
    node: u32,
    picked: &[u32],
) -> Turn
    requires whole { IsWhole graph.now book.now (L.listing_of lists.old) (L.nodes lists.old) }
    requires live { live_in book.now version ≡ true }
    requires seat { IsSeatOf book.now version seat.now }
    requires open { opens (bare book.now.book) version node ≡ true }
    requires picked { picked.now ≡ picked_in (L.listing_of lists.old) version node }
    ensures turn { result ≡ first_of (drop 3 (points_in graph.now book.now (L.listing_of lists.old) version false node)) }
    ensures lists { L.listing_of lists.new ≡ L.listing_of lists.old }
    ensures nodes { L.nodes lists.new ≡ L.nodes lists.old }
{
    if is_source(graph, node) {
        return Turn::Step(Step::Resolve { version, node });
    }
    if !is_touched(seat, graph, node, picked) {
        return Turn::Step(Step::Skip { version, node });
    }
    if let Some(input) = first_ungathered(book, node, graph.inputs(node)) {
        let step = Step::Gather {
            version,
            node,
            input,
        };
        return reading(book, lists, version, input, step);
    }
    if !is_found(book, node) {
        return Turn::Step(Step::Evaluate { version, node });
    }
    at_found(book, seat, graph, lists, version, node, picked)
}

// The points once the node's scripts are evaluated: new candidates are discovered and gathered, and a body is evaluated.
fn at_found<L: Lists>(
    book: &Book,
    seat: &Seat,
    graph: &Graph,
    lists: &mut L,
    version: u32,
    node: u32,
    picked: &[u32],
) -> Turn
    requires whole { IsWhole graph.now book.now (L.listing_of lists.old) (L.nodes lists.old) }
    requires live { live_in book.now version ≡ true }
    requires seat { IsSeatOf book.now version seat.now }
    requires open { opens (bare book.now.book) version node ≡ true }
    requires picked { picked.now ≡ picked_in (L.listing_of lists.old) version node }
    ensures turn { result ≡ first_of (drop 7 (points_in graph.now book.now (L.listing_of lists.old) version false node)) }
    ensures lists { L.listing_of lists.new ≡ L.listing_of lists.old }
    ensures nodes { L.nodes lists.new ≡ L.nodes lists.old }
{
    let found = found_candidates(book, node);
    if let Some(candidate) = first_new(lists, version, node, picked, found.as_slice()) {
        let step = Step::Discover {
            version,
            node,
            candidate,
        };
        return entered(book, lists, version, candidate, step);
    }
    if let Some(input) = first_ungathered(book, node, found.as_slice()) {
        let step = Step::Gather {
            version,
            node,
            input,
        };
        return reading_candidate(book, seat, lists, version, input, step);
    }
    if !has_body_value(book, graph, node) {
        return Turn::Step(Step::Body { version, node });
    }
    at_last(book, graph, lists, version, node, picked, found.as_slice())
}

// The last points: candidates that are found no more are dropped, and then the new value stands.
fn at_last<L: Lists>(
    book: &Book,
    graph: &Graph,
    lists: &mut L,
    version: u32,
    node: u32,
    picked: &[u32],
    found: &[u32],
) -> Turn
    requires whole { IsWhole graph.now book.now (L.listing_of lists.old) (L.nodes lists.old) }
    requires live { live_in book.now version ≡ true }
    requires open { opens (bare book.now.book) version node ≡ true }
    requires picked { picked.now ≡ picked_in (L.listing_of lists.old) version node }
    requires found { found.now ≡ found_candidates (bare book.now.book) node }
    ensures turn { result ≡ first_of (drop 10 (points_in graph.now book.now (L.listing_of lists.old) version false node)) }
    ensures lists { L.listing_of lists.new ≡ L.listing_of lists.old }
    ensures nodes { L.nodes lists.new ≡ L.nodes lists.old }
{
    let _nodes = graph.len();
    if let Some(candidate) = first_held(lists, node, found, picked) {
        let step = Step::Drop {
            version,
            node,
            candidate,
        };
        return entered(book, lists, version, candidate, step);
    }
    Turn::Step(Step::Resolve { version, node })
}

// The first Frame's call, where that is another.
fn other_than(version: u32, first: Option<u32>) -> Option<u32>
    ensures { result ≡ other_than version first }
{
    match first {
        Some(other) if other != version => Some(other),
        _ => None,
    }
}

/// The first of the nodes that a given node rests on which is open for the call.
pub(crate) fn input_open(
    book: &Book,
    graph: &Graph,
    version: u32,
    node: u32,
    picked: &[u32],
    given: bool,
) -> Option<u32>
    requires live { live_in book.now version ≡ true }
    requires node { node < length graph.now.nodes }
    requires inputs { AreBelow (node_count book.now) (inputs_of (node_at graph.now node)) }
    requires picked { AreBelow (node_count book.now) picked.now }
    ensures { result ≡ open_given graph.now book.now version node picked.now given }
{
    if !given {
        return None;
    }
    match first_open(book, version, graph.inputs(node)) {
        Some(input) => Some(input),
        None => first_open(book, version, picked),
    }
}

// Whether the call of a seat has changed something that the node rests on.
fn is_touched(seat: &Seat, graph: &Graph, node: u32, picked: &[u32]) -> bool
    requires { node < length graph.now.nodes }
    ensures { result ≡ list_any (λ n. is_in n seat.now.call.changed) (inputs_of (node_at graph.now node) ++ picked.now) }
{
    seat.any_changed(graph.inputs(node)) || seat.any_changed(picked)
}
