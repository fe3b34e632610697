// Where a node's scripts, and its body, can be evaluated.

ghost use Rattle.std.specs.Prelude.{◌≡◌, ◌<◌, true};
ghost use Rattle.flow_model.specs.declared.step.Step.TheVariants as step;
ghost use Rattle.flow_model.specs.Parts.Books.{allowed_in};
ghost use Rattle.flow_state.specs.Booked.{live_in};
ghost use Rattle.step_rules.specs.Fits.{IsWhole, listed};

use crate::fronts::front_picks;
use crate::lists::Lists;
use crate::resting::is_touched;
use crate::working::{are_gathered, are_picks_gathered, is_found};
use flow_state::Book;
use signal_graph::graph::Graph;

/// Whether the step Evaluate is allowed: the call is at the front of the node and has changed something that it rests on,
/// the values of all inputs are gathered, and nothing is found yet.
pub(crate) fn may_evaluate<L: Lists>(
    book: &Book,
    graph: &Graph,
    lists: &mut L,
    version: u32,
    node: u32,
) -> bool
    requires whole { IsWhole graph.now book.now (L.listing_of lists.old) (L.nodes lists.old) }
    requires live { live_in book.now version ≡ true }
    requires node { node < L.nodes lists.old }
    ensures allowed { result ≡ allowed_in graph.now book.now.book (listed (L.listing_of lists.old)) (step.Evaluate version node) }
    ensures lists { L.listing_of lists.new ≡ L.listing_of lists.old }
    ensures nodes { L.nodes lists.new ≡ L.nodes lists.old }
{
    let Some(picks) = front_picks(book, graph, lists, version, node) else {
        return false;
    };
    if !is_touched(book, graph, version, node, &picks) {
        return false;
    }
    if !are_gathered(book, node, graph.inputs(node)) {
        return false;
    }
    !is_found(book, node)
}

/// Whether the step Body is allowed: the call is at the front of the node, which has a body, and has changed something that
/// it rests on, the values of all found candidates are gathered, and the body is not evaluated yet.
pub(crate) fn may_evaluate_body<L: Lists>(
    book: &Book,
    graph: &Graph,
    lists: &mut L,
    version: u32,
    node: u32,
) -> bool
    requires whole { IsWhole graph.now book.now (L.listing_of lists.old) (L.nodes lists.old) }
    requires live { live_in book.now version ≡ true }
    requires node { node < L.nodes lists.old }
    ensures allowed { result ≡ allowed_in graph.now book.now.book (listed (L.listing_of lists.old)) (step.Body version node) }
    ensures lists { L.listing_of lists.new ≡ L.listing_of lists.old }
    ensures nodes { L.nodes lists.new ≡ L.nodes lists.old }
{
    let Some(picks) = front_picks(book, graph, lists, version, node) else {
        return false;
    };
    if !is_touched(book, graph, version, node, &picks) {
        return false;
    }
    if graph.body(node).is_none() {
        return false;
    }
    if !is_found(book, node) {
        return false;
    }
    if !are_picks_gathered(book, node, &book.found_picks(node)) {
        return false;
    }
    book.body(node).is_none()
}
