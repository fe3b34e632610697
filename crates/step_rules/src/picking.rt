// Where a node can come to depend on a candidate, and where it can depend on one no more.

ghost use Rattle.std.specs.Prelude.{◌≡◌, ◌<◌, true};
ghost use Rattle.flow_model.specs.declared.step.Step.TheVariants as step;
ghost use Rattle.flow_model.specs.Parts.Books.{allowed_in};
ghost use Rattle.flow_state.specs.Booked.{live_in};
ghost use Rattle.step_rules.specs.Fits.{IsWhole, listed};

use crate::fronts::{due_picks, has_place};
use crate::lists::Lists;
use crate::working::{are_picks_gathered, has_pick, is_candidate, is_found};
use flow_state::Book;
use signal_graph::graph::Graph;

/// Whether the step Discover is allowed: the node is due and its selectors have picked the candidate, which it had not
/// picked before the call and to which it has no out-edge of this call, and the call has an entry there or finds room.
pub(crate) fn may_discover<L: Lists>(
    book: &Book,
    graph: &Graph,
    lists: &mut L,
    version: u32,
    node: u32,
    candidate: u32,
) -> bool
    requires whole { IsWhole graph.now book.now (L.listing_of lists.old) (L.nodes lists.old) }
    requires live { live_in book.now version ≡ true }
    requires node { node < L.nodes lists.old }
    requires candidate { candidate < L.nodes lists.old }
    ensures allowed { result ≡ allowed_in graph.now book.now.book (listed (L.listing_of lists.old)) (step.Discover version node candidate) }
    ensures lists { L.listing_of lists.new ≡ L.listing_of lists.old }
    ensures nodes { L.nodes lists.new ≡ L.nodes lists.old }
{
    let Some(picks) = due_picks(book, graph, lists, version, node) else {
        return false;
    };
    if !is_candidate(book, node, candidate) {
        return false;
    }
    if has_pick(&picks, candidate) {
        return false;
    }
    if lists.has_out(candidate, node, version) {
        return false;
    }
    has_place(book, lists, version, candidate)
}

/// Whether the step Drop is allowed: the node is due, the values of all found candidates are gathered, it had picked this
/// candidate before the call and its selectors have not picked it again, an out-edge is left, and the call has an entry
/// there or finds room.
pub(crate) fn may_drop<L: Lists>(
    book: &Book,
    graph: &Graph,
    lists: &mut L,
    version: u32,
    node: u32,
    candidate: u32,
) -> bool
    requires whole { IsWhole graph.now book.now (L.listing_of lists.old) (L.nodes lists.old) }
    requires live { live_in book.now version ≡ true }
    requires node { node < L.nodes lists.old }
    requires candidate { candidate < L.nodes lists.old }
    ensures allowed { result ≡ allowed_in graph.now book.now.book (listed (L.listing_of lists.old)) (step.Drop version node candidate) }
    ensures lists { L.listing_of lists.new ≡ L.listing_of lists.old }
    ensures nodes { L.nodes lists.new ≡ L.nodes lists.old }
{
    let Some(picks) = due_picks(book, graph, lists, version, node) else {
        return false;
    };
    if !is_found(book, node) {
        return false;
    }
    if !are_picks_gathered(book, node, &book.found_picks(node)) {
        return false;
    }
    if !has_pick(&picks, candidate) {
        return false;
    }
    if is_candidate(book, node, candidate) {
        return false;
    }
    if !lists.has_node(candidate, node) {
        return false;
    }
    has_place(book, lists, version, candidate)
}
