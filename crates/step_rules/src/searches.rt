// The first of some nodes that passes a test.

ghost use Rattle.std.specs.Prelude.{◌≡◌, ◌<◌, true, not, find, is_some};
ghost use Rattle.flow_model.specs.Machine.State.{opens};
ghost use Rattle.flow_model.specs.Machine.Words.{is_gathered};
ghost use Rattle.flow_model.specs.Parts.Books.{bare};
ghost use Rattle.flow_state.specs.Booked.{live_in, node_count};
ghost use Rattle.step_rules.specs.Points.{is_new_in, is_held_in};
ghost use Rattle.step_rules.specs.Rests.{AreBelow};

use crate::lists::Lists;
use crate::working::is_among;
use flow_state::Book;

/// The first of some nodes that is open for the call.
pub(crate) fn first_open(book: &Book, version: u32, nodes: &[u32]) -> Option<u32>
    requires live { live_in book.now version ≡ true }
    requires inside { AreBelow (node_count book.now) nodes.now }
    ensures { result ≡ find (opens (bare book.now.book) version) nodes.now }
{
    let seat = book.seat(version);
    for node in nodes {
        if seat.opens(*node) {
            return Some(*node);
        }
    }
    None
}

/// The first of some nodes whose value is not gathered for a node.
pub(crate) fn first_ungathered(book: &Book, node: u32, inputs: &[u32]) -> Option<u32>
    requires { node < node_count book.now }
    ensures { result ≡ find (λ m. not (is_gathered (bare book.now.book) node m)) inputs.now }
{
    // Values are gathered in this order, so each is looked for where it comes first.
    let mut place = 0u32;
    for input in inputs {
        if !is_gathered(book, node, place, *input) {
            return Some(*input);
        }
        place = place.saturating_add(1);
    }
    None
}

// Whether the value of an input is gathered for a node, looked for at a place first.
fn is_gathered(book: &Book, node: u32, place: u32, input: u32) -> bool
    requires { node < node_count book.now }
    ensures { result ≡ is_gathered (bare book.now.book) node input }
{
    book.gathered_near(node, place, input).is_some()
}

/// The first of the found candidates that a node did not pick before and that has no out-edge of the call to it.
pub(crate) fn first_new<L: Lists>(
    lists: &mut L,
    version: u32,
    node: u32,
    picked: &[u32],
    found: &[u32],
) -> Option<u32>
    requires { AreBelow (L.nodes lists.old) found.now }
    ensures first { result ≡ find (is_new_in (L.listing_of lists.old) version node picked.now) found.now }
    ensures lists { L.listing_of lists.new ≡ L.listing_of lists.old }
    ensures nodes { L.nodes lists.new ≡ L.nodes lists.old }
{
    for candidate in found {
        if is_new(lists, version, node, picked, *candidate) {
            return Some(*candidate);
        }
    }
    None
}

fn is_new<L: Lists>(lists: &mut L, version: u32, node: u32, picked: &[u32], candidate: u32) -> bool
    requires { candidate < L.nodes lists.old }
    ensures new { result ≡ is_new_in (L.listing_of lists.old) version node picked.now candidate }
    ensures lists { L.listing_of lists.new ≡ L.listing_of lists.old }
    ensures nodes { L.nodes lists.new ≡ L.nodes lists.old }
{
    if is_among(picked, candidate) {
        return false;
    }
    !lists.has_out(candidate, node, version)
}

/// The first of the candidates that a node picked before that is not found again and has an out-edge to it still.
pub(crate) fn first_held<L: Lists>(
    lists: &mut L,
    node: u32,
    found: &[u32],
    picked: &[u32],
) -> Option<u32>
    requires { AreBelow (L.nodes lists.old) picked.now }
    ensures first { result ≡ find (is_held_in (L.listing_of lists.old) node found.now) picked.now }
    ensures lists { L.listing_of lists.new ≡ L.listing_of lists.old }
    ensures nodes { L.nodes lists.new ≡ L.nodes lists.old }
{
    for candidate in picked {
        if is_held(lists, node, found, *candidate) {
            return Some(*candidate);
        }
    }
    None
}

fn is_held<L: Lists>(lists: &mut L, node: u32, found: &[u32], candidate: u32) -> bool
    requires { candidate < L.nodes lists.old }
    ensures held { result ≡ is_held_in (L.listing_of lists.old) node found.now candidate }
    ensures lists { L.listing_of lists.new ≡ L.listing_of lists.old }
    ensures nodes { L.nodes lists.new ≡ L.nodes lists.old }
{
    if is_among(found, candidate) {
        return false;
    }
    lists.has_node(candidate, node)
}
