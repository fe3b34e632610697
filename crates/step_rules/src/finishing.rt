// Where a node can be finished.

ghost use Rattle.std.specs.Prelude.{◌≡◌, ◌<◌, true, ◌∷◌, []};
ghost use Rattle.std.specs.List.{list_all};
ghost use Rattle.signal_graph.specs.Values.{nodes_in};
ghost use Rattle.node_versions.specs.Entries.{picks_before};
ghost use Rattle.flow_model.specs.declared.step.Step.TheVariants as step;
ghost use Rattle.flow_model.specs.Parts.Books.{allowed_in, is_worked_out_in};
ghost use Rattle.flow_state.specs.Booked.{live_in};
ghost use Rattle.step_rules.specs.Edges.{is_discovered_by, is_released_by};
ghost use Rattle.step_rules.specs.Fits.{IsWhole, listed};
ghost use Rattle.step_rules.specs.Rests.{AreBelow};

use crate::fronts::{is_pressed, work_picks};
use crate::lists::Lists;
use crate::resting::is_touched;
use crate::working::{are_picks_gathered, has_body_value, has_pick, is_found, is_source};
use flow_state::Book;
use script_tree::picks::Picks;
use signal_graph::graph::Graph;

/// Whether the step Skip is allowed: the call can work at the node, which is no source, it has changed nothing that the
/// node rests on, and no later call waits for it to frame the node.
pub(crate) fn may_skip<L: Lists>(
    book: &Book,
    graph: &Graph,
    lists: &mut L,
    version: u32,
    node: u32,
) -> bool
    requires whole { IsWhole graph.now book.now (L.listing_of lists.old) (L.nodes lists.old) }
    requires live { live_in book.now version ≡ true }
    requires node { node < L.nodes lists.old }
    ensures allowed { result ≡ allowed_in graph.now book.now.book (listed (L.listing_of lists.old)) (step.Skip version node) }
    ensures lists { L.listing_of lists.new ≡ L.listing_of lists.old }
    ensures nodes { L.nodes lists.new ≡ L.nodes lists.old }
{
    let Some(picks) = work_picks(book, graph, lists, version, node) else {
        return false;
    };
    if is_source(graph, node) {
        return false;
    }
    if is_touched(book, graph, version, node, &picks) {
        return false;
    }
    !is_pressed(book, version, node)
}

/// Whether the step Resolve is allowed: the call can work at the node, no later call waits for it to frame the node, and
/// the node is a source, or due and all that its new value takes is there.
pub(crate) fn may_resolve<L: Lists>(
    book: &Book,
    graph: &Graph,
    lists: &mut L,
    version: u32,
    node: u32,
) -> bool
    requires whole { IsWhole graph.now book.now (L.listing_of lists.old) (L.nodes lists.old) }
    requires live { live_in book.now version ≡ true }
    requires node { node < L.nodes lists.old }
    ensures allowed { result ≡ allowed_in graph.now book.now.book (listed (L.listing_of lists.old)) (step.Resolve version node) }
    ensures lists { L.listing_of lists.new ≡ L.listing_of lists.old }
    ensures nodes { L.nodes lists.new ≡ L.nodes lists.old }
{
    let Some(picks) = work_picks(book, graph, lists, version, node) else {
        return false;
    };
    if is_pressed(book, version, node) {
        return false;
    }
    if is_source(graph, node) {
        return true;
    }
    if !is_touched(book, graph, version, node, &picks) {
        return false;
    }
    is_worked_out(book, graph, lists, version, node, &picks)
}

// Whether all that the node's new value takes is there: it is evaluated, the values of all found candidates are gathered,
// these are discovered and the others of the picks before released, and a body is evaluated.
fn is_worked_out<L: Lists>(
    book: &Book,
    graph: &Graph,
    lists: &mut L,
    version: u32,
    node: u32,
    picks: &Picks,
) -> bool
    requires whole { IsWhole graph.now book.now (L.listing_of lists.old) (L.nodes lists.old) }
    requires live { live_in book.now version ≡ true }
    requires node { node < L.nodes lists.old }
    requires picks { picks.now ≡ picks_before (L.listing_of lists.old node).entries version }
    ensures worked_out { result ≡ is_worked_out_in graph.now book.now.book (listed (L.listing_of lists.old)) version node }
    ensures lists { L.listing_of lists.new ≡ L.listing_of lists.old }
    ensures nodes { L.nodes lists.new ≡ L.nodes lists.old }
{
    if !is_found(book, node) {
        return false;
    }
    let found = book.found_picks(node);
    if !are_picks_gathered(book, node, &found) {
        return false;
    }
    if !are_discovered(lists, version, node, &found, picks) {
        return false;
    }
    if !are_released(lists, node, &found, picks) {
        return false;
    }
    has_body_value(book, graph, node)
}

// Whether each found candidate was picked before the call or has the node's out-edge of this call.
fn are_discovered<L: Lists>(
    lists: &mut L,
    version: u32,
    node: u32,
    found: &Picks,
    picks: &Picks,
) -> bool
    requires { AreBelow (L.nodes lists.old) (nodes_in found.now) }
    ensures discovered { result ≡ list_all (is_discovered_by (L.listing_of lists.old) version node picks.now) (nodes_in found.now) }
    ensures lists { L.listing_of lists.new ≡ L.listing_of lists.old }
    ensures nodes { L.nodes lists.new ≡ L.nodes lists.old }
{
    for index in 0..found.len() {
        if !is_discovered(lists, version, node, found.get(index), picks) {
            return false;
        }
    }
    true
}

fn is_discovered<L: Lists>(
    lists: &mut L,
    version: u32,
    node: u32,
    pick: Option<u32>,
    picks: &Picks,
) -> bool
    requires { AreBelow (L.nodes lists.old) (nodes_in (pick ∷ [])) }
    ensures discovered { result ≡ list_all (is_discovered_by (L.listing_of lists.old) version node picks.now) (nodes_in (pick ∷ [])) }
    ensures lists { L.listing_of lists.new ≡ L.listing_of lists.old }
    ensures nodes { L.nodes lists.new ≡ L.nodes lists.old }
{
    let Some(candidate) = pick else {
        return true;
    };
    if has_pick(picks, candidate) {
        return true;
    }
    lists.has_out(candidate, node, version)
}

// Whether each candidate that was picked before the call is found again or has no out-edge of the node any more.
fn are_released<L: Lists>(lists: &mut L, node: u32, found: &Picks, picks: &Picks) -> bool
    requires { AreBelow (L.nodes lists.old) (nodes_in picks.now) }
    ensures released { result ≡ list_all (is_released_by (L.listing_of lists.old) node found.now) (nodes_in picks.now) }
    ensures lists { L.listing_of lists.new ≡ L.listing_of lists.old }
    ensures nodes { L.nodes lists.new ≡ L.nodes lists.old }
{
    for index in 0..picks.len() {
        if !is_released(lists, node, found, picks.get(index)) {
            return false;
        }
    }
    true
}

fn is_released<L: Lists>(lists: &mut L, node: u32, found: &Picks, pick: Option<u32>) -> bool
    requires { AreBelow (L.nodes lists.old) (nodes_in (pick ∷ [])) }
    ensures released { result ≡ list_all (is_released_by (L.listing_of lists.old) node found.now) (nodes_in (pick ∷ [])) }
    ensures lists { L.listing_of lists.new ≡ L.listing_of lists.old }
    ensures nodes { L.nodes lists.new ≡ L.nodes lists.old }
{
    let Some(candidate) = pick else {
        return true;
    };
    if has_pick(found, candidate) {
        return true;
    }
    !lists.has_node(candidate, node)
}
