// What comes next at a node that is open for a call and is no choose, so that it has no picks.

ghost use Rattle.std.specs.Prelude.{◌≡◌, true, false, drop};
ghost use Rattle.signal_graph.specs.Graph.{node_at};
ghost use Rattle.flow_model.specs.Machine.State.{opens};
ghost use Rattle.flow_model.specs.Machine.Next.{first_of};
ghost use Rattle.flow_model.specs.Parts.Books.{bare};
ghost use Rattle.flow_state.specs.Booked.{live_in};
ghost use Rattle.step_rules.specs.Fits.{IsWhole, IsSeatOf};
ghost use Rattle.step_rules.specs.Points.{points_in};
ghost use Rattle.step_rules.specs.Rests.{is_choose};

use crate::entering::{framing, reading};
use crate::lists::Lists;
use crate::open_node::input_open;
use crate::searches::first_ungathered;
use crate::working::{is_found, is_source};
use flow_model::{Cause, Step, Turn};
use flow_state::{Book, Seat};
use retrofit::to_help;
use signal_graph::graph::Graph;

/// The points behind the first one: what the node rests on are its inputs alone.
pub(crate) fn at_plain<L: Lists>(
    book: &Book,
    seat: &Seat,
    graph: &Graph,
    lists: &mut L,
    version: u32,
    node: u32,
    given: bool,
) -> Turn
    requires whole { IsWhole graph.now book.now (L.listing_of lists.old) (L.nodes lists.old) }
    requires live { live_in book.now version ≡ true }
    requires seat { IsSeatOf book.now version seat.now }
    requires open { opens (bare book.now.book) version node ≡ true }
    requires plain { is_choose (node_at graph.now node) ≡ false }
    ensures turn { result ≡ first_of (drop 1 (points_in graph.now book.now (L.listing_of lists.old) version given node)) }
    ensures lists { L.listing_of lists.new ≡ L.listing_of lists.old }
    ensures nodes { L.nodes lists.new ≡ L.nodes lists.old }
{
    if let Some(input) = input_open(book, graph, version, node, &[], given) {
        return Turn::NotYet(Cause::InputOpen { node: input });
    }
    if let Some(later) = to_help(book, version, node) {
        return framing(book, lists, later, node);
    }
    plain_at_front(book, seat, graph, lists, version, node)
}

// The points where no other call is in the way: a source is set, an untouched node is skipped, and else its inputs are
// gathered, its script is evaluated, and then the new value stands.
fn plain_at_front<L: Lists>(
    book: &Book,
    seat: &Seat,
    graph: &Graph,
    lists: &mut L,
    version: u32,
    node: u32,
) -> Turn
    requires whole { IsWhole graph.now book.now (L.listing_of lists.old) (L.nodes lists.old) }
    requires live { live_in book.now version ≡ true }
    requires seat { IsSeatOf book.now version seat.now }
    requires open { opens (bare book.now.book) version node ≡ true }
    requires plain { is_choose (node_at graph.now node) ≡ false }
    ensures turn { result ≡ first_of (drop 3 (points_in graph.now book.now (L.listing_of lists.old) version false node)) }
    ensures lists { L.listing_of lists.new ≡ L.listing_of lists.old }
    ensures nodes { L.nodes lists.new ≡ L.nodes lists.old }
{
    if is_source(graph, node) {
        return Turn::Step(Step::Resolve { version, node });
    }
    let inputs = graph.inputs(node);
    if !seat.any_changed(inputs) {
        return Turn::Step(Step::Skip { version, node });
    }
    if let Some(input) = first_ungathered(book, node, inputs) {
        let step = Step::Gather {
            version,
            node,
            input,
        };
        return reading(book, lists, version, input, step);
    }
    if !is_found(book, node) {
        return Turn::Step(Step::Evaluate { version, node });
    }
    Turn::Step(Step::Resolve { version, node })
}
