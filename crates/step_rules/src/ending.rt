// Where a call can end, and where a list can be collected.

ghost use Rattle.std.specs.Prelude.{◌≡◌, ◌<◌, true, not, ◌&&◌, is_none};
ghost use Rattle.flow_model.specs.declared.step.Step.TheVariants as step;
ghost use Rattle.flow_model.specs.Machine.Words.{is_idle, next_look};
ghost use Rattle.flow_model.specs.Machine.Steps.{any_before};
ghost use Rattle.flow_model.specs.Parts.Books.{allowed_in, bare};
ghost use Rattle.flow_state.specs.Booked.{live_in};
ghost use Rattle.step_rules.specs.Fits.{IsWhole, listed};

use crate::lists::Lists;
use crate::reading::is_idle;
use flow_state::Book;
use signal_graph::graph::Graph;

/// Whether the step End is allowed: nothing of the call is wanted or open, all looks are taken, and no direct predecessor
/// is left.
pub(crate) fn may_end(book: &Book, version: u32) -> bool
    requires { live_in book.now version ≡ true }
    ensures { result ≡ (is_idle (bare book.now.book) version && is_none (next_look (bare book.now.book) version)
        && not (any_before (bare book.now.book) version)) }
{
    if !is_idle(book, version) {
        return false;
    }
    if book.next_look(version).is_some() {
        return false;
    }
    book.first_before(version).is_none()
}

/// Whether the step Collect is allowed: entries of ended calls can go from the node's list.
pub(crate) fn may_collect<L: Lists>(book: &Book, _graph: &Graph, lists: &mut L, node: u32) -> bool
    requires whole { IsWhole _graph.now book.now (L.listing_of lists.old) (L.nodes lists.old) }
    requires node { node < L.nodes lists.old }
    ensures allowed { result ≡ allowed_in _graph.now book.now.book (listed (L.listing_of lists.old)) (step.Collect node) }
    ensures lists { L.listing_of lists.new ≡ L.listing_of lists.old }
    ensures nodes { L.nodes lists.new ≡ L.nodes lists.old }
{
    lists.can_collect(node, book)
}
