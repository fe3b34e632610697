// Where a call can frame a node, and where it can start.

ghost use Rattle.std.specs.Prelude.{◌≡◌, ◌<◌, true, not, ◌&&◌};
ghost use Rattle.flow_model.specs.declared.step.Step.TheVariants as step;
ghost use Rattle.flow_model.specs.Machine.State.{is_framing};
ghost use Rattle.flow_model.specs.Machine.Steps.{any_framing_before};
ghost use Rattle.flow_model.specs.Parts.Books.{allowed_in, bare};
ghost use Rattle.flow_state.specs.Booked.{live_in};
ghost use Rattle.step_rules.specs.Fits.{IsWhole, listed};
ghost use Rattle.step_rules.specs.Fronts.{wants_nothing};

use crate::fronts::{has_room, wants_nothing};
use crate::lists::Lists;
use flow_state::Book;
use signal_graph::graph::Graph;

/// Whether the step Frame is allowed: the call wants the node, and has a Mark there or finds room.
pub(crate) fn may_frame<L: Lists>(
    book: &Book,
    _graph: &Graph,
    lists: &mut L,
    version: u32,
    node: u32,
) -> bool
    requires whole { IsWhole _graph.now book.now (L.listing_of lists.old) (L.nodes lists.old) }
    requires live { live_in book.now version ≡ true }
    requires node { node < L.nodes lists.old }
    ensures allowed { result ≡ allowed_in _graph.now book.now.book (listed (L.listing_of lists.old)) (step.Frame version node) }
    ensures lists { L.listing_of lists.new ≡ L.listing_of lists.old }
    ensures nodes { L.nodes lists.new ≡ L.nodes lists.old }
{
    if !book.wants(version, node) {
        return false;
    }
    let sight = lists.sight(node, version);
    sight.is_mark || has_room(book, sight.len)
}

/// Whether the step Start is allowed: the call frames and has nothing left to frame, and so has no direct predecessor that
/// frames.
pub(crate) fn may_start(book: &Book, version: u32) -> bool
    requires { live_in book.now version ≡ true }
    ensures { result ≡ (is_framing (bare book.now.book) version && wants_nothing book.now version
        && not (any_framing_before (bare book.now.book) version)) }
{
    if book.executes(version) {
        return false;
    }
    if !wants_nothing(book, version) {
        return false;
    }
    book.first_framing_before(version).is_none()
}
