// Nodes that were picked or found, as short lists.

ghost use Rattle.std.specs.Prelude.{◌≡◌, ◌<◌, Some};
ghost use Rattle.signal_graph.specs.Values.{nodes_in};
ghost use Rattle.flow_model.specs.Machine.Words.{found_candidates};
ghost use Rattle.flow_model.specs.Parts.Books.{bare};
ghost use Rattle.flow_state.specs.Booked.{node_count};

use arrayvec::ArrayVec;
use flow_state::Book;
use script_tree::limits::SELECTORS;
use script_tree::picks::Picks;

/// The nodes among some picks, in their order.
pub(crate) fn nodes_in(picks: &Picks) -> ArrayVec<u32, SELECTORS>
    ensures { result.items ≡ nodes_in picks.now }
{
    let mut nodes = ArrayVec::new();
    for index in 0..picks.len() {
        if let Some(node) = picks.get(index) {
            nodes.push(node);
        }
    }
    nodes
}

/// The candidates that are found for a node, in the order of its selectors.
pub(crate) fn found_candidates(book: &Book, node: u32) -> ArrayVec<u32, SELECTORS>
    requires { node < node_count book.now }
    ensures { result.items ≡ found_candidates (bare book.now.book) node }
{
    nodes_in(&book.found_picks(node))
}
