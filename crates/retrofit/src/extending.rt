// Later calls come to want a node.

ghost use Rattle.std.specs.Prelude.{◌≡◌, ◌<◌, ℕ};
ghost use Rattle.signal_graph.specs.Graph.{Graph};
ghost use Rattle.flow_model.specs.Machine.Changes.{hands_on};
ghost use Rattle.flow_state.specs.Booked.{node_count};
ghost use Rattle.flow_state.specs.Joining.{IsJoined, MakesTold};
ghost use Rattle.retrofit.specs.Telling.{told_one};

use flow_state::Book;
use node_versions::{Entry, NodeList, State};

/// Right after a call has discovered a candidate of a node: the calls behind it in the candidate's list that have a Frame
/// or a changed Done there come to want the node, unless it is open for them. This is the second part of the step
/// Discover. The book and the list are those that the first part left. Takes no memory.
pub fn extend_wanted(book: &mut Book, candidate_list: &NodeList, version: u32, node: u32)
    requires { (graph : Graph) × (m : ℕ) × IsJoined graph version node m book.old candidate_list.now }
    ensures { (graph : Graph) (m : ℕ) → MakesTold graph version node m book.old candidate_list.now book.new }
{
    candidate_list.is_kept();
    let Some(own) = candidate_list.entry_of(version) else {
        return;
    };
    let len = candidate_list.len();
    for index in own + 1..len {
        tell(book, candidate_list.get(index), node);
    }
}

// The call of an entry comes to want the node, where it lives and hands on what it does there.
fn tell(book: &mut Book, entry: &Entry, node: u32)
    requires { node < node_count book.old }
    ensures { book.new ≡ told_one book.old node entry.now }
{
    if hands_on(&entry.state) && book.live(entry.version) {
        book.want(entry.version, node);
    }
}

// Whether a dependency on the node is handed on: at a Frame, and at a Done that changed.
fn hands_on(state: &State) -> bool
    ensures { result ≡ hands_on state.now }
{
    match state {
        State::Mark => false,
        State::Frame => true,
        State::Done { changed, .. } => *changed,
    }
}
