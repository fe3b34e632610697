// The core's own parts.

ghost use Rattle.std.specs.Prelude.{◌≡◌, ◌<◌, length};
ghost use Rattle.flow_state.specs.Fitting.{IsBookOf, list_of};

use crate::core_state::Core;
use flow_state::Book;
use node_versions::NodeList;

impl Core<'_> {
    /// The core's book: its state without the lists. With it come the facts that every state keeps.
    pub fn book(&self) -> &Book
        ensures fits { IsBookOf self.now.graph self.now.state result.now }
        ensures rooms { result.now.rooms ≡ self.now.rooms }
    {
        &self.book
    }

    /// The list of a node.
    pub fn list(&self, node: u32) -> &NodeList
        requires { node < length self.now.graph.nodes }
        ensures { result.now ≡ list_of self.now.graph self.now.state node }
    {
        &self.lists[node as usize]
    }
}
