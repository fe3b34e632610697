// A call has an entry in a list.

ghost use Rattle.entering.specs.Marking.{SomeCanMark, Marks};

use crate::entry::enter;
use flow_state::Book;
use node_versions::{NodeList, State};

/// A live call enters a node's list as a Mark, unless it has an entry there. Takes no memory.
pub fn ensure_mark(book: &mut Book, list: &mut NodeList, version: u32, node: u32)
    requires { SomeCanMark book.old node list.old version }
    ensures { Marks book.old node list.old version book.new list.new }
{
    if list.entry_of(version).is_none() {
        enter(book, list, version, node, State::Mark);
    }
}
