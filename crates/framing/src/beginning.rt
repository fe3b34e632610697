// A call begins.

ghost use Rattle.framing.specs.Begins.{IsBeginning, MakesBeginning};

use flow_state::{Book, Room};
use signal_graph::call::Call;

/// A call begins with the next version, which is the answer, in a room that was made for it. It is allowed in a lawful state of
/// the graph that has this book. Takes no memory.
pub fn begin(book: &mut Book, caller: u32, call: Call, room: Room) -> u32
    requires { IsBeginning book.old caller call room }
    ensures { MakesBeginning book.old caller call room book.new result }
{
    book.begin(caller, call, room)
}
