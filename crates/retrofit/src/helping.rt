// Who is to be helped before a node is finished.

ghost use Rattle.std.specs.Prelude.{◌≡◌, true};
ghost use Rattle.std.specs.Option.{is_some};
ghost use Rattle.flow_model.specs.Machine.State.{Core};
ghost use Rattle.flow_model.specs.Machine.Words.{presses, pressed};
ghost use Rattle.flow_model.specs.Machine.Next.{least_version};
ghost use Rattle.flow_model.specs.Parts.Books.{book_of};
ghost use Rattle.flow_state.specs.Booked.{live_in};

use flow_state::Book;

/// The least version among the executing calls after this one that want the node. None exactly where there is none. The
/// order is asked only of calls that execute and want the node. Takes no memory.
pub fn to_help(book: &Book, version: u32, node: u32) -> Option<u32>
    requires { live_in book.now version ≡ true }
    ensures least { (s : Core) → book.now.book ≡ book_of s → result ≡ least_version (presses s version node) s.calls }
    ensures exact { (s : Core) → book.now.book ≡ book_of s → is_some result ≡ pressed s version node }
{
    book.first_pressing(version, node)
}
