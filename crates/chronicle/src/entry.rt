//! What stands in a history, and how it is named.

ghost use Rattle.std.specs.Prelude.{◌≡◌};

use std::marker::Model;
use std::snapshot::Snapshot;

/// What contracts see at one place of a history: what happened, and the keys under which it stands.
///
/// A key is a number above 0, as of the caller who did it or of the node at which it happened. An entry has
/// at most two, and 0 stands for none. A program needs no value of this type.
pub struct Entry<E> {
    pub event: E,
    pub first_key: u64,
    pub second_key: u64,
}

/// Names an entry to [`Writer::append`](crate::Writer::append), which keeps nothing of the value that it is passed.
///
/// [`Named`] serves for any event. A type of your own is a struct of `Snapshot`s. A value of it takes no room, and no
/// memory is needed to name an event that lies on the heap.
pub trait Names<E>: Drop {
    ghost use Rattle.chronicle.specs.declared.entry.Entry.{Entry};

    /// The entry that a value names.
    ghost entry_of: { Self → Entry E };
}

/// An event with the keys under which it is to stand, each as it was when it was named. Contracts see the entry.
/// It takes no room, and the event is not copied: it may go on, or be dropped, before the entry is appended.
#[derive(Drop)]
pub struct Named<E> {
    event: Snapshot<E>,
    first_key: Snapshot<u64>,
    second_key: Snapshot<u64>,
}

impl<E> Model for Named<E> {
    ghost use Rattle.chronicle.specs.declared.entry.Entry.{Entry};

    ghost Value = { Entry E };

    ghost view = { λ n. record { event = n.event.value; first_key = n.first_key.value; second_key = n.second_key.value } };
}

impl<E> Names<E> for Named<E> {
    ghost entry_of = { λ entry. entry };
}

impl<E> Named<E> {
    /// The event as it is now, under these keys; 0 stands for no key. Takes no memory.
    pub fn new(event: &E, first_key: u64, second_key: u64) -> Named<E>
        ensures { result ≡ record { event = event.now; first_key = first_key; second_key = second_key } }
    {
        Named {
            event: Snapshot::of(event),
            first_key: Snapshot::of(&first_key),
            second_key: Snapshot::of(&second_key),
        }
    }
}
