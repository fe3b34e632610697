//! What a seat at the table knows, and the rule that keeps it true.

use crate::entry::Entry;
use atomic_table::{Seat, Table, TableRule};
use std::alloc::Global;
use std::collections::LinkedList;
use std::marker::PhantomData;

/// A note that came back: its key, its list, and the keys that were out just before.
pub(crate) struct Seen<E> {
    pub(crate) key: u64,
    pub(crate) list: LinkedList<Entry<E>>,
    pub(crate) out: LinkedList<u64>,
}

/// The view of a seat. Proofs alone speak of it: no value of it is made.
pub(crate) enum View<E> {
    /// The writer's: the whole list, the keys that are out, and the notes seen since the last append.
    Writing(LinkedList<Entry<E>>, LinkedList<u64>, LinkedList<Seen<E>>),
    /// A note's: its key and its list.
    Noted(u64, LinkedList<Entry<E>>),
    /// That of a note which came back.
    Spent,
}

/// The rule of the table: its one word is the length of the list, and each view is true.
pub(crate) struct LengthRule<E> {
    of: PhantomData<E>,
}

impl<E> TableRule<(), View<E>, ()> for LengthRule<E> {
    ghost use Rattle.chronicle.specs.Rule.{IsKept};
    ghost use Rattle.chronicle.specs.Steps.{made};

    ghost holds = { λ _. IsKept };

    ghost first = { λ _. made };
}

pub(crate) type HistoryTable<E> = Table<(), View<E>, (), LengthRule<E>, Global>;

pub(crate) type HistorySeat<E> = Seat<(), View<E>>;
