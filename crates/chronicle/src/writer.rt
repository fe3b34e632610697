//! The writer of a history.
ghost use Rattle.std.specs.Prelude.{◌≡◌, ◌^◌, ◌<◌, ◌++◌, ◌∷◌, [], length, true, false, IfOk};
ghost use Rattle.chronicle.specs.Entries.{IsPrefixWithAll};
ghost use Rattle.chronicle.specs.Keys.{is_out, out_with, out_without};

use crate::entry::Names;
use crate::note::Note;
use crate::steps::{AppendStep, Appended, JoinStep, Keyed, LoadStep, SplitStep};
use crate::view::{HistorySeat, HistoryTable};
use atomic_table::Table;
use script_tree::memory::OutOfMemory;
use std::alloc::Global;
use std::marker::{Brand, Model};

/// The one writer of a history that only grows.
///
/// Contracts see it as the history that it writes, that history's list of entries, and the keys that are out.
/// A key above 0 is out while a note has it. At run time only the count of entries is kept.
#[derive(Drop)]
pub struct Writer<E> {
    table: HistoryTable<E>,
    seat: HistorySeat<E>,
    len: u64,
}

impl<E> Model for Writer<E> {
    ghost use Rattle.std.specs.Prelude.{◌≡◌, [], length};
    ghost use Rattle.chronicle.specs.Models.{WriterModel};
    ghost use Rattle.chronicle.specs.Views.{list_of, out_of, seen_of};
    ghost use Rattle.chronicle.specs.declared.view.View.TheVariants.{Writing};

    ghost Value = { WriterModel E };

    ghost view = { λ w. record { table = w.table.shared.table_id; list = list_of w.seat.me.0; out = out_of w.seat.me.0 } };

    ghost invariant = { λ w. (w.seat.table_id ≡ w.table.shared.table_id) × (w.table.shared.table_id.words ≡ 1)
        × (w.seat.me ≡ (Writing (list_of w.seat.me.0) (out_of w.seat.me.0) (seen_of w.seat.me.0), []))
        × (w.len ≡ length (list_of w.seat.me.0)) };
}

impl<E> Writer<E> {
    /// The writer of a new history, which is empty. No key is out.
    ///
    /// This call alone takes memory: one word. An error says that there was none, and nothing is left behind.
    pub fn new(alloc: Global) -> Result<Writer<E>, OutOfMemory>
        ensures { IfOk result (λ w. (w.list ≡ []) × (w.out ≡ [])) }
    {
        // Make: the word is 0, and the first seat is the writer's.
        let (table, seat) = Table::of_words(alloc, &[0], &())?;
        Ok(Writer {
            table,
            seat,
            len: 0,
        })
    }

    /// How many entries the history has.
    pub fn len(&self) -> u64
        ensures { result ≡ length self.now.list }
    {
        self.len
    }

    /// Appends the entry that `entry` names. The keys that are out stay as they are.
    ///
    /// No key of the entry may be out: whoever has a note of it would miss the entry.
    pub fn append<N: Names<E>>(&mut self, entry: N)
        requires room { length self.old.list < 2 ^ 63 }
        requires first_key { is_out (N.entry_of entry).first_key self.old.out ≡ false }
        requires second_key { is_out (N.entry_of entry).second_key self.old.out ≡ false }
        ensures list { self.new.list ≡ self.old.list ++ N.entry_of entry ∷ [] }
        ensures out { self.new.out ≡ self.old.out }
        ensures table { self.new.table ≡ self.old.table }
    {
        self.append_as::<Brand, N>(entry);
    }

    // The same, where B has the entry.
    fn append_as<B: Appended<E>, N: Names<E>>(&mut self, entry: N)
        requires room { length self.old.list < 2 ^ 63 }
        requires picked { B.entries ≡ N.entry_of entry ∷ [] }
        requires first_key { is_out (N.entry_of entry).first_key self.old.out ≡ false }
        requires second_key { is_out (N.entry_of entry).second_key self.old.out ≡ false }
        ensures list { self.new.list ≡ self.old.list ++ N.entry_of entry ∷ [] }
        ensures out { self.new.out ≡ self.old.out }
        ensures table { self.new.table ≡ self.old.table }
    {
        // Append: the word is one more.
        let len = self.len + 1;
        let table = &self.table;
        table.shared.store::<AppendStep<B>>(&mut self.seat, 0, len);
        self.len = len;
        drop(entry);
    }

    /// A note of `key` with the whole list. A key above 0 is out afterwards, and must not be out before.
    ///
    /// Any number of notes may have the key 0.
    pub fn note(&mut self, key: u64) -> Note<E>
        requires { is_out key self.old.out ≡ false }
        ensures note { result ≡ record { table = self.old.table; key = key; list = self.old.list } }
        ensures after { self.new ≡ record self.old { out = out_with key self.old.out } }
    {
        self.note_as::<Brand>(key)
    }

    // The same, where B has the key.
    fn note_as<B: Keyed>(&mut self, key: u64) -> Note<E>
        requires picked { B.key ≡ key }
        requires not_out { is_out key self.old.out ≡ false }
        ensures note { result ≡ record { table = self.old.table; key = key; list = self.old.list } }
        ensures after { self.new ≡ record self.old { out = out_with key self.old.out } }
    {
        let _ = key;
        self.split::<B>()
    }

    // A note of the key that B has.
    fn split<B: Keyed>(&mut self) -> Note<E>
        requires { is_out B.key self.old.out ≡ false }
        ensures note { result ≡ record { table = self.old.table; key = B.key; list = self.old.list } }
        ensures after { self.new ≡ record self.old { out = out_with B.key self.old.out } }
    {
        // Split: a new seat knows the list as it is now.
        let table = &self.table;
        let seat = table.shared.split_seat::<SplitStep<B>>(&mut self.seat);
        Note {
            seat,
            len: self.len,
        }
    }

    /// Takes a note of this history back for good. Its key is no longer out, and the list stays as it is.
    ///
    /// It tells that the note's list is a prefix of the writer's list, that no entry of the note's key
    /// stands behind that prefix, and that a key above 0 was out.
    pub fn retire(&mut self, note: Note<E>)
        requires { note.table ≡ self.old.table }
        ensures prefix { IsPrefixWithAll note.key note.list self.old.list }
        ensures was_out { 0 < note.key → is_out note.key self.old.out ≡ true }
        ensures after { self.new ≡ record self.old { out = out_without note.key self.old.out } }
    {
        // Retire: a join, after which no split gives the key out again.
        let Note { seat, len: _ } = note;
        let table = &self.table;
        table.shared.join_seat::<JoinStep>(&mut self.seat, seat);
        // Load: the rule holds while the word is read, and it speaks of the note that came back.
        table.shared.load::<LoadStep>(&mut self.seat, 0);
    }

    /// Takes a note of this history back, and gives a note of the same key with the whole list.
    ///
    /// It tells the same of the old note as [`Writer::retire`]. The list stays as it is, and so do the keys
    /// that are out, but for their order.
    pub fn meet(&mut self, note: Note<E>) -> Note<E>
        requires { note.table ≡ self.old.table }
        ensures prefix { IsPrefixWithAll note.key note.list self.old.list }
        ensures was_out { 0 < note.key → is_out note.key self.old.out ≡ true }
        ensures note { result ≡ record { table = self.old.table; key = note.key; list = self.old.list } }
        ensures after { self.new ≡ record self.old { out = out_with note.key (out_without note.key self.old.out) } }
    {
        self.meet_as::<Brand>(note)
    }

    // The same, where B has the key.
    fn meet_as<B: Keyed>(&mut self, note: Note<E>) -> Note<E>
        requires picked { B.key ≡ note.key }
        requires table { note.table ≡ self.old.table }
        ensures prefix { IsPrefixWithAll note.key note.list self.old.list }
        ensures was_out { 0 < note.key → is_out note.key self.old.out ≡ true }
        ensures note { result ≡ record { table = self.old.table; key = note.key; list = self.old.list } }
        ensures after { self.new ≡ record self.old { out = out_with note.key (out_without note.key self.old.out) } }
    {
        self.retire(note);
        self.split::<B>()
    }
}
