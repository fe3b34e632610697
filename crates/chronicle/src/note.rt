//! A note of a beginning of a history.
ghost use Rattle.std.specs.Prelude.{◌≡◌, length};

use crate::view::HistorySeat;
use std::marker::Model;

/// What a history was when this note was made.
///
/// Contracts see it as the history that it is of, its key, and its list, which is a beginning of that history.
/// While a note has a key above 0, no entry of that key is appended and no other note has it.
/// Key 0 belongs to no entry, and any number of notes may have it.
///
/// A note must be spent: [`Writer::retire`](crate::Writer::retire) takes it back, and
/// [`Writer::meet`](crate::Writer::meet) gives a newer one for it. It may be handed to another thread.
pub struct Note<E> {
    pub(crate) seat: HistorySeat<E>,
    pub(crate) len: u64,
}

impl<E> Model for Note<E> {
    ghost use Rattle.std.specs.Prelude.{◌≡◌, [], length};
    ghost use Rattle.chronicle.specs.Models.{NoteModel};
    ghost use Rattle.chronicle.specs.Views.{list_of, key_of};
    ghost use Rattle.chronicle.specs.declared.view.View.TheVariants.{Noted};

    ghost Value = { NoteModel E };

    ghost view = { λ n. record { table = n.seat.table_id; key = key_of n.seat.me.0; list = list_of n.seat.me.0 } };

    ghost invariant = { λ n. (n.seat.me ≡ (Noted (key_of n.seat.me.0) (list_of n.seat.me.0), []))
        × (n.len ≡ length (list_of n.seat.me.0)) };
}

impl<E> Note<E> {
    /// How many entries the note's list has.
    pub fn len(&self) -> u64
        ensures { result ≡ length self.now.list }
    {
        self.len
    }
}
