//! The kinds of atomic step on the table, each named where a call takes it.
//!
//! A step has no argument that a proof could read, so what a call appends and the key that it gives
//! out are members of a trait, which the call picks.

use crate::view::View;
use atomic_table::{Join, Play, Split};
use std::marker::{Brand, PhantomData};

/// The entry that a call appends.
pub(crate) trait Appended<E> {
    ghost use Rattle.std.specs.Prelude.{List};
    ghost use Rattle.chronicle.specs.declared.entry.Entry.{Entry};

    /// A list of this one entry.
    ghost entries: { List (Entry E) };
}

impl<E> Appended<E> for Brand {
    ghost use Rattle.std.specs.Prelude.{[]};

    ghost entries = { [] };
}

/// The key of the note that a call makes.
pub(crate) trait Keyed {
    ghost use Rattle.std.specs.Prelude.{ℕ};

    ghost key: { ℕ };
}

impl Keyed for Brand {
    ghost key = { 0 };
}

/// Append: the word is one more, and the writer's list has the entry at its end.
pub(crate) struct AppendStep<B> {
    by: PhantomData<B>,
}

impl<E, B: Appended<E>> Play<(), View<E>> for AppendStep<B> {
    ghost use Rattle.chronicle.specs.Steps.{Appends};

    ghost then = { Appends B.entries };
}

/// Split: a note's seat comes out of the writer's, and its key is out.
pub(crate) struct SplitStep<B> {
    by: PhantomData<B>,
}

impl<E, B: Keyed> Split<View<E>> for SplitStep<B> {
    ghost use Rattle.chronicle.specs.Steps.{note_out, note_made};

    ghost left = { note_out B.key };

    ghost right = { note_made B.key };
}

/// Join: the writer's seat takes in a note's, which is spent, and the key is out no more.
pub(crate) struct JoinStep;

impl<E> Join<View<E>> for JoinStep {
    ghost use Rattle.chronicle.specs.Steps.{note_back};
    ghost use Rattle.chronicle.specs.declared.view.View.TheVariants.{Spent};

    ghost both = { note_back };

    ghost spent = { Spent };
}

/// Load: the word is read, which tells what the notes seen are.
pub(crate) struct LoadStep;

impl<E> Play<(), View<E>> for LoadStep {
    ghost use Rattle.chronicle.specs.Steps.{Loads};

    ghost then = { Loads };
}
