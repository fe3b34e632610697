// The log of the calls that were made.

ghost use Rattle.std.specs.Prelude.{◌≡◌, ◌<◌, ◌+◌, ◌-◌, ◌^◌, [], ◌∷◌, ◌++◌, length, slice_get, Some, OnOk, OnErr};

use script_tree::memory::OutOfMemory;
use signal_graph::log::Logged;
use std::alloc::Global;
use std::marker::Model;

/// The calls that were made, in the order of their effect, and the room that is kept for more. Contracts see the list
/// of the entries, and how many entries more can be added without memory, `spare`.
#[derive(Drop)]
pub struct Log {
    entries: Vec<Logged>,
    spare: usize,
}

impl Model for Log {
    ghost use Rattle.std.specs.Prelude.{◌+◌, ◌<◌, ◌≤◌, ◌^◌, length, vec_len, vec_capacity};
    ghost use Rattle.call_log.specs.Record.{Record};

    ghost Value = { Record };

    ghost view = { λ log. record { entries = log.entries.items; spare = log.spare } };

    ghost invariant = { λ log. (vec_len log.entries + log.spare ≤ vec_capacity log.entries) × (length log.entries.items < 2 ^ 32) };
}

impl Log {
    /// The empty log, with no room kept. Takes no memory.
    pub fn new(alloc: Global) -> Log
        ensures entries { result.entries ≡ [] }
        ensures spare { result.spare ≡ 0 }
    {
        Log {
            entries: Vec::new(alloc),
            spare: 0,
        }
    }

    /// Keeps room for one entry more. Takes memory; where there is none the log is as it was.
    pub fn reserve_one(&mut self) -> Result<(), OutOfMemory>
        ensures entries { self.new.entries ≡ self.old.entries }
        ensures ok { OnOk result (self.new.spare ≡ self.old.spare + 1) }
        ensures err { OnErr result (self.new.spare ≡ self.old.spare) }
    {
        self.reserve(1)
    }

    /// Keeps room for so many entries more, all at once. Takes memory; where there is none the log is as it was.
    pub fn reserve(&mut self, count: usize) -> Result<(), OutOfMemory>
        ensures entries { self.new.entries ≡ self.old.entries }
        ensures ok { OnOk result (self.new.spare ≡ self.old.spare + count) }
        ensures err { OnErr result (self.new.spare ≡ self.old.spare) }
    {
        let spare = match self.spare.checked_add(count) {
            Some(spare) => spare,
            None => return Err(OutOfMemory),
        };
        self.entries.reserve(spare)?;
        self.spare = spare;
        Ok(())
    }

    /// Adds an entry at the end, in the room that is kept. Takes no memory.
    pub fn append(&mut self, entry: Logged)
        requires room { 0 < self.old.spare }
        requires few { length self.old.entries < 2 ^ 32 - 1 }
        ensures entries { self.new.entries ≡ self.old.entries ++ entry ∷ [] }
        ensures spare { self.new.spare ≡ self.old.spare - 1 }
    {
        let spare = self.spare - 1;
        let _ = self.entries.push(entry);
        self.spare = spare;
    }

    /// How many entries there are.
    pub fn len(&self) -> u32
        ensures { result ≡ length self.now.entries }
    {
        self.entries.len() as u32
    }

    /// The entry at an index, counted from 0.
    pub fn get(&self, index: u32) -> &Logged
        requires { index < length self.now.entries }
        ensures { slice_get self.now.entries index ≡ Some result.now }
    {
        &self.entries[index as usize]
    }

    /// All entries, in the order of their effect.
    pub fn as_slice(&self) -> &[Logged]
        ensures { result.now ≡ self.now.entries }
    {
        self.entries.as_slice()
    }
}
