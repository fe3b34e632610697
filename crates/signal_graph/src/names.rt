// Names by number, and the number of each name.

ghost use Rattle.std.specs.Prelude.{◌≡◌, ◌≢◌, ℕ, slice_index_or, IfSome, IfNone, ◌<◌, ◌≤◌, [], ◌∷◌, ◌++◌};
ghost use Rattle.std.specs.Prelude.{false, if◌then◌else◌, length, slice_get, Some, None, OnOk, OnErr};
ghost use Rattle.std.specs.List.{list_any};
ghost use Rattle.std.specs.Str.{bytes_eq};
ghost use Rattle.script_tree.specs.Names.{place_in};
ghost use Rattle.signal_graph.specs.Tables.{is_declared};

use script_tree::limits::NODES;
use script_tree::memory::OutOfMemory;
use script_tree::name::Name;
use std::alloc::Global;
use std::collections::HashMap;
use std::marker::Model;

/// Different names with their numbers, which count from 0. Contracts see the names in their order.
#[derive(Drop)]
pub struct NameTable {
    alloc: Global,
    names: Vec<Name>,
    numbers: HashMap<Vec<u8>, u32>,
}

impl Model for NameTable {
    ghost use Rattle.std.specs.Prelude.{List, ℕ};
    ghost use Rattle.signal_graph.specs.Tables.{IsTable};

    ghost Value = { List (List ℕ) };

    ghost view = { λ table. table.names.items };

    ghost invariant = { λ table. IsTable table.names.items table.numbers };
}

impl NameTable {
    /// The empty table. Takes no memory.
    pub fn new(alloc: Global) -> NameTable
        ensures { result ≡ [] }
    {
        NameTable {
            alloc,
            names: Vec::new(alloc),
            numbers: HashMap::new(alloc),
        }
    }

    /// How many names there are.
    pub fn len(&self) -> u32
        ensures value { result ≡ length self.now }
        ensures few { result ≤ NODES }
    {
        self.names.len() as u32
    }

    /// The name with a number.
    pub fn get(&self, number: u32) -> &Name
        requires { number < length self.now }
        ensures { slice_get self.now number ≡ Some result.now }
    {
        &self.names[number as usize]
    }

    /// The number of a name, or none where it is not there. Takes no memory.
    pub fn find(&self, name: &Name) -> Option<u32>
        ensures value { result ≡ (if is_declared self.now name.now then Some (place_in self.now name.now) else None) }
        ensures some { IfSome result (λ n. slice_index_or self.now n [] ≡ name.now) }
        ensures none { IfNone result ((m : ℕ) → m < length self.now → slice_index_or self.now m [] ≢ name.now) }
    {
        self.numbers.get(name.as_slice()).copied()
    }

    /// Whether a name is there. Takes no memory.
    pub fn contains(&self, name: &Name) -> bool
        ensures { result ≡ is_declared self.now name.now }
    {
        self.find(name).is_some()
    }

    /// The number of a name, or how many names there are where it is not there. Takes no memory.
    pub fn place(&self, name: &Name) -> u32
        ensures { result ≡ place_in self.now name.now }
    {
        self.find(name).unwrap_or(self.len())
    }

    /// Adds a name at the end. Takes memory; where there is none the name is dropped and the table is as it was.
    pub fn push(&mut self, name: Name) -> Result<(), OutOfMemory>
        requires room { length self.old < NODES }
        requires absent { is_declared self.old name ≡ false }
        ensures ok { OnOk result (self.new ≡ self.old ++ name ∷ []) }
        ensures err { OnErr result (self.new ≡ self.old) }
    {
        let number = self.names.len() as u32;
        let key = Vec::from_slice(self.alloc, name.as_slice())?;
        self.names.push(name)?;
        match self.numbers.insert(key, number) {
            Ok(_) => Ok(()),
            Err(_) => {
                self.names.pop();
                Err(OutOfMemory)
            }
        }
    }
}
