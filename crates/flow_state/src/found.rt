// What an evaluation finds.

ghost use Rattle.std.specs.Prelude.{◌≡◌, ◌<◌, ◌≤◌, [], ◌∷◌, ◌++◌, length, map, slice_get, Some};
ghost use Rattle.signal_graph.specs.Values.{taken};
ghost use Rattle.flow_model.specs.Machine.Words.{picks_of_found};
ghost use Rattle.flow_state.specs.Found.{found_of, selection_of};

use arrayvec::ArrayVec;
use script_tree::limits::SELECTORS;
use script_tree::picks::Picks;
use script_tree::value::{Fault, Value};
use std::marker::Model;

/// What a selector selects: a candidate, by its node, or the fault in its place.
#[derive(Clone, Copy, PartialEq, Eq, Debug)]
pub enum Found {
    Candidate(u32),
    Fault(Fault),
}

impl Found {
    /// The candidate that is selected, by its node. None exactly where a fault stands in its place.
    pub fn candidate(&self) -> Option<u32>
        ensures { result ≡ taken (selection_of self.now) }
    {
        match self {
            Found::Candidate(candidate) => Some(*candidate),
            Found::Fault(_) => None,
        }
    }
}

impl Default for Found {
    fn default() -> Found {
        Found::Candidate(0)
    }
}

/// What the selectors of a choose select, one item per selector. Contracts see a list of at most four items. No call
/// takes memory.
#[derive(Drop)]
pub struct FoundList {
    items: ArrayVec<Found, SELECTORS>,
}

impl Model for FoundList {
    ghost use Rattle.std.specs.Prelude.{List};
    ghost use Rattle.flow_state.specs.declared.found.Found.{Found};

    ghost Value = { List Found };

    ghost view = { λ l. l.items.items };
}

impl FoundList {
    /// The empty list.
    pub fn new() -> FoundList
        ensures { result ≡ [] }
    {
        FoundList {
            items: ArrayVec::new(),
        }
    }

    /// Adds an item at the end.
    pub fn push(&mut self, item: Found)
        requires { length self.old < SELECTORS }
        ensures { self.new ≡ self.old ++ item ∷ [] }
    {
        self.items.push(item);
    }

    /// An equal list.
    pub fn copy(&self) -> FoundList
        ensures { result ≡ self.now }
    {
        let mut items = ArrayVec::new();
        let _ = items.try_extend_from_slice(self.items.as_slice());
        FoundList { items }
    }

    /// How many items there are.
    pub fn len(&self) -> u32
        ensures value { result ≡ length self.now }
        ensures few { result ≤ SELECTORS }
    {
        self.items.len() as u32
    }

    /// The item at an index, counted from 0.
    pub fn get(&self, index: u32) -> &Found
        requires { index < length self.now }
        ensures { slice_get self.now index ≡ Some result.now }
    {
        &self.items[index as usize]
    }

    /// What the selectors pick, in their order.
    pub fn picks(&self) -> Picks
        ensures { result ≡ map taken (map selection_of self.now) }
    {
        let mut picks = Picks::new();
        for index in 0..self.len() {
            picks.push(self.get(index).candidate());
        }
        picks
    }
}

/// What an evaluation of a node's scripts finds: the value of a signal or fold, or what each selector of a choose
/// selects.
#[derive(Drop)]
pub enum Finding {
    Gives(Value),
    Selects(FoundList),
}

impl Finding {
    /// What the node's selectors pick, in their order; a signal or fold has none. Takes no memory.
    pub fn picks(&self) -> Picks
        ensures { result ≡ picks_of_found (Some (found_of self.now)) }
    {
        match self {
            Finding::Gives(_) => Picks::new(),
            Finding::Selects(list) => list.picks(),
        }
    }
}
