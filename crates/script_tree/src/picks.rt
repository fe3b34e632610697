// What the selectors of a choose picked.

ghost use Rattle.std.specs.Prelude.{◌≡◌, ◌<◌, ◌≤◌, [], ◌∷◌, ◌++◌, length, slice_get, Some};

use crate::limits::SELECTORS;
use std::marker::Model;
use std::mem::size_of;

// What stands at an index: nothing, an item that is none, or a node's number.
#[derive(Clone, Copy)]
pub(crate) enum Place {
    Free,
    NoNode,
    Node,
}

/// What the selectors of a choose picked, one item per selector: the number of the node that is picked, or none.
/// Contracts see a list of at most four items. No call takes memory.
///
/// The items stand in the places before the first free one, and behind that all are free.
#[derive(Drop)]
pub struct Picks {
    numbers: [u32; SELECTORS],
    places: [Place; SELECTORS],
}

// An entry of a list of versions has one: its size is theirs.
const _: () = prove!(size_of::<Picks>() <= 20);

impl Model for Picks {
    ghost use Rattle.std.specs.Prelude.{List, Option, ℕ};
    ghost use Rattle.script_tree.specs.PickPlaces.{items_of, AreFreeBehind};

    ghost Value = { List (Option ℕ) };

    ghost view = { λ p. items_of p.places p.numbers };

    ghost invariant = { λ p. AreFreeBehind p.places };
}

impl Picks {
    /// The empty list.
    pub fn new() -> Picks
        ensures { result ≡ [] }
    {
        Picks {
            numbers: [0; SELECTORS],
            places: [Place::Free; SELECTORS],
        }
    }

    /// Adds an item at the end.
    pub fn push(&mut self, item: Option<u32>)
        requires { length self.old < SELECTORS }
        ensures { self.new ≡ self.old ++ item ∷ [] }
    {
        let index = self.len() as usize;
        let (place, number) = match item {
            None => (Place::NoNode, 0),
            Some(node) => (Place::Node, node),
        };
        self.places[index] = place;
        self.numbers[index] = number;
    }

    /// How many items there are: at most one for each selector that a choose may have.
    pub fn len(&self) -> u32
        ensures value { result ≡ length self.now }
        ensures few { result ≤ SELECTORS }
    {
        for index in 0..SELECTORS {
            if let Place::Free = self.places[index] {
                return index as u32;
            }
        }
        SELECTORS as u32
    }

    /// The item at an index, counted from 0.
    pub fn get(&self, index: u32) -> Option<u32>
        requires { index < length self.now }
        ensures { slice_get self.now index ≡ Some result }
    {
        match self.places[index as usize] {
            Place::Node => Some(self.numbers[index as usize]),
            _ => None,
        }
    }

    /// An equal list.
    pub fn copy(&self) -> Picks
        ensures { result ≡ self.now }
    {
        Picks {
            numbers: self.numbers,
            places: self.places,
        }
    }
}
