// What a beginning needs.

ghost use Rattle.std.specs.Prelude.{◌≡◌, ◌≤◌, [], OnOk, vec_capacity};

use script_tree::memory::OutOfMemory;
use script_tree::value::Value;
use std::alloc::Global;
use std::marker::Model;

/// What a call sets and looks at, by the numbers of nodes. The memory of calls that have ended serves again.
#[derive(Drop)]
pub(crate) struct Lists {
    pub(crate) sets: Vec<(u32, Value)>,
    pub(crate) looks: Vec<u32>,
}

impl Lists {
    /// No memory.
    pub(crate) fn new(alloc: Global) -> Lists {
        Lists {
            sets: Vec::new(alloc),
            looks: Vec::new(alloc),
        }
    }

    /// Empties both, and sees that there is room for so many items. Takes memory where there is less.
    pub(crate) fn make_ready(&mut self, sets: usize, looks: usize) -> Result<(), OutOfMemory>
        ensures sets { OnOk result ((self.new.sets.items ≡ []) × (sets ≤ vec_capacity self.new.sets)) }
        ensures looks { OnOk result ((self.new.looks.items ≡ []) × (looks ≤ vec_capacity self.new.looks)) }
    {
        self.sets.clear();
        self.looks.clear();
        self.sets.reserve(sets)?;
        self.looks.reserve(looks)?;
        Ok(())
    }
}

/// What a call asks for, by the numbers of the nodes that it names, and the memory that it needs for its reply. Contracts see what
/// is set and looked at, and how many nodes the graph of its book has. It has to be spent by the call's beginning, or given back.
pub struct Room {
    pub(crate) lists: Lists,
    pub(crate) looked: Vec<Value>,
    pub(crate) nodes: u32,
}

impl Model for Room {
    ghost use Rattle.std.specs.Prelude.{◌≡◌, ◌≤◌, [], length};
    ghost use Rattle.std.specs.Vec.{vec_capacity};
    ghost use Rattle.flow_state.specs.Rooms.{Roomy};

    ghost Value = { Roomy };

    ghost view = { λ r. record { sets = r.lists.sets.items; looks = r.lists.looks.items; nodes = r.nodes } };

    ghost invariant = { λ r. (r.looked.items ≡ []) × (length r.lists.looks.items ≤ vec_capacity r.looked) };
}
