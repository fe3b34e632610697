// Where the values of a job lie.

ghost use Rattle.std.specs.Prelude.{◌≡◌, ◌≤◌, length, take};

use crate::found::FoundList;
use script_tree::value::{Fault, Value};

// The most values that are gathered for a node: one for each input and each pick.
const PAIRS: usize = 68;

/// Room for all that a job is over, which lies with whoever takes the job. It is made once and serves one job after the other: each
/// writes over what the one before has left, as far as it needs. So a job itself stays small, whatever it is over.
#[derive(Drop)]
pub struct JobRoom {
    pub(crate) version: u32,
    pub(crate) node: u32,
    // What the node's script reads as `acc`.
    pub(crate) acc: Value,
    // What the node's selectors have selected, where something is found.
    pub(crate) found: Option<FoundList>,
    // How many values are gathered. They stand in the front.
    pub(crate) count: usize,
    pub(crate) pairs: [(u32, Value); PAIRS],
}

impl JobRoom {
    /// Room in which no job lies yet. Takes no memory.
    pub fn new() -> JobRoom {
        JobRoom {
            version: 0,
            node: 0,
            acc: Value::Fault(Fault::Kind),
            found: None,
            count: 0,
            pairs: [(0, Value::Fault(Fault::NoChoice)); PAIRS],
        }
    }

    /// A copy of what is gathered for a node, in the front of the room.
    pub(crate) fn fill(&mut self, gathered: &[(u32, Value)])
        requires { length gathered.now ≤ 68 }
        ensures values { take self.new.count self.new.pairs ≡ gathered.now }
        ensures few { self.new.count ≤ 68 }
    {
        for (place, pair) in gathered.iter().enumerate() {
            self.pairs[place] = *pair;
        }
        self.count = gathered.len();
    }

    /// What is gathered for the node.
    pub(crate) fn gathered(&self) -> &[(u32, Value)]
        requires { self.now.count ≤ 68 }
        ensures { result.now ≡ take self.now.count self.now.pairs }
    {
        &self.pairs[..self.count]
    }
}
