// An entry of a node's list.
ghost use Rattle.std.specs.Prelude.{◌≡◌};
ghost use Rattle.node_versions.specs.Entries.{is_mark, is_frame, is_done, value_of, picks_of};

use script_tree::picks::Picks;
use script_tree::value::{Fault, Value};
use std::mem::size_of;

/// What a call has come to at a node.
#[derive(Default, Drop)]
pub enum State {
    /// The call holds a place here and changes nothing.
    #[default]
    Mark,
    /// The call may change the node and has not finished here.
    Frame,
    /// The call has finished here: the node's value from this entry on, whether it differs from the value before, and
    /// what the node's selectors picked. A source, a signal and a fold have the empty list of picks.
    Done {
        value: Value,
        changed: bool,
        picks: Picks,
    },
}

/// The place of a call in a node's list: its version, the slot that it has while it is live, and its state there.
#[derive(Default, Drop)]
pub struct Entry {
    pub version: u32,
    pub slot: u32,
    pub state: State,
}

// The largest size of an entry in bytes: a step reads few lines of memory where entries are small.
const _: () = prove!(size_of::<Entry>() <= 56);

impl State {
    /// Whether the state is a Mark.
    pub fn is_mark(&self) -> bool
        ensures { result ≡ is_mark self.now }
    {
        matches!(self, State::Mark)
    }

    /// Whether the state is a Frame.
    pub fn is_frame(&self) -> bool
        ensures { result ≡ is_frame self.now }
    {
        matches!(self, State::Frame)
    }

    /// Whether the state is a Done.
    pub fn is_done(&self) -> bool
        ensures { result ≡ is_done self.now }
    {
        matches!(self, State::Done { .. })
    }

    /// The value of a Done. Of another state a fault.
    pub fn value(&self) -> Value
        ensures { result ≡ value_of self.now }
    {
        match self {
            State::Done { value, .. } => *value,
            _ => Value::Fault(Fault::NoChoice),
        }
    }

    /// The picks of a Done. Of another state none. Takes no memory.
    pub fn picks(&self) -> Picks
        ensures { result ≡ picks_of self.now }
    {
        match self {
            State::Done { picks, .. } => picks.copy(),
            _ => Picks::new(),
        }
    }
}
