// The seat of a live call.

ghost use Rattle.std.specs.Prelude.{◌≡◌, ◌<◌, ◌≤◌, ◌+◌, ◌^◌, ◌&&◌, ℕ, not, true, false, [], length, slice_get, vec_capacity, None, IfOk};
ghost use Rattle.std.specs.List.{list_any};
ghost use Rattle.script_tree.specs.declared.limits.TheConstants.{LOOKS, NODES};
ghost use Rattle.script_tree.specs.declared.value.Value.TheVariants as values;
ghost use Rattle.script_tree.specs.declared.value.Fault.TheVariants.{NoChoice};
ghost use Rattle.signal_graph.specs.Graph.{is_in};
ghost use Rattle.flow_model.specs.Machine.Lists.{is_empty};
ghost use Rattle.flow_model.specs.Machine.Sets.{least};
ghost use Rattle.flow_model.specs.Machine.State.{LiveCall, no_call};
ghost use Rattle.flow_model.specs.Machine.Words.{set_value};
ghost use Rattle.flow_model.specs.Machine.Changes.{closed};
ghost use Rattle.flow_model.specs.Machine.Steps.{started, counted, with_look, logged};
ghost use Rattle.node_set.specs.Members.{first_from};
ghost use Rattle.flow_state.specs.Booked.{AreInside, opened_one, wanting, reply_with, begun_call};
ghost use Rattle.flow_state.specs.Seats.{Seated, with_seated, one_if, count_at, Follow};

use crate::counts::{want_all, want_none};
use crate::room::{Lists, Room};
use node_set::NodeSet;
use order_graph::MAX_CALLERS;
use script_tree::items::Items;
use script_tree::memory::OutOfMemory;
use script_tree::value::{Fault, Value};
use signal_graph::call::{Call, Reply, ValueList};
use signal_graph::log::Logged;
use std::alloc::Global;
use std::marker::Model;
use std::mem::replace;

/// A slot's seat: the call that has it, and all that is kept of it. A free seat has version 0. Only `new` takes memory.
///
/// Contracts see the call, for how many nodes its sets are, and room for how many looks. A `Book` lends a live call's seat, so
/// that several questions of one call find it once.
#[derive(Drop)]
pub struct Seat {
    version: u32,
    caller: u32,
    slot: u32,
    executing: bool,
    evaluated: u32,
    wanted: NodeSet,
    open_nodes: NodeSet,
    changed: NodeSet,
    sets: Vec<(u32, Value)>,
    looks: Vec<u32>,
    looked: Vec<Value>,
    call: Call,
    room: u32,
}

impl Model for Seat {
    ghost use Rattle.flow_state.specs.Seats.{Seated};
    ghost use Rattle.flow_state.specs.Rooms.{IsSeat};
    ghost use Rattle.std.specs.Vec.{vec_capacity};

    ghost Value = { Seated };

    ghost view = { λ s. record {
      call = record {
        caller = s.caller;
        version = s.version;
        slot = s.slot;
        executing = s.executing;
        call = s.call;
        sets = s.sets.items;
        looks = s.looks.items;
        wanted = s.wanted.nodes;
        open_nodes = s.open_nodes.nodes;
        changed = s.changed.nodes;
        evaluated = s.evaluated;
        looked = s.looked.items;
      };
      size = s.wanted.size;
      room = s.room;
    } };

    ghost invariant = { λ s. IsSeat s.wanted s.open_nodes s.changed s.looked.items (vec_capacity s.looked) s.room };
}

impl Seat {
    /// A free seat of a slot, with sets for so many nodes.
    pub(crate) fn new(alloc: Global, slot: u32, nodes: u32) -> Result<Seat, OutOfMemory>
        requires { nodes ≤ NODES }
        ensures { IfOk result (λ seat. seat ≡ record { call = record no_call { slot = slot }; size = nodes; room = 0 }) }
    {
        Ok(Seat {
            version: 0,
            caller: 0,
            slot,
            executing: false,
            evaluated: 0,
            wanted: NodeSet::new(alloc, nodes)?,
            open_nodes: NodeSet::new(alloc, nodes)?,
            changed: NodeSet::new(alloc, nodes)?,
            sets: Vec::new(alloc),
            looks: Vec::new(alloc),
            looked: Vec::new(alloc),
            call: Call::Read {
                looks: Items::new(alloc),
            },
            room: 0,
        })
    }

    pub(crate) fn version(&self) -> u32
        ensures { result ≡ self.now.call.version }
    {
        self.version
    }

    /// Whose the call is.
    pub fn caller(&self) -> u32
        ensures { result ≡ self.now.call.caller }
    {
        self.caller
    }

    /// The slot that the seat is of.
    pub fn slot(&self) -> u32
        ensures { result ≡ self.now.call.slot }
    {
        self.slot
    }

    /// Whether the call executes. Else it frames.
    pub fn executing(&self) -> bool
        ensures { result ≡ self.now.call.executing }
    {
        self.executing
    }

    /// The least node that the call wants.
    #[inline(always)]
    pub fn first_wanted(&self) -> Option<u32>
        ensures { result ≡ least self.now.call.wanted }
    {
        self.wanted.first()
    }

    /// Whether the call wants the node.
    pub fn wants(&self, node: u32) -> bool
        ensures { result ≡ is_in node self.now.call.wanted }
    {
        self.wanted.is_kept();
        node < self.wanted.size() && self.wanted.contains(node)
    }

    /// The least node that is open for the call.
    #[inline(always)]
    pub fn first_open(&self) -> Option<u32>
        ensures { result ≡ least self.now.call.open_nodes }
    {
        self.open_nodes.first()
    }

    /// The least node at or above one that is open for the call.
    pub fn next_open(&self, from: u32) -> Option<u32>
        ensures { result ≡ first_from from self.now.call.open_nodes }
    {
        self.open_nodes.next_from(from)
    }

    /// Whether the node is open for the call.
    pub fn opens(&self, node: u32) -> bool
        requires { node < self.now.size }
        ensures { result ≡ is_in node self.now.call.open_nodes }
    {
        self.open_nodes.contains(node)
    }

    /// Whether the call has changed one of some nodes.
    pub fn any_changed(&self, nodes: &[u32]) -> bool
        ensures { result ≡ list_any (λ n. is_in n self.now.call.changed) nodes.now }
    {
        nodes.iter().any(|node| self.has_changed(*node))
    }

    fn has_changed(&self, node: u32) -> bool
        ensures { result ≡ is_in node self.now.call.changed }
    {
        self.changed.is_kept();
        node < self.changed.size() && self.changed.contains(node)
    }

    /// The node that the call looks at next.
    pub fn next_look(&self) -> Option<u32>
        ensures { result ≡ slice_get self.now.call.looks (length self.now.call.looked) }
    {
        self.looks.as_slice().get(self.looked.len()).copied()
    }

    /// The last value that the call sets a node to. Of a node that it does not set a fault.
    pub fn set_value(&self, node: u32) -> Value
        ensures { result ≡ set_value node (values.Fault NoChoice) self.now.call.sets }
    {
        last_set(self.sets.as_slice(), node)
    }

    /// A call begins in a room. The counts of nodes change with what the seat wants. Answers what the last call set and looked at.
    pub(crate) fn begin(
        &mut self,
        version: u32,
        caller: u32,
        call: Call,
        room: Room,
        counts: &mut [u32],
    ) -> Lists
        requires sets { AreInside self.old.size room.sets }
        requires looks { length room.looks ≤ LOOKS }
        requires count_each { length counts.old ≡ self.old.size }
        requires counted { (n : ℕ) → one_if (is_in n self.old.call.wanted) ≤ count_at counts.old n }
        requires few { (n : ℕ) → count_at counts.old n ≤ MAX_CALLERS }
        ensures seat { self.new ≡ record {
          call = begun_call room caller version self.old.call.slot call;
          size = self.old.size;
          room = length room.looks;
        } }
        ensures count_each { length counts.new ≡ length counts.old }
        ensures counts { Follow counts.old self.old.call.wanted counts.new self.new.call.wanted }
    {
        let Room {
            lists,
            looked,
            nodes: _,
        } = room;
        let Lists { sets, looks } = lists;
        let look_room = looks.len() as u32;
        want_none(&mut self.wanted, counts);
        self.open_nodes.clear();
        self.changed.clear();
        want_all(sets.as_slice(), &mut self.wanted, counts);
        self.version = version;
        self.caller = caller;
        self.executing = sets.is_empty();
        self.evaluated = 0;
        self.looked = looked;
        self.call = call;
        self.room = look_room;
        Lists {
            sets: replace(&mut self.sets, sets),
            looks: replace(&mut self.looks, looks),
        }
    }

    /// The call ends, and the seat is free. Answers the call with its reply.
    pub(crate) fn end(&mut self) -> Logged
        ensures logged { result ≡ logged self.old.call }
        ensures version { self.new.call.version ≡ 0 }
        ensures slot { self.new.call.slot ≡ self.old.call.slot }
        ensures size { self.new.size ≡ self.old.size }
        ensures wanted { self.new.call.wanted ≡ self.old.call.wanted }
    {
        let alloc = *self.looks.allocator();
        let empty = Call::Read {
            looks: Items::new(alloc),
        };
        let caller = self.caller;
        let version = self.version;
        let call = replace(&mut self.call, empty);
        let looked = Items::from_vec(replace(&mut self.looked, Vec::new(alloc)));
        let reply = reply(&call, self.changed.len(), self.evaluated, looked);
        self.version = 0;
        self.room = 0;
        Logged {
            caller,
            version,
            call,
            reply,
        }
    }

    /// Opens a node that was wanted. Answers whether it was.
    pub(crate) fn open(&mut self, node: u32) -> bool
        requires { node < self.old.size }
        ensures seat { self.new ≡ with_seated self.old (opened_one node self.old.call) }
        ensures was_wanted { result ≡ is_in node self.old.call.wanted }
    {
        self.open_nodes.insert(node);
        self.wanted.remove(node)
    }

    /// Wants a node, unless it is open. Answers whether it was not wanted before, and is now.
    pub(crate) fn want(&mut self, node: u32) -> bool
        requires { node < self.old.size }
        ensures seat { self.new ≡ with_seated self.old (wanting node self.old.call) }
        ensures is_new { result ≡ (not (is_in node self.old.call.open_nodes) && not (is_in node self.old.call.wanted)) }
    {
        if self.open_nodes.contains(node) {
            return false;
        }
        self.wanted.insert(node)
    }

    /// Closes an open node, changed or not.
    pub(crate) fn close(&mut self, node: u32, changed: bool)
        requires { node < self.old.size }
        ensures { self.new ≡ with_seated self.old (closed node changed self.old.call) }
    {
        self.open_nodes.remove(node);
        if changed {
            self.changed.insert(node);
        }
    }

    pub(crate) fn start(&mut self)
        ensures { self.new ≡ with_seated self.old (started self.old.call) }
    {
        self.executing = true;
    }

    pub(crate) fn count(&mut self)
        requires { self.old.call.evaluated + 1 < 2 ^ 32 }
        ensures { self.new ≡ with_seated self.old (counted self.old.call) }
    {
        self.evaluated += 1;
    }

    pub(crate) fn look(&mut self, value: Value)
        requires { length self.old.call.looked < self.old.room }
        ensures { self.new ≡ with_seated self.old (with_look value self.old.call) }
    {
        self.looked.push_reserved(value);
    }
}

// The reply of a call.
fn reply(call: &Call, changed: u32, evaluated: u32, looks: ValueList) -> Reply
    ensures { result ≡ reply_with changed evaluated looks call.now }
{
    match call {
        Call::Fire { .. } => Reply::Fire {
            changed,
            evaluated,
            looks,
        },
        Call::Read { .. } => Reply::Read { looks },
    }
}

// The last value that a list of sets gives a node.
fn last_set(sets: &[(u32, Value)], node: u32) -> Value
    ensures { result ≡ set_value node (values.Fault NoChoice) sets.now }
{
    let mut last = Value::Fault(Fault::NoChoice);
    for (source, value) in sets {
        if *source == node {
            last = *value;
        }
    }
    last
}
