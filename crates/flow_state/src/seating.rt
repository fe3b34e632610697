// The seats of live calls, and their recorded order.

ghost use Rattle.std.specs.Prelude.{◌≡◌, ◌≢◌, ◌==◌, ◌<◌, ◌≤◌, ◌+◌, ◌^◌, ℕ, true, false, [], length};
ghost use Rattle.std.specs.Prelude.{map, vec_capacity, slice_index_or, None, Some, IfOk, IfSome};
ghost use Rattle.std.specs.List.{range_with_len};
ghost use Rattle.script_tree.specs.declared.limits.TheConstants.{NODES, LOOKS};
ghost use Rattle.signal_graph.specs.Graph.{is_in};
ghost use Rattle.order_graph.specs.Order.{reaches, linked, is_recorded};
ghost use Rattle.flow_model.specs.Machine.State.{no_call, call_of};
ghost use Rattle.flow_model.specs.Machine.Changes.{closed};
ghost use Rattle.flow_model.specs.Machine.Steps.{started, counted, with_look, logged, free_slot, uses_slot};
ghost use Rattle.flow_model.specs.Machine.Next.{least_version};
ghost use Rattle.flow_state.specs.Booked.{AreInside, opened_one, wanting, begun_call};
ghost use Rattle.flow_state.specs.Seats.{find_call, has_call, on_live, stops_live, presses_live, pressed_live, before_live};
ghost use Rattle.flow_state.specs.Seats.{framing_before_live, LeadsToLive, with_pairs, one_call_more, slot_in};
ghost use Rattle.flow_state.specs.Seats.{has_version, AreAscending, free_seat, no_calls, left_calls, without_tenant};

use crate::counts::{is_unwanted, lower, raise};
use crate::room::{Lists, Room};
use crate::seat::Seat;
use node_set::NodeSet;
use order_graph::{MAX_CALLERS, OrderGraph};
use script_tree::limits::NODES;
use script_tree::memory::OutOfMemory;
use script_tree::value::Value;
use signal_graph::call::Call;
use signal_graph::log::Logged;
use std::alloc::Global;
use std::marker::Model;

// How many hints there are.
const HINTS: usize = 1024;

/// A live call, by its version and its slot.
#[derive(Clone, Copy, PartialEq, Eq, Debug)]
pub(crate) struct Tenant {
    pub(crate) version: u32,
    pub(crate) slot: u32,
}

/// The live calls in the order of their beginnings, each in the seat of its slot, and their recorded order. Only `new`
/// takes memory. `free` has the slots that no call has.
///
/// Hints tell by a version's last bits in which seat its call may sit, so that most calls are found without a walk.
/// `counts` has for each node how many seats want it, so that most nodes are told to be wanted by none in one read.
#[derive(Drop)]
pub(crate) struct Seating {
    callers: u32,
    nodes: u32,
    seats: Vec<Seat>,
    live: Vec<Tenant>,
    order: OrderGraph,
    hints: Vec<u16>,
    free: NodeSet,
    counts: Vec<u32>,
}

impl Model for Seating {
    ghost use Rattle.std.specs.Vec.{vec_capacity};
    ghost use Rattle.flow_state.specs.Seats.{LiveCalls, live_calls, IsSeating};

    ghost Value = { LiveCalls };

    ghost view = { λ s. live_calls s.callers s.nodes s.seats.items s.live.items s.order };

    ghost invariant = { λ s. IsSeating s.callers s.nodes (vec_capacity s.live) s.seats.items s.live.items s.order
        s.hints.items s.free s.counts.items };
}

impl Seating {
    /// The seats of so many callers, with sets for so many nodes. No call is live.
    pub(crate) fn new(alloc: Global, callers: u32, nodes: u32) -> Result<Seating, OutOfMemory>
        requires some { 0 < callers }
        requires few { callers ≤ MAX_CALLERS }
        requires nodes { nodes ≤ NODES }
        ensures { IfOk result (λ seating. seating ≡ no_calls callers nodes) }
    {
        let seats = free_seats(alloc, callers, nodes)?;
        let live = Vec::with_capacity(alloc, callers as usize)?;
        let order = OrderGraph::new(alloc, callers)?;
        let hints = vec![in alloc; 0; HINTS]?;
        let free = all_slots(alloc, callers)?;
        let counts = vec![in alloc; 0; nodes as usize]?;
        Ok(Seating {
            callers,
            nodes,
            seats,
            live,
            order,
            hints,
            free,
            counts,
        })
    }

    /// For how many nodes its sets are.
    pub(crate) fn nodes(&self) -> u32
        ensures { result ≡ self.now.nodes }
    {
        self.nodes
    }

    /// How many calls are live.
    pub(crate) fn len(&self) -> usize
        ensures { result ≡ length self.now.calls }
    {
        self.live.len()
    }

    /// How many callers there are.
    pub(crate) fn callers(&self) -> u32
        ensures { result ≡ self.now.callers }
    {
        self.callers
    }

    /// The version of a live call, by its place in the order of beginnings.
    pub(crate) fn version_at(&self, place: u32) -> u32
        requires { place < length self.now.calls }
        ensures version { result ≡ (slice_index_or self.now.calls place no_call).version }
        ensures call { call_of self.now.calls result ≡ Some (slice_index_or self.now.calls place no_call) }
    {
        self.live[place as usize].version
    }

    /// Whether the version is of a live call.
    pub(crate) fn has(&self, version: u32) -> bool
        ensures { result ≡ has_call self.now version }
    {
        if self.hinted(version).is_some() {
            return true;
        }
        has_version(self.live.as_slice(), version)
    }

    // The slot of a live call where the hint for its version is right. None too where it isn't.
    #[inline(always)]
    fn hinted(&self, version: u32) -> Option<u32>
        ensures live { IfSome result (λ slot. has_call self.now version ≡ true) }
        ensures slot { IfSome result (λ slot. slot ≡ (find_call self.now version).slot) }
    {
        let slot = self.hints[version as usize % HINTS] as u32;
        if version == 0 {
            return None;
        }
        if slot >= self.callers {
            return None;
        }
        let seat = &self.seats[slot as usize];
        if seat.version() == version {
            Some(slot)
        } else {
            None
        }
    }

    // The slot of a live call.
    #[inline(always)]
    fn slot_of(&self, version: u32) -> u32
        requires { has_call self.now version ≡ true }
        ensures { result ≡ (find_call self.now version).slot }
    {
        if let Some(slot) = self.hinted(version) {
            return slot;
        }
        slot_in(self.live.as_slice(), version)
    }

    /// The seat of a live call.
    #[inline(always)]
    pub(crate) fn seat(&self, version: u32) -> &Seat
        requires { has_call self.now version ≡ true }
        ensures call { result.now.call ≡ find_call self.now version }
        ensures size { result.now.size ≡ self.now.nodes }
    {
        let slot = self.slot_of(version);
        &self.seats[slot as usize]
    }

    /// The least slot that no live call has, or how many callers there are.
    pub(crate) fn free_slot(&self) -> u32
        ensures slot { result ≡ free_slot self.now.callers 0 self.now.calls }
        ensures free { result < self.now.callers → uses_slot result self.now.calls ≡ false }
    {
        self.free.is_kept();
        match self.free.first() {
            Some(slot) => slot,
            None => self.callers,
        }
    }

    /// A call begins in a room, with a version above those of all live calls, in the least free slot. Answers what the slot's last call
    /// set and looked at.
    pub(crate) fn begin(&mut self, version: u32, caller: u32, call: Call, room: Room) -> Lists
        requires some { 0 < version }
        requires newest { (t : ℕ) → has_call self.old t ≡ true → t < version }
        requires slot { free_slot self.old.callers 0 self.old.calls < self.old.callers }
        requires sets { AreInside self.old.nodes room.sets }
        requires looks { length room.looks ≤ LOOKS }
        ensures { self.new ≡ one_call_more self.old (begun_call room caller version (free_slot self.old.callers 0 self.old.calls) call) }
    {
        let slot = self.free_slot();
        self.live.push_reserved(Tenant { version, slot });
        let counts = self.counts.as_mut_slice();
        let last = self.seats[slot as usize].begin(version, caller, call, room, counts);
        self.hints[version as usize % HINTS] = slot as u16;
        self.free.remove(slot);
        last
    }

    /// Opens a node that the call wanted.
    pub(crate) fn open(&mut self, version: u32, node: u32)
        requires live { has_call self.old version ≡ true }
        requires node { node < self.old.nodes }
        ensures { self.new ≡ on_live self.old version (opened_one node) }
    {
        let slot = self.slot_of(version);
        let was_wanted = self.seats[slot as usize].open(node);
        lower(self.counts.as_mut_slice(), node, was_wanted);
    }

    /// The call wants a node, unless it is open for it.
    pub(crate) fn want(&mut self, version: u32, node: u32)
        requires live { has_call self.old version ≡ true }
        requires node { node < self.old.nodes }
        ensures { self.new ≡ on_live self.old version (wanting node) }
    {
        let slot = self.slot_of(version);
        let is_new = self.seats[slot as usize].want(node);
        raise(self.counts.as_mut_slice(), node, is_new);
    }

    /// Closes an open node, changed or not.
    pub(crate) fn close(&mut self, version: u32, node: u32, changed: bool)
        requires live { has_call self.old version ≡ true }
        requires node { node < self.old.nodes }
        ensures { self.new ≡ on_live self.old version (closed node changed) }
    {
        let slot = self.slot_of(version);
        self.seats[slot as usize].close(node, changed);
    }

    /// The call executes.
    pub(crate) fn start(&mut self, version: u32)
        requires { has_call self.old version ≡ true }
        ensures { self.new ≡ on_live self.old version started }
    {
        let slot = self.slot_of(version);
        self.seats[slot as usize].start();
    }

    /// The call has evaluated one more.
    pub(crate) fn count(&mut self, version: u32)
        requires live { has_call self.old version ≡ true }
        requires few { (find_call self.old version).evaluated + 1 < 2 ^ 32 }
        ensures { self.new ≡ on_live self.old version counted }
    {
        let slot = self.slot_of(version);
        self.seats[slot as usize].count();
    }

    /// The value of the call's next look.
    pub(crate) fn look(&mut self, version: u32, value: Value)
        requires live { has_call self.old version ≡ true }
        requires left { length (find_call self.old version).looked < length (find_call self.old version).looks }
        ensures { self.new ≡ on_live self.old version (with_look value) }
    {
        let slot = self.slot_of(version);
        self.seats[slot as usize].look(value);
    }

    /// Whether a chain of recorded pairs leads from one live call to another.
    pub(crate) fn reaches(&self, before: u32, after: u32) -> bool
        requires before { has_call self.now before ≡ true }
        requires after { has_call self.now after ≡ true }
        ensures { result ≡ reaches self.now.pairs before after }
    {
        let first = self.slot_of(before);
        let second = self.slot_of(after);
        self.order.precedes(first, second)
    }

    /// Whether one live call is a direct predecessor of another.
    fn is_before(&self, before: u32, after: u32) -> bool
        requires before { has_call self.now before ≡ true }
        requires after { has_call self.now after ≡ true }
        ensures { result ≡ is_recorded self.now.pairs before after }
    {
        let first = self.slot_of(before);
        let second = self.slot_of(after);
        is_pair(&self.order, first, second)
    }

    /// The version of a caller's live call, the least one if there were several.
    pub(crate) fn live_call(&self, caller: u32) -> Option<u32>
        ensures { result ≡ least_version (λ c. c.caller == caller) self.now.calls }
    {
        for index in 0..self.live.len() {
            let tenant = self.live[index];
            let seat = &self.seats[tenant.slot as usize];
            if seat.caller() == caller {
                return Some(tenant.version);
            }
        }
        None
    }

    /// The least version among the direct predecessors of a live call.
    pub(crate) fn first_before(&self, version: u32) -> Option<u32>
        requires { has_call self.now version ≡ true }
        ensures { result ≡ least_version (before_live self.now version) self.now.calls }
    {
        for index in 0..self.live.len() {
            let tenant = self.live[index];
            if self.is_before(tenant.version, version) {
                return Some(tenant.version);
            }
        }
        None
    }

    /// The least version among those direct predecessors of a live call that frame.
    pub(crate) fn first_framing_before(&self, version: u32) -> Option<u32>
        requires { has_call self.now version ≡ true }
        ensures { result ≡ least_version (framing_before_live self.now version) self.now.calls }
    {
        for index in 0..self.live.len() {
            let tenant = self.live[index];
            let seat = &self.seats[tenant.slot as usize];
            if self.frames_before(version, tenant.version, seat) {
                return Some(tenant.version);
            }
        }
        None
    }

    // Whether a call, in its seat, frames and is a direct predecessor of a live one.
    fn frames_before(&self, version: u32, other: u32, seat: &Seat) -> bool
        requires live { has_call self.now version ≡ true }
        requires other { has_call self.now other ≡ true }
        requires seat { seat.now.call.version ≡ other }
        ensures { result ≡ framing_before_live self.now version seat.now.call }
    {
        !seat.executing() && self.is_before(other, version)
    }

    /// Whether another call stops a live one: it comes behind that one, or frames while that one executes.
    pub(crate) fn stops(&self, version: u32, other: u32) -> bool
        requires { has_call self.now version ≡ true }
        ensures { result ≡ stops_live self.now version other }
    {
        self.leads_to_live();
        if !self.has(other) {
            return false;
        }
        if self.reaches(version, other) {
            return true;
        }
        self.seat(version).executing() && !self.seat(other).executing()
    }

    /// Whether an executing call behind a live one wants the node.
    pub(crate) fn pressed(&self, version: u32, node: u32) -> bool
        requires live { has_call self.now version ≡ true }
        ensures { result ≡ pressed_live self.now version node }
    {
        if is_unwanted(self.counts.as_slice(), node) {
            return false;
        }
        for index in 0..self.live.len() {
            let tenant = self.live[index];
            let seat = &self.seats[tenant.slot as usize];
            if self.presses(version, tenant.version, seat, node) {
                return true;
            }
        }
        false
    }

    /// The least version among the executing calls behind a live one that want the node.
    pub(crate) fn first_pressing(&self, version: u32, node: u32) -> Option<u32>
        requires live { has_call self.now version ≡ true }
        ensures { result ≡ least_version (presses_live self.now version node) self.now.calls }
    {
        if is_unwanted(self.counts.as_slice(), node) {
            return None;
        }
        for index in 0..self.live.len() {
            let tenant = self.live[index];
            let seat = &self.seats[tenant.slot as usize];
            if self.presses(version, tenant.version, seat, node) {
                return Some(tenant.version);
            }
        }
        None
    }

    // Whether a call, in its seat, executes, comes behind a live one and wants the node.
    fn presses(&self, version: u32, other: u32, seat: &Seat, node: u32) -> bool
        requires live { has_call self.now version ≡ true }
        requires other { has_call self.now other ≡ true }
        requires seat { seat.now.call.version ≡ other }
        ensures { result ≡ presses_live self.now version node seat.now.call }
    {
        if !seat.executing() || !seat.wants(node) {
            return false;
        }
        self.reaches(version, other)
    }

    /// What holds of all pairs: they are of live calls. Does nothing when it runs.
    fn leads_to_live(&self)
        ensures { LeadsToLive self.now }
    {
        let _ = &self.order;
    }

    /// Records that one live call comes before another, for a node.
    pub(crate) fn link(&mut self, before: u32, after: u32, node: u32)
        requires before { has_call self.old before ≡ true }
        requires after { has_call self.old after ≡ true }
        requires apart { before ≢ after }
        requires forward { reaches self.old.pairs after before ≡ false }
        ensures { self.new ≡ with_pairs self.old (linked self.old.pairs before after node) }
    {
        let first = self.slot_of(before);
        let second = self.slot_of(after);
        self.order.link(first, second, node);
    }

    /// A call that no call is recorded before ends. Answers it with its reply.
    pub(crate) fn end(&mut self, version: u32) -> Logged
        requires live { has_call self.old version ≡ true }
        requires first { (u : ℕ) → is_recorded self.old.pairs u version ≡ false }
        ensures left { self.new ≡ left_calls self.old version }
        ensures fewer { length self.new.calls + 1 ≡ length self.old.calls }
        ensures logged { result ≡ logged (find_call self.old version) }
    {
        let slot = self.slot_of(version);
        self.order.retire(slot);
        take_tenant(&mut self.live, version);
        self.free.insert(slot);
        self.seats[slot as usize].end()
    }
}

// Whether the pair of two slots is recorded.
fn is_pair(order: &OrderGraph, first: u32, second: u32) -> bool
    requires first { first < order.now.callers }
    requires second { second < order.now.callers }
    ensures { result ≡ is_recorded order.now.pairs first second }
{
    order.node_of(first, second).is_some()
}

// A free seat for each slot.
fn free_seats(alloc: Global, callers: u32, nodes: u32) -> Result<Vec<Seat>, OutOfMemory>
    requires { nodes ≤ NODES }
    ensures { IfOk result (λ seats. seats.items ≡ map (free_seat nodes) (range_with_len 0 callers)) }
{
    let mut seats = Vec::with_capacity(alloc, callers as usize)?;
    for slot in 0..callers {
        let seat = Seat::new(alloc, slot, nodes)?;
        seats.push(seat)?;
    }
    Ok(seats)
}

// The set of all slots.
fn all_slots(alloc: Global, callers: u32) -> Result<NodeSet, OutOfMemory>
    requires { callers ≤ NODES }
    ensures size { IfOk result (λ slots. slots.size ≡ callers) }
    ensures all { IfOk result (λ slots. (k : ℕ) → k < callers → is_in k slots.nodes ≡ true) }
{
    let mut slots = NodeSet::new(alloc, callers)?;
    for slot in 0..callers {
        slots.insert(slot);
    }
    Ok(slots)
}

// Takes out the tenant with this version.
fn take_tenant(live: &mut Vec<Tenant>, version: u32)
    ensures items { live.new.items ≡ without_tenant live.old.items version }
    ensures capacity { vec_capacity live.new ≡ vec_capacity live.old }
{
    live.retain(|tenant| tenant.version != version);
}

// Whether a call has this version. Versions ascend: those before the oldest call's are told by one look.
fn has_version(live: &[Tenant], version: u32) -> bool
    requires { AreAscending live.now }
    ensures { result ≡ has_version live.now version }
{
    for tenant in live {
        if tenant.version == version {
            return true;
        }
        if tenant.version > version {
            return false;
        }
    }
    false
}

// The slot of a version; 0 where it has none.
fn slot_in(live: &[Tenant], version: u32) -> u32
    ensures { result ≡ slot_in live.now version }
{
    for tenant in live {
        if tenant.version == version {
            return tenant.slot;
        }
    }
    0
}
