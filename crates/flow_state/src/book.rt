// The record of live calls.

ghost use Rattle.std.specs.Prelude.{◌≡◌, ◌≢◌, ℕ, [], ◌<◌, ◌≤◌, ◌+◌, ◌^◌, true, false, length, map};
ghost use Rattle.std.specs.Prelude.{slice_index, None, IfOk, IfErr, OnOk, OnErr, slice_get, Some};
ghost use Rattle.std.specs.List.{list_any, range_with_len};
ghost use Rattle.script_tree.specs.declared.limits.TheConstants.{THREADS, VERSIONS, SETS, LOOKS};
ghost use Rattle.std.specs.Option.{option_copied};
ghost use Rattle.script_tree.specs.declared.value.Value.TheVariants as values;
ghost use Rattle.script_tree.specs.declared.value.Fault.TheVariants.{NoChoice};
ghost use Rattle.signal_graph.specs.Graph.{is_in, node_at};
ghost use Rattle.signal_graph.specs.Machine.{sets_of, looks_of, misnamed};
ghost use Rattle.order_graph.specs.Order.{reaches, is_recorded};
ghost use Rattle.flow_model.specs.Machine.Sets.{least};
ghost use Rattle.flow_model.specs.Machine.State.{call_of, changes};
ghost use Rattle.flow_model.specs.Machine.Words.{gathered_of, set_value, presses, found_picks, picks_of_found};
ghost use Rattle.flow_model.specs.Machine.Changes.{closed};
ghost use Rattle.flow_model.specs.Machine.Steps.{sets_in, looks_in, started, counted, with_look, free_slot, is_framing_before};
ghost use Rattle.flow_model.specs.Machine.Schedules.{version_of};
ghost use Rattle.flow_model.specs.Machine.Next.{least_version};
ghost use Rattle.node_set.specs.Members.{first_from};
ghost use Rattle.flow_state.specs.Booked.{AreApart, AreInside, opened_book, room_at, one_room_more, one_room_less};
ghost use Rattle.flow_state.specs.Booked.{begin_call, end_call, call_in, live_in, next_look_in, node_count, work_at, stops_in};
ghost use Rattle.flow_state.specs.Booked.{on_call, on_work, link_calls, opened_one, wanting, pressed_in, call_nth};
ghost use Rattle.flow_model.specs.Parts.Books.{bare, no_work, with_gathered, with_found, with_body, forgotten};
ghost use Rattle.flow_state.specs.Found.{found_of, found_option};
ghost use Rattle.flow_state.specs.Jobs.{found_items, outcome_of, value_in, answer_in, IsJob};

use crate::found::Finding;
use crate::job::Job;
use crate::job_room::JobRoom;
use crate::outcome::Answer;
use crate::room::{Lists, Room};
use crate::seat::Seat;
use crate::seating::Seating;
use crate::shelf::Shelves;
use call_log::Log;
use script_tree::memory::OutOfMemory;
use script_tree::picks::Picks;
use script_tree::value::Value;
use signal_graph::call::Call;
use signal_graph::graph::Graph;
use std::alloc::Global;
use std::marker::Model;
use std::mem::replace;

/// The record of all live calls: what a state of interleaved calls has beside the lists of its nodes.
///
/// Contracts see such a state without its lists, how many rooms are out, and for how many gathered values each node has
/// room.
#[derive(Drop)]
pub struct Book {
    limit: u32,
    begun: u32,
    rooms: u32,
    spare: u32,
    calls: Seating,
    shelves: Shelves,
    log: Log,
    // What the last call of a seat set and looked at, whose memory serves for the next room.
    lists: Lists,
}

impl Model for Book {
    ghost use Rattle.flow_state.specs.Booked.{Booked};
    ghost use Rattle.flow_state.specs.Kept.{booked, IsKept};

    ghost Value = { Booked };

    ghost view = { λ b. booked b.limit b.begun b.rooms b.calls b.shelves b.log };

    ghost invariant = { λ b. IsKept b.limit b.begun b.rooms b.spare b.calls b.shelves b.log };
}

impl Book {
    /// The book of a graph before any call, for so many callers and versions. Takes all memory that it will need but
    /// for rooms.
    pub fn new(
        alloc: Global,
        graph: &Graph,
        callers: u32,
        versions: u32,
    ) -> Result<Book, OutOfMemory>
        requires some { 0 < callers }
        requires few { callers ≤ THREADS }
        requires versions { versions ≤ VERSIONS }
        ensures { IfOk result (λ book. book ≡ opened_book graph.now callers versions) }
    {
        let calls = Seating::new(alloc, callers, graph.len())?;
        let shelves = Shelves::new(alloc, graph)?;
        let log = Log::new(alloc);
        Ok(Book {
            limit: versions,
            begun: 0,
            rooms: 0,
            spare: 0,
            calls,
            shelves,
            log,
            lists: Lists::new(alloc),
        })
    }

    /// Takes all memory that a call will need, where its names are those of this graph's nodes, and of sources in sets. Answers else
    /// the place of the first name at fault, or none where there was no memory. The room has to be spent by the call's beginning, or
    /// given back.
    pub fn make_room(
        &mut self,
        alloc: Global,
        graph: &Graph,
        call: &Call,
    ) -> Result<Room, Option<u32>>
        requires sets { length (sets_of call.now) ≤ SETS }
        requires looks { length (looks_of call.now) ≤ LOOKS }
        ensures ok { OnOk result (self.new ≡ one_room_more self.old) }
        ensures err { OnErr result (self.new ≡ self.old) }
        ensures room { IfOk result (λ room. room ≡ record {
          sets = sets_in graph.now call.now;
          looks = looks_in graph.now call.now;
          nodes = node_count self.old;
        }) }
        ensures named { OnOk result (misnamed graph.now call.now ≡ None) }
        ensures misnamed { IfErr result (λ place. place ≡ misnamed graph.now call.now) }
    {
        let mut lists = replace(&mut self.lists, Lists::new(alloc));
        match lists.make_ready(call.sets().len(), call.looks().len()) {
            Ok(()) => {}
            Err(_) => return Err(call.misnamed(graph)),
        }
        if let Some(place) = call.named_into(graph, &mut lists.sets, &mut lists.looks) {
            self.lists = lists;
            return Err(Some(place));
        }
        match self.room_for(alloc, lists) {
            Ok(room) => Ok(room),
            Err(_) => Err(None),
        }
    }

    // The room of a call that sets and looks at this. Takes memory; where there is none the lists are dropped.
    fn room_for(&mut self, alloc: Global, lists: Lists) -> Result<Room, OutOfMemory>
        ensures ok { OnOk result (self.new ≡ one_room_more self.old) }
        ensures err { OnErr result (self.new ≡ self.old) }
        ensures room { IfOk result (λ room. room ≡ record {
          sets = lists.sets.items;
          looks = lists.looks.items;
          nodes = node_count self.old;
        }) }
    {
        let Some(rooms) = self.rooms.checked_add(1) else {
            return Err(OutOfMemory);
        };
        let looked = Vec::with_capacity(alloc, lists.looks.len())?;
        if self.spare == 0 {
            self.log.reserve_one()?;
        } else {
            self.spare -= 1;
        }
        self.rooms = rooms;
        Ok(Room {
            lists,
            looked,
            nodes: self.calls.nodes(),
        })
    }

    /// Takes a room back that was not used.
    pub fn give_back(&mut self, room: Room)
        requires { 0 < self.old.rooms }
        ensures { self.new ≡ one_room_less self.old }
    {
        let Room {
            lists,
            looked: _,
            nodes: _,
        } = room;
        let rooms = self.rooms - 1;
        self.lists = lists;
        self.rooms = rooms;
        self.spare = self.spare.saturating_add(1);
    }

    /// A call begins in a room, with the next version and in the least free slot. It sets and looks at what the room says.
    /// Answers its version.
    pub fn begin(&mut self, caller: u32, call: Call, room: Room) -> u32
        requires left { self.old.book.begun < self.old.book.limit }
        requires slot { free_slot self.old.book.callers 0 self.old.book.calls < self.old.book.callers }
        requires sets { AreInside (node_count self.old) room.sets }
        requires looks { length room.looks ≤ LOOKS }
        requires rooms { 0 < self.old.rooms }
        ensures book { self.new ≡ begin_call room self.old caller call }
        ensures version { result ≡ self.old.book.begun + 1 }
    {
        let version = self.begun + 1;
        let rooms = self.rooms - 1;
        self.lists = self.calls.begin(version, caller, call, room);
        self.begun = version;
        self.rooms = rooms;
        version
    }

    /// A live call that no call is recorded before joins the log with its reply, and its slot is free.
    pub fn end(&mut self, version: u32)
        requires live { live_in self.old version ≡ true }
        requires first { (u : ℕ) → is_recorded self.old.book.pairs u version ≡ false }
        ensures { self.new ≡ end_call self.old version }
    {
        let logged = self.calls.end(version);
        self.log.append(logged);
    }

    /// How many callers the book is for.
    pub fn callers(&self) -> u32
        ensures { result ≡ self.now.book.callers }
    {
        self.calls.callers()
    }

    /// How many versions the book is for.
    pub fn limit(&self) -> u32
        ensures { result ≡ self.now.book.limit }
    {
        self.limit
    }

    /// How many calls have begun, and so the version of the last that did. 0 before the first.
    pub fn begun(&self) -> u32
        ensures { result ≡ self.now.book.begun }
    {
        self.begun
    }

    /// How many nodes its graph has.
    pub fn nodes(&self) -> u32
        ensures { result ≡ node_count self.now }
    {
        self.calls.nodes()
    }

    /// The log of all calls that have ended.
    pub fn log(&self) -> &Log
        ensures { result.now.entries ≡ self.now.book.log }
    {
        &self.log
    }

    /// The log of all calls. No call is live any more.
    pub fn finish(self) -> Log
        requires { self.book.calls ≡ [] }
        ensures { result.entries ≡ self.book.log }
    {
        self.log
    }

    /// How many calls are live.
    pub fn live_len(&self) -> u32
        ensures { result ≡ length self.now.book.calls }
    {
        self.calls.len() as u32
    }

    /// The version of a live call, by its place in the order of beginnings, counted from 0.
    pub fn version_at(&self, place: u32) -> u32
        requires { place < length self.now.book.calls }
        ensures version { result ≡ (call_nth self.now place).version }
        ensures call { call_of self.now.book.calls result ≡ Some (call_nth self.now place) }
    {
        self.calls.version_at(place)
    }

    /// Whether the version is of a live call.
    pub fn live(&self, version: u32) -> bool
        ensures { result ≡ live_in self.now version }
    {
        self.calls.has(version)
    }

    /// The version of a caller's live call. None where it has none.
    pub fn live_call(&self, caller: u32) -> Option<u32>
        ensures { result ≡ version_of caller self.now.book.calls }
    {
        self.calls.live_call(caller)
    }

    /// The seat of a live call: where several questions are asked of one call, it is found once.
    #[inline(always)]
    pub fn seat(&self, version: u32) -> &Seat
        requires { live_in self.now version ≡ true }
        ensures call { result.now.call ≡ call_in self.now version }
        ensures size { result.now.size ≡ node_count self.now }
    {
        self.calls.seat(version)
    }

    /// Whose a live call is.
    pub fn caller(&self, version: u32) -> u32
        requires { live_in self.now version ≡ true }
        ensures { result ≡ (call_in self.now version).caller }
    {
        self.seat(version).caller()
    }

    /// The slot of a live call.
    pub fn slot(&self, version: u32) -> u32
        requires { live_in self.now version ≡ true }
        ensures { result ≡ (call_in self.now version).slot }
    {
        self.seat(version).slot()
    }

    /// Whether a live call executes. Else it frames.
    pub fn executes(&self, version: u32) -> bool
        requires { live_in self.now version ≡ true }
        ensures { result ≡ (call_in self.now version).executing }
    {
        self.seat(version).executing()
    }

    /// Whether a live call wants the node.
    pub fn wants(&self, version: u32, node: u32) -> bool
        requires { live_in self.now version ≡ true }
        ensures { result ≡ is_in node (call_in self.now version).wanted }
    {
        self.seat(version).wants(node)
    }

    /// Whether the node is open for a live call.
    pub fn opens(&self, version: u32, node: u32) -> bool
        requires live { live_in self.now version ≡ true }
        requires node { node < node_count self.now }
        ensures { result ≡ is_in node (call_in self.now version).open_nodes }
    {
        self.seat(version).opens(node)
    }

    /// Whether a live call has changed one of some nodes.
    pub fn any_changed(&self, version: u32, nodes: &[u32]) -> bool
        requires { live_in self.now version ≡ true }
        ensures { result ≡ list_any (changes (bare self.now.book) version) nodes.now }
    {
        self.seat(version).any_changed(nodes)
    }

    /// The least node that a live call wants.
    #[inline(always)]
    pub fn first_wanted(&self, version: u32) -> Option<u32>
        requires { live_in self.now version ≡ true }
        ensures { result ≡ least (call_in self.now version).wanted }
    {
        self.seat(version).first_wanted()
    }

    /// The least node that is open for a live call.
    #[inline(always)]
    pub fn first_open(&self, version: u32) -> Option<u32>
        requires { live_in self.now version ≡ true }
        ensures { result ≡ least (call_in self.now version).open_nodes }
    {
        self.seat(version).first_open()
    }

    /// The least node at or above one that is open for a live call.
    pub fn next_open(&self, version: u32, from: u32) -> Option<u32>
        requires { live_in self.now version ≡ true }
        ensures { result ≡ first_from from (call_in self.now version).open_nodes }
    {
        self.seat(version).next_open(from)
    }

    /// The node that a live call looks at next.
    pub fn next_look(&self, version: u32) -> Option<u32>
        requires { live_in self.now version ≡ true }
        ensures { result ≡ next_look_in self.now version }
    {
        self.seat(version).next_look()
    }

    /// The last value that a live call sets a node to. Of a node that it does not set a fault.
    pub fn set_value(&self, version: u32, node: u32) -> Value
        requires { live_in self.now version ≡ true }
        ensures { result ≡ set_value node (values.Fault NoChoice) (call_in self.now version).sets }
    {
        self.seat(version).set_value(node)
    }

    /// Whether a chain of recorded pairs leads from one live call to another.
    pub fn reaches(&self, before: u32, after: u32) -> bool
        requires before { live_in self.now before ≡ true }
        requires after { live_in self.now after ≡ true }
        ensures { result ≡ reaches self.now.book.pairs before after }
    {
        self.calls.reaches(before, after)
    }

    /// The least version among the direct predecessors of a live call.
    pub fn first_before(&self, version: u32) -> Option<u32>
        requires { live_in self.now version ≡ true }
        ensures { result ≡ least_version (λ c. is_recorded self.now.book.pairs c.version version) self.now.book.calls }
    {
        self.calls.first_before(version)
    }

    /// The least version among those direct predecessors of a live call that still frame.
    pub fn first_framing_before(&self, version: u32) -> Option<u32>
        requires { live_in self.now version ≡ true }
        ensures { result ≡ least_version (is_framing_before (bare self.now.book) version) self.now.book.calls }
    {
        self.calls.first_framing_before(version)
    }

    /// Whether another call stops a live one: it comes behind that one, or frames while that one executes.
    pub fn stops(&self, version: u32, other: u32) -> bool
        requires { live_in self.now version ≡ true }
        ensures { result ≡ stops_in self.now version other }
    {
        self.calls.stops(version, other)
    }

    /// Whether an executing call behind a live one wants the node.
    pub fn pressed(&self, version: u32, node: u32) -> bool
        requires live { live_in self.now version ≡ true }
        requires node { node < node_count self.now }
        ensures { result ≡ pressed_in self.now version node }
    {
        self.calls.pressed(version, node)
    }

    /// The least version among the executing calls behind a live one that want the node.
    pub fn first_pressing(&self, version: u32, node: u32) -> Option<u32>
        requires live { live_in self.now version ≡ true }
        ensures { result ≡ least_version (presses (bare self.now.book) version node) self.now.book.calls }
    {
        self.calls.first_pressing(version, node)
    }

    /// The value that is gathered of an input for a node.
    pub fn gathered(&self, node: u32, input: u32) -> Option<Value>
        requires { node < node_count self.now }
        ensures { result ≡ gathered_of input (work_at self.now node).gathered }
    {
        self.shelves.gathered(node, input)
    }

    /// The same, at once where the value was the one at this place, counted from 0, to be gathered for the node.
    pub fn gathered_near(&self, node: u32, place: u32, input: u32) -> Option<Value>
        requires { node < node_count self.now }
        ensures { result ≡ gathered_of input (work_at self.now node).gathered }
    {
        self.shelves.gathered_near(node, place, input)
    }

    /// What is found for a node.
    pub fn found(&self, node: u32) -> Option<&Finding>
        requires { node < node_count self.now }
        ensures { found_option (option_copied result) ≡ (work_at self.now node).found }
    {
        self.shelves.found(node)
    }

    /// What a node's selectors have picked, in their order; no picks where nothing is found. Takes no memory.
    pub fn found_picks(&self, node: u32) -> Picks
        requires { node < node_count self.now }
        ensures kept { result ≡ picks_of_found (work_at self.now node).found }
        ensures machine { result ≡ found_picks (bare self.now.book) node }
    {
        match self.found(node) {
            Some(finding) => finding.picks(),
            None => Picks::new(),
        }
    }

    /// The body's value for a node.
    pub fn body(&self, node: u32) -> Option<Value>
        requires { node < node_count self.now }
        ensures { result ≡ (work_at self.now node).body }
    {
        self.shelves.body(node)
    }

    /// The job of a node for a call, over a copy of what is gathered, in the room: of its scripts where nothing is found yet,
    /// else of its body. `acc` is the node's value before the call. Takes no memory.
    pub fn job<'g, 'r>(
        &self,
        graph: &'g Graph,
        version: u32,
        node: u32,
        acc: Value,
        room: &'r mut JobRoom,
    ) -> Job<'g, 'r>
        requires nodes { node_count self.now ≡ length graph.now.nodes }
        requires job { IsJob graph.now node (found_items (work_at self.now node).found) }
        requires few { length (work_at self.now node).gathered ≤ 68 }
        ensures { result ≡ answer_in graph.now self.now version node acc }
    {
        self.shelves.hold(node, room);
        room.version = version;
        room.node = node;
        room.acc = acc;
        Job { graph, room }
    }

    /// The answer of a node's job for a call, as `job` and `Job::evaluate` give it, over what is gathered as it stands.
    /// `acc` is the node's value before the call. Takes no memory.
    pub fn evaluate(&self, graph: &Graph, version: u32, node: u32, acc: Value) -> Answer
        requires nodes { node_count self.now ≡ length graph.now.nodes }
        requires job { IsJob graph.now node (found_items (work_at self.now node).found) }
        ensures { result ≡ answer_in graph.now self.now version node acc }
    {
        let outcome = self.shelves.outcome(node, graph.node(node), acc);
        Answer {
            version,
            node,
            outcome,
        }
    }

    /// The value that a node's script gives over what is gathered as it stands, where the node is no choose: then an answer with it is
    /// what `evaluate` gives before anything is found. `acc` is the node's value before a call. Takes no memory.
    pub fn script_value(&self, graph: &Graph, node: u32, acc: Value) -> Option<Value>
        requires nodes { node_count self.now ≡ length graph.now.nodes }
        requires job { IsJob graph.now node (found_items (work_at self.now node).found) }
        ensures { result ≡ value_in (outcome_of (node_at graph.now node) (work_at self.now node).gathered acc None) }
    {
        self.shelves.script_value(node, graph.node(node), acc)
    }

    /// A node that a live call has framed is open for it, and it wants the node no more.
    pub fn open(&mut self, version: u32, node: u32)
        requires live { live_in self.old version ≡ true }
        requires node { node < node_count self.old }
        ensures { self.new ≡ on_call self.old version (opened_one node) }
    {
        self.calls.open(version, node);
    }

    /// A live call comes to want a node, unless it is open for it.
    pub fn want(&mut self, version: u32, node: u32)
        requires live { live_in self.old version ≡ true }
        requires node { node < node_count self.old }
        ensures { self.new ≡ on_call self.old version (wanting node) }
    {
        self.calls.want(version, node);
    }

    /// A live call has finished at a node, changed or not.
    pub fn close(&mut self, version: u32, node: u32, changed: bool)
        requires live { live_in self.old version ≡ true }
        requires node { node < node_count self.old }
        ensures { self.new ≡ on_call self.old version (closed node changed) }
    {
        self.calls.close(version, node, changed);
    }

    /// A live call has framed all that it reaches, and executes.
    pub fn start(&mut self, version: u32)
        requires { live_in self.old version ≡ true }
        ensures { self.new ≡ on_call self.old version started }
    {
        self.calls.start(version);
    }

    /// A live call has evaluated one node more.
    pub fn count(&mut self, version: u32)
        requires live { live_in self.old version ≡ true }
        requires few { (call_in self.old version).evaluated + 1 < 2 ^ 32 }
        ensures { self.new ≡ on_call self.old version counted }
    {
        self.calls.count(version);
    }

    /// The value of a live call's next look.
    pub fn look(&mut self, version: u32, value: Value)
        requires live { live_in self.old version ≡ true }
        requires left { length (call_in self.old version).looked < length (call_in self.old version).looks }
        ensures { self.new ≡ on_call self.old version (with_look value) }
    {
        self.calls.look(version, value);
    }

    /// Records that one live call comes before another, for a node.
    pub fn link(&mut self, before: u32, after: u32, node: u32)
        requires before { live_in self.old before ≡ true }
        requires after { live_in self.old after ≡ true }
        requires apart { before ≢ after }
        requires forward { reaches self.old.book.pairs after before ≡ false }
        ensures { self.new ≡ link_calls self.old before after node }
    {
        self.calls.link(before, after, node);
    }

    /// The value of an input is kept for a node. None is gathered of this input, and there is room, if no two values are
    /// gathered of one input.
    pub fn gather(&mut self, node: u32, input: u32, value: Value)
        requires node { node < node_count self.old }
        requires new { gathered_of input (work_at self.old node).gathered ≡ None }
        requires room { AreApart (work_at self.old node).gathered
            → length (work_at self.old node).gathered < slice_index self.old.room_for node }
        ensures { self.new ≡ on_work self.old node (with_gathered input value) }
    {
        self.shelves.gather(node, input, value);
    }

    /// What is found for a node is kept.
    pub fn keep_found(&mut self, node: u32, found: Finding)
        requires { node < node_count self.old }
        ensures { self.new ≡ on_work self.old node (with_found (found_of found)) }
    {
        self.shelves.keep_found(node, found);
    }

    /// The body's value for a node is kept.
    pub fn keep_body(&mut self, node: u32, value: Value)
        requires { node < node_count self.old }
        ensures { self.new ≡ on_work self.old node (with_body value) }
    {
        self.shelves.keep_body(node, value);
    }

    /// What was gathered, found and evaluated for a node is forgotten.
    pub fn clear(&mut self, node: u32)
        requires { node < node_count self.old }
        ensures { self.new ≡ on_work self.old node forgotten }
    {
        self.shelves.clear(node);
    }
}
