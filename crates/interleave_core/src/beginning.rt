// A core begins, and calls begin in it.

ghost use Rattle.std.specs.Prelude.{◌≡◌, ◌<◌, ◌≤◌, suc, true, length, None, IfOk, IfErr, OnOk, OnErr};
ghost use Rattle.script_tree.specs.declared.limits.TheConstants.{THREADS, VERSIONS, SETS, LOOKS};
ghost use Rattle.signal_graph.specs.Machine.{sets_of, looks_of, misnamed};
ghost use Rattle.flow_model.specs.Machine.Steps.{can_begin};
ghost use Rattle.interleave_core.specs.Beginning.{AllCanBegin, refused_in, why_of};
ghost use Rattle.interleave_core.specs.Opening.{opened_core};
ghost use Rattle.interleave_core.specs.Rooms.{IsRoomFor, one_room_more, one_room_less, after_beginning};

use crate::core_state::Core;
use crate::opening::opening_lists;
use crate::refusal::Refusal;
use flow_model::laws::{lawful_stays, opening_is_lawful};
use flow_state::{Book, Room};
use framing::begin;
use script_tree::items::Items;
use script_tree::limits::SETS;
use script_tree::memory::OutOfMemory;
use signal_graph::call::Call;
use signal_graph::graph::Graph;
use std::alloc::Global;

impl<'g> Core<'g> {
    /// The core of a graph before any call, for so many callers, 1 to 256, and versions, at most 4,000,000. Takes all memory that
    /// it will need but for rooms. Goes over all candidates of the graph's nodes once.
    pub fn new(
        alloc: Global,
        graph: &'g Graph,
        callers: u32,
        versions: u32,
    ) -> Result<Core<'g>, OutOfMemory>
        requires some { 1 ≤ callers }
        requires few { callers ≤ THREADS }
        requires versions { versions ≤ VERSIONS }
        ensures { IfOk result (λ core. core ≡ opened_core graph.now callers versions) }
    {
        opening_is_lawful();
        let book = Book::new(alloc, graph, callers, versions)?;
        let lists = opening_lists(alloc, graph, callers)?;
        let finals = Vec::with_capacity(alloc, graph.len() as usize)?;
        Ok(Core {
            graph,
            book,
            lists,
            finals,
        })
    }
}

impl Core<'_> {
    /// Whether a call may begin now, and if so the room that it will need. It is refused for the first of its names that is unknown
    /// or not of a source, else for the limit of versions, else for want of memory. It takes all memory that the call will need.
    /// Nothing is said of its caller: each caller without a live call may begin it. Where it is refused the core is as it was.
    pub fn admit(&mut self, alloc: Global, call: &Call) -> Result<Room, Refusal>
        requires sets { length (sets_of call.now) ≤ SETS }
        requires looks { length (looks_of call.now) ≤ LOOKS }
        ensures ok { OnOk result (self.new ≡ one_room_more self.old) }
        ensures err { OnErr result (self.new ≡ self.old) }
        ensures room { IfOk result (IsRoomFor self.old.graph call.now) }
        ensures fits { OnOk result (refused_in self.old.graph self.old.state call.now ≡ None) }
        ensures begins { OnOk result (AllCanBegin self.old.graph self.old.state call.now) }
        ensures why { IfErr result (λ refusal. why_of refusal ≡ refused_in self.old.graph self.old.state call.now) }
    {
        let limit = self.book.limit();
        if self.book.begun() >= limit {
            return match call.misnamed(self.graph) {
                Some(place) => Err(Refusal::UnknownName(place)),
                None => Err(Refusal::VersionsUsedUp(limit)),
            };
        }
        match self.book.make_room(alloc, self.graph, call) {
            Ok(room) => Ok(room),
            Err(Some(place)) => Err(Refusal::UnknownName(place)),
            Err(None) => Err(Refusal::Memory),
        }
    }

    /// Takes all memory that a call will need which is within the limits and names in this graph what it has to; the room of any
    /// other call is for no names. The room has to be spent by the call's beginning, or given back. Where there is no memory the
    /// core is as it was.
    pub fn make_room(&mut self, alloc: Global, call: &Call) -> Result<Room, OutOfMemory>
        requires { length (looks_of call.now) ≤ LOOKS }
        ensures ok { OnOk result (self.new ≡ one_room_more self.old) }
        ensures err { OnErr result (self.new ≡ self.old) }
        ensures room { length (sets_of call.now) ≤ SETS → misnamed self.old.graph call.now ≡ None
            → IfOk result (IsRoomFor self.old.graph call.now) }
    {
        if call.sets().len() > SETS {
            return self.room_for_no_names(alloc);
        }
        let made = self.book.make_room(alloc, self.graph, call);
        match made {
            Ok(room) => Ok(room),
            Err(Some(_)) => self.room_for_no_names(alloc),
            Err(None) => Err(OutOfMemory),
        }
    }

    // The room of a call that sets nothing and looks at nothing.
    fn room_for_no_names(&mut self, alloc: Global) -> Result<Room, OutOfMemory>
        ensures ok { OnOk result (self.new ≡ one_room_more self.old) }
        ensures err { OnErr result (self.new ≡ self.old) }
    {
        let nothing = Call::Read {
            looks: Items::new(alloc),
        };
        match self.book.make_room(alloc, self.graph, &nothing) {
            Ok(room) => Ok(room),
            Err(_) => Err(OutOfMemory),
        }
    }

    /// Takes a room back that was not used. Takes no memory.
    pub fn give_back(&mut self, room: Room)
        requires { 0 < self.old.rooms }
        ensures { self.new ≡ one_room_less self.old }
    {
        self.book.give_back(room);
    }

    /// A call of a caller begins, in a room that was made for it. It has the next version, which is the answer, and the least free
    /// slot. Takes no memory.
    pub fn begin(&mut self, caller: u32, call: Call, room: Room) -> u32
        requires can { can_begin self.old.graph self.old.state caller call ≡ true }
        requires room { IsRoomFor self.old.graph call room }
        requires rooms { 0 < self.old.rooms }
        ensures state { self.new ≡ after_beginning self.old caller call }
        ensures version { result ≡ suc self.old.state.begun }
    {
        lawful_stays();
        begin(&mut self.book, caller, call, room)
    }
}
