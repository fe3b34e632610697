// What lies under the lock.

ghost use Rattle.std.specs.Prelude.{◌≡◌, ◌≢◌, ◌<◌, ◌≤◌, ◌^◌, ◌++◌, ◌∷◌, ◌+◌, suc, [], length, true, false, None, Some, option_map};
ghost use Rattle.std.specs.Prelude.{vec_capacity, ℕ, IfOk, IfErr, OnOk, OnErr};
ghost use Rattle.script_tree.specs.declared.limits.TheConstants.{THREADS, VERSIONS};
ghost use Rattle.node_set.specs.Members.{no_members, first_from};
ghost use Rattle.signal_graph.specs.Machine.{looks_of, looks_of_reply};
ghost use Rattle.chronicle.specs.Entries.{events};
ghost use Rattle.chronicle.specs.Keys.{is_out, out_with, out_without};
ghost use Rattle.flow_state.specs.Answers.{step_of, IsRight};
ghost use Rattle.flow_model.specs.declared.step.Step.TheVariants as step;
ghost use Rattle.flow_model.specs.declared.step.Turn.TheVariants as turns;
ghost use Rattle.flow_model.specs.Machine.State.{call, live};
ghost use Rattle.flow_model.specs.Machine.Steps.{allowed, can_begin, reply_of, IsEvaluationDue};
ghost use Rattle.flow_model.specs.Machine.Next.{next, next_at, why_not_ended};
ghost use Rattle.flow_model.specs.Machine.Histories.{Begin, Make, state, is_history};
ghost use Rattle.flow_model.specs.Follows.Callers.{IsWithin, count_begins};
ghost use Rattle.flow_model.specs.Follows.Others.{caller_of};
ghost use Rattle.interleave_core.specs.Beginning.{why_of};
ghost use Rattle.interleave_core.specs.Rooms.{IsRoomFor};
ghost use Rattle.sweeper.specs.Answers.{Begins, Starts, Advances, AdvancesAt, Finishes, Takes, HandsOut, plain_step};
ghost use Rattle.sweeper.specs.Answers.{refused_after, seen, stepped, handed_in};
ghost use Rattle.sweeper.specs.Ends.{Closes, HasAllPasses, Settles, EndsAt, fresh};
ghost use Rattle.caller_fronts.specs.Fronts.{IsLater};
ghost use Rattle.caller_fronts.specs.Jobs.{job_of, jobs_at};
ghost use Rattle.caller_fronts.specs.Keys.{key_for};
ghost use Rattle.caller_fronts.specs.Tokens.{IsIdle, IsTurnOf};
ghost use Rattle.sweeper.specs.Tokens.{HasLastReply, IsMet, met_at, last_of};

use crate::callers::CallerSet;
use crate::list::PassList;
use crate::luggage::{Luggage, first_luggage};
use crate::moment::Moment;
use crate::moves::{Answered, Beginning, Made, Move};
use crate::naming::Naming;
use crate::parking::Parking;
use crate::shared::Closed;
use crate::token::{Advance, Begun, Ended, Live, Pass};
use caller_fronts::laws::{
    beginnings_make_calls, ends_leave_callers_idle, histories_are_short, jobs_have_nodes,
    keys_tell_fronts, last_moves_are_seen, own_calls_stay, rests_are_at_ends, steps_keep_calls,
    tokens_stay, turns_are_of_calls,
};
use chronicle::{Note, Writer};
use flow_model::laws::{
    causes_are_exact, histories_are_lawful, logs_are_legal, logs_have_all_calls,
};
use flow_model::stored_laws::{histories_have_bounds, states_are_bounded};
use flow_model::{Cause, Step, Turn};
use flow_state::{Answer, JobRoom, Room};
use interleave_core::{Core, Refusal};
use script_tree::items::Items;
use script_tree::memory::OutOfMemory;
use script_tree::value::Value;
use signal_graph::call::{Call, Reply, ValueList};
use signal_graph::graph::Graph;
use std::alloc::Global;
use std::marker::{Model, PhantomData};
use std::snapshot::Snapshot;

/// The machine and its history. Contracts see the moves so far, the keys of callers that are out, and how many rooms are.
#[derive(Drop)]
pub(crate) struct Locked<'g, J: Naming> {
    core: Core<'g>,
    writer: Writer<Move>,
    // Which callers wait, and for what.
    parking: Parking,
    of: PhantomData<J>,
}

impl<'g, J: Naming> Model for Locked<'g, J> {
    ghost use Rattle.std.specs.Prelude.{◌≡◌};
    ghost use Rattle.chronicle.specs.Entries.{events};
    ghost use Rattle.sweeper.specs.Tokens.{Held};
    ghost use Rattle.sweeper.specs.Kept.{IsKept};

    ghost Value = { Held };

    ghost view = { λ l. record { moves = events l.writer.list; out = l.writer.out; rooms = l.core.rooms } };

    ghost invariant = { λ l. (l.writer.table ≡ J.table) × IsKept J.graph J.callers J.limit l.core l.writer.list };
}

/// A live call whose note was taken back.
pub(crate) struct Met {
    caller: u32,
    version: u32,
    luggage: Box<Luggage>,
}

/// What a call takes besides its room: a copy of it, and room for the looks of the reply that the caller gets. It is made before the
/// lock is taken.
#[derive(Drop)]
pub(crate) struct Prepared {
    call: Call,
    looks: Vec<Value>,
}

impl Prepared {
    /// The memory of the caller's last reply serves again.
    pub(crate) fn new(alloc: Global, last: Vec<Value>, call: &Call) -> Result<Prepared, OutOfMemory>
        ensures { IfOk result (λ p. (p.call ≡ call.now) × (p.looks.items ≡ []) × (length (looks_of call.now) ≤ vec_capacity p.looks)) }
    {
        let mut looks = last;
        looks.clear();
        looks.reserve(call.looks().len())?;
        let call = call.copy(alloc)?;
        Ok(Prepared { call, looks })
    }
}

impl<'g, J: Naming> Locked<'g, J> {
    pub(crate) fn new(
        alloc: Global,
        graph: &'g Graph,
        writer: Writer<Move>,
        callers: u32,
        versions: u32,
    ) -> Result<Locked<'g, J>, OutOfMemory>
        requires some { 1 ≤ callers }
        requires few { callers ≤ THREADS }
        requires versions { versions ≤ VERSIONS }
        requires named { (J.table ≡ writer.table) × (J.graph ≡ graph.now) × (J.callers ≡ callers) × (J.limit ≡ versions) }
        requires new { (writer.list ≡ []) × (writer.out ≡ []) }
        ensures { IfOk result (λ locked. locked ≡ record { moves = []; out = []; rooms = 0 }) }
    {
        rests_are_at_ends();
        let parking = Parking::new(alloc, callers)?;
        let core = Core::new(alloc, graph, callers, versions)?;
        Ok(Locked {
            core,
            writer,
            parking,
            of: PhantomData,
        })
    }

    /// The passes of all callers, which have seen nothing. Takes memory.
    pub(crate) fn first_passes(
        &mut self,
        alloc: Global,
        nodes: u32,
        callers: u32,
    ) -> Result<PassList<J>, OutOfMemory>
        requires callers { (callers ≡ J.callers) × (callers ≤ THREADS) }
        requires nodes { nodes ≡ length J.graph.nodes }
        requires first { (self.old.moves ≡ []) × (self.old.out ≡ []) }
        ensures { IfOk result (λ passes. passes ≡ fresh 1 callers) }
    {
        let _ = &self.core;
        let all = first_luggage(alloc, nodes, callers)?;
        let mut passes = PassList::new(alloc, callers as usize)?;
        let mut caller = 0;
        for luggage in all {
            caller += 1;
            passes.push(self.first_pass(caller, luggage));
        }
        Ok(passes)
    }

    // The pass of a caller that has seen nothing.
    fn first_pass(&mut self, caller: u32, luggage: Box<Luggage>) -> Pass<J>
        requires caller { (0 < caller) × (caller ≤ J.callers) }
        requires nodes { luggage.value.out ≡ no_members (length J.graph.nodes) }
        requires first { self.old.moves ≡ [] }
        requires free { is_out caller self.old.out ≡ false }
        ensures pass { result ≡ record { caller = caller; front = [] } }
        ensures after { self.new ≡ record self.old { out = out_with caller self.old.out } }
    {
        let note = self.note(caller);
        Pass {
            caller,
            note,
            luggage,
            of: PhantomData,
        }
    }

    /// How many moves were made.
    pub(crate) fn len(&self) -> u64
        ensures { result ≡ length self.now.moves }
    {
        self.writer.len()
    }

    /// The caller will sleep until what was noted to be in the way of its call is over. Where nothing was, or that is over already, it
    /// sleeps until there are more moves than it knows of.
    pub(crate) fn park(&mut self, caller: u32, known: u64)
        ensures { self.new ≡ self.old }
    {
        if !self.parking.waits(caller) && self.writer.len() <= known {
            self.parking.wait_for_any(caller);
        }
    }

    /// Whether the caller sleeps on: there are no more moves than it knows of, or something is in the way of its call.
    pub(crate) fn sleeps(&self, caller: u32, known: u64) -> bool
        ensures { result ≡ false → known < length self.now.moves }
    {
        if self.writer.len() <= known {
            return true;
        }
        self.parking.waits(caller)
    }

    /// Whether the last move lets any go on.
    #[inline(always)]
    pub(crate) fn is_any_freed(&self) -> bool {
        self.parking.is_any_freed()
    }

    /// Those that the last move lets go on.
    pub(crate) fn take_freed(&mut self) -> CallerSet
        ensures { self.new ≡ self.old }
    {
        self.parking.take_freed()
    }

    // Notes what is in the way of a caller's call, which there is no step for or which can't end.
    fn note_cause(&mut self, caller: u32, version: u32, cause: Cause)
        ensures { self.new ≡ self.old }
    {
        match cause {
            Cause::FramingBefore(before) => self.note_call(caller, before, Moment::Start),
            Cause::OpenBefore {
                node,
                version: first,
            } => {
                let before = self.nearest_frame(version, node).unwrap_or(first);
                self.note_call(caller, before, Moment::Done(node));
            }
            Cause::Before(before) => self.note_call(caller, before, Moment::End),
            _ => self.parking.forget(caller),
        }
    }

    // Notes that a call is in the way until it comes to this.
    fn note_call(&mut self, caller: u32, version: u32, what: Moment)
        ensures { self.new ≡ self.old }
    {
        let book = self.core.book();
        if book.live(version) {
            let whom = book.caller(version);
            self.parking.wait_for(caller, whom, what);
        } else {
            self.parking.forget(caller);
        }
    }

    // The call whose Frame is the nearest before a call's own entry at a node. Once that one is finished there, so are all before it.
    fn nearest_frame(&self, version: u32, node: u32) -> Option<u32> {
        if node >= self.core.book().nodes() {
            return None;
        }
        let list = self.core.list(node);
        let own = list.entry_of(version)?;
        for back in 0..own {
            let entry = list.get(own - 1 - back);
            if entry.state.is_frame() {
                return Some(entry.version);
            }
        }
        None
    }

    // Takes a note back: what it has not seen are moves that are not its caller's own.
    #[inline(always)]
    fn learn(&mut self, note: Note<Move>)
        requires table { note.table ≡ J.table }
        requires some { 0 < note.key }
        ensures later { IsLater J.graph J.callers J.limit note.key (events note.list) self.old.moves }
        ensures free { is_out note.key self.new.out ≡ false }
        ensures after { self.new ≡ record self.old { out = out_without note.key self.old.out } }
    {
        keys_tell_fronts();
        self.writer.retire(note);
    }

    // A note of a caller, with all moves so far.
    #[inline(always)]
    fn note(&mut self, caller: u32) -> Note<Move>
        requires { is_out caller self.old.out ≡ false }
        ensures note { (result.table ≡ J.table) × (result.key ≡ caller) × (events result.list ≡ self.old.moves) }
        ensures after { self.new ≡ record self.old { out = out_with caller self.old.out } }
    {
        self.writer.note(u64::from(caller))
    }

    // Makes a step of a caller, while some call lives.
    #[inline(always)]
    fn make(&mut self, caller: u32, step: Step)
        requires lives { (state J.graph J.callers J.limit self.old.moves).calls ≢ [] }
        requires allowed { allowed J.graph (state J.graph J.callers J.limit self.old.moves) step ≡ true }
        requires whose { caller_of (state J.graph J.callers J.limit self.old.moves) (Make step) ≡ key_for caller step }
        requires free { is_out caller self.old.out ≡ false }
        ensures { self.new ≡ record self.old { moves = self.old.moves ++ Make step ∷ [] } }
    {
        keys_tell_fronts();
        rests_are_at_ends();
        histories_are_short();
        let made = Made {
            caller: Snapshot::of(&caller),
            step: Snapshot::of(&step),
        };
        self.core.apply(step);
        self.writer.append(made);
        self.parking.stepped(caller, step);
    }

    /// Begins a call of an idle caller, of which a copy and room for the looks are made already, if there was memory.
    pub(crate) fn begin(
        &mut self,
        alloc: Global,
        pass: Pass<J>,
        call: &Call,
        prepared: Result<Prepared, OutOfMemory>,
    ) -> Begun<J>
        requires within { IsWithin call.now }
        requires copy { IfOk prepared (λ p. (p.call ≡ call.now) × (p.looks.items ≡ [])
            × (length (looks_of call.now) ≤ vec_capacity p.looks)) }
        ensures later { IsLater J.graph J.callers J.limit pass.caller pass.front self.old.moves }
        ensures answer { Begins J.graph J.callers J.limit pass call.now self.old.moves result }
    {
        tokens_stay();
        let Pass {
            caller,
            note,
            luggage,
            of: _,
        } = pass;
        self.learn(note);
        match self.admit(alloc, call) {
            Ok(room) => self.start(caller, luggage, prepared, room),
            Err(refusal) => Begun::Refused(self.pass(caller, luggage), refusal),
        }
    }

    // Whether a call may begin, and if so the room that it needs.
    fn admit(&mut self, alloc: Global, call: &Call) -> Result<Room, Refusal>
        requires { IsWithin call.now }
        ensures ok { OnOk result (self.new ≡ record self.old { rooms = suc self.old.rooms }) }
        ensures err { OnErr result (self.new ≡ self.old) }
        ensures room { IfOk result (IsRoomFor J.graph call.now) }
        ensures fits { OnOk result (refused_after J.graph J.limit call.now self.old.moves ≡ None) }
        ensures begins { OnOk result ((caller : ℕ) → IsIdle J.graph J.callers J.limit caller self.old.moves
            → can_begin J.graph (state J.graph J.callers J.limit self.old.moves) caller call.now ≡ true) }
        ensures why { IfErr result (λ refusal. why_of refusal ≡ refused_after J.graph J.limit call.now self.old.moves) }
    {
        beginnings_make_calls();
        histories_have_bounds();
        self.core.admit(alloc, call)
    }

    // The pass of a caller that has no live call.
    fn pass(&mut self, caller: u32, luggage: Box<Luggage>) -> Pass<J>
        requires idle { IsIdle J.graph J.callers J.limit caller self.old.moves }
        requires nodes { luggage.value.out ≡ no_members (length J.graph.nodes) }
        requires free { is_out caller self.old.out ≡ false }
        ensures pass { result ≡ record { caller = caller; front = self.old.moves } }
        ensures after { self.new ≡ record self.old { out = out_with caller self.old.out } }
    {
        let note = self.note(caller);
        Pass {
            caller,
            note,
            luggage,
            of: PhantomData,
        }
    }

    // A call of an idle caller that is admitted, unless there is no memory for it.
    fn start(
        &mut self,
        caller: u32,
        luggage: Box<Luggage>,
        prepared: Result<Prepared, OutOfMemory>,
        room: Room,
    ) -> Begun<J>
        requires idle { IsIdle J.graph J.callers J.limit caller self.old.moves }
        requires nodes { luggage.value.out ≡ no_members (length J.graph.nodes) }
        requires free { is_out caller self.old.out ≡ false }
        requires can { IfOk prepared (λ p. can_begin J.graph (state J.graph J.callers J.limit self.old.moves) caller p.call ≡ true) }
        requires looks { IfOk prepared (λ p. (p.looks.items ≡ []) × (length (looks_of p.call) ≤ vec_capacity p.looks)) }
        requires room { IfOk prepared (λ p. IsRoomFor J.graph p.call room) }
        requires rooms { 0 < self.old.rooms }
        ensures { Starts J.graph J.callers J.limit caller self.old.moves prepared result }
    {
        match prepared {
            Ok(prepared) => {
                let Prepared { call, looks } = prepared;
                Begun::Live(self.start_call(caller, luggage, looks, call, room))
            }
            Err(_) => {
                self.core.give_back(room);
                Begun::Refused(self.pass(caller, luggage), Refusal::Memory)
            }
        }
    }

    // The call begins.
    fn start_call(
        &mut self,
        caller: u32,
        luggage: Box<Luggage>,
        looks: Vec<Value>,
        call: Call,
        room: Room,
    ) -> Live<J>
        requires idle { IsIdle J.graph J.callers J.limit caller self.old.moves }
        requires nodes { luggage.value.out ≡ no_members (length J.graph.nodes) }
        requires free { is_out caller self.old.out ≡ false }
        requires can { can_begin J.graph (state J.graph J.callers J.limit self.old.moves) caller call ≡ true }
        requires looks { (looks.items ≡ []) × (length (looks_of call) ≤ vec_capacity looks) }
        requires room { IsRoomFor J.graph call room }
        requires rooms { 0 < self.old.rooms }
        ensures { result ≡ record {
          caller = caller;
          front = self.old.moves ++ Begin caller call ∷ [];
          version = suc (count_begins self.old.moves);
          out = [];
        } }
    {
        let _ = &self.core;
        beginnings_make_calls();
        let mut luggage = luggage;
        luggage.put_looks(looks);
        let version = self.make_beginning(caller, call, room);
        self.live(Met {
            caller,
            version,
            luggage,
        })
    }

    // Makes a beginning.
    fn make_beginning(&mut self, caller: u32, call: Call, room: Room) -> u32
        requires can { can_begin J.graph (state J.graph J.callers J.limit self.old.moves) caller call ≡ true }
        requires room { IsRoomFor J.graph call room }
        requires rooms { 0 < self.old.rooms }
        requires free { is_out caller self.old.out ≡ false }
        ensures version { result ≡ suc (count_begins self.old.moves) }
        ensures moves { self.new.moves ≡ self.old.moves ++ Begin caller call ∷ [] }
        ensures out { self.new.out ≡ self.old.out }
    {
        beginnings_make_calls();
        keys_tell_fronts();
        rests_are_at_ends();
        histories_are_short();
        let beginning = Beginning {
            caller: Snapshot::of(&caller),
            call: Snapshot::of(&call),
        };
        let version = self.core.begin(caller, call, room);
        self.writer.append(beginning);
        self.parking.moved(caller);
        version
    }

    /// Makes the step that comes next for a live call, or says why there is none, or gives the job that comes next.
    #[inline(always)]
    pub(crate) fn advance<'r>(&mut self, live: Live<J>, room: &'r mut JobRoom) -> Advance<'g, 'r, J>
        ensures later { IsLater J.graph J.callers J.limit live.caller live.front self.old.moves }
        ensures answer { Advances J.graph J.callers J.limit live self.old.moves result }
    {
        let met = self.meet(live);
        let turn = self.next(met.version);
        self.take(met, turn, room)
    }

    /// The same at a given node.
    pub(crate) fn advance_at<'r>(
        &mut self,
        live: Live<J>,
        node: u32,
        room: &'r mut JobRoom,
    ) -> Advance<'g, 'r, J>
        requires { node < length J.graph.nodes }
        ensures later { IsLater J.graph J.callers J.limit live.caller live.front self.old.moves }
        ensures answer { AdvancesAt J.graph J.callers J.limit live node self.old.moves result }
    {
        let met = self.meet(live);
        let turn = self.next_at(met.version, node);
        self.take(met, turn, room)
    }

    // What comes next for a live call.
    #[inline(always)]
    fn next(&self, version: u32) -> Turn
        requires { live (state J.graph J.callers J.limit self.now.moves) version ≡ true }
        ensures turn { result ≡ next J.graph (state J.graph J.callers J.limit self.now.moves) version }
        ensures of { IsTurnOf J.graph (state J.graph J.callers J.limit self.now.moves) version result }
    {
        turns_are_of_calls();
        histories_are_lawful();
        self.core.next(version)
    }

    // The same at a given node.
    fn next_at(&self, version: u32, node: u32) -> Turn
        requires live { live (state J.graph J.callers J.limit self.now.moves) version ≡ true }
        requires node { node < length J.graph.nodes }
        ensures turn { result ≡ next_at J.graph (state J.graph J.callers J.limit self.now.moves) version node }
        ensures of { IsTurnOf J.graph (state J.graph J.callers J.limit self.now.moves) version result }
    {
        turns_are_of_calls();
        histories_are_lawful();
        self.core.next_at(version, node)
    }

    // Takes the note of a live call back.
    #[inline(always)]
    fn meet(&mut self, live: Live<J>) -> Met
        ensures later { IsLater J.graph J.callers J.limit live.caller live.front self.old.moves }
        ensures met { IsMet J.graph J.callers J.limit result self.old.moves }
        ensures same { met_at J.graph J.callers J.limit result self.old.moves ≡ seen live self.old.moves }
        ensures nodes { jobs_at J.graph (state J.graph J.callers J.limit live.front) live.version result.luggage.value.out.nodes
            ≡ live.out }
        ensures free { is_out result.caller self.new.out ≡ false }
        ensures after { self.new ≡ record self.old { out = out_without live.caller self.old.out } }
    {
        let _ = &self.core;
        tokens_stay();
        let Live {
            caller,
            version,
            note,
            luggage,
            of: _,
        } = live;
        self.learn(note);
        Met {
            caller,
            version,
            luggage,
        }
    }

    // What a turn of a live call comes to.
    #[inline(always)]
    fn take<'r>(&mut self, met: Met, turn: Turn, room: &'r mut JobRoom) -> Advance<'g, 'r, J>
        requires met { IsMet J.graph J.callers J.limit met self.old.moves }
        requires free { is_out met.caller self.old.out ≡ false }
        requires turn { IsTurnOf J.graph (state J.graph J.callers J.limit self.old.moves) met.version turn }
        ensures { Takes J.graph J.callers J.limit (met_at J.graph J.callers J.limit met self.old.moves) turn result }
    {
        match turn {
            Turn::Step(step) => self.take_step(met, step, room),
            Turn::NotYet(cause) => Advance::NotYet(self.take_cause(met, cause), cause),
            Turn::Ready => Advance::Ready(self.live(met)),
        }
    }

    // A live call that has no step now. What is in its way is noted.
    fn take_cause(&mut self, met: Met, cause: Cause) -> Live<J>
        requires met { IsMet J.graph J.callers J.limit met self.old.moves }
        requires free { is_out met.caller self.old.out ≡ false }
        ensures { result ≡ met_at J.graph J.callers J.limit met self.old.moves }
    {
        self.note_cause(met.caller, met.version, cause);
        self.live(met)
    }

    // What a step that comes next comes to.
    #[inline(always)]
    fn take_step<'r>(&mut self, met: Met, step: Step, room: &'r mut JobRoom) -> Advance<'g, 'r, J>
        requires met { IsMet J.graph J.callers J.limit met self.old.moves }
        requires free { is_out met.caller self.old.out ≡ false }
        requires turn { IsTurnOf J.graph (state J.graph J.callers J.limit self.old.moves) met.version (turns.Step step) }
        ensures { Takes J.graph J.callers J.limit (met_at J.graph J.callers J.limit met self.old.moves) (turns.Step step) result }
    {
        match step {
            Step::Evaluate { node, .. } => self.hand_out(met, node, room),
            Step::Body { node, .. } => self.hand_out(met, node, room),
            _ => Advance::Stepped(self.step(met, step)),
        }
    }

    // A step of a live call that needs no job.
    #[inline(always)]
    fn step(&mut self, met: Met, step: Step) -> Live<J>
        requires met { IsMet J.graph J.callers J.limit met self.old.moves }
        requires free { is_out met.caller self.old.out ≡ false }
        requires turn { IsTurnOf J.graph (state J.graph J.callers J.limit self.old.moves) met.version (turns.Step step) }
        requires plain { plain_step (turns.Step step) ≡ Some step }
        ensures { result ≡ stepped (met_at J.graph J.callers J.limit met self.old.moves) step }
    {
        let _ = &self.core;
        steps_keep_calls();
        self.make(met.caller, step);
        self.live(met)
    }

    // The job of an evaluation that is due, unless it is out already.
    #[inline(always)]
    fn hand_out<'r>(&mut self, met: Met, node: u32, room: &'r mut JobRoom) -> Advance<'g, 'r, J>
        requires met { IsMet J.graph J.callers J.limit met self.old.moves }
        requires free { is_out met.caller self.old.out ≡ false }
        requires due { IsEvaluationDue J.graph (state J.graph J.callers J.limit self.old.moves) met.version node }
        ensures { HandsOut J.graph J.callers J.limit (met_at J.graph J.callers J.limit met self.old.moves) node result }
    {
        let _ = &self.core;
        jobs_have_nodes();
        steps_keep_calls();
        histories_are_lawful();
        let mut met = met;
        if met.luggage.is_out(node) {
            return Advance::NotYet(self.live(met), Cause::JobOut { node });
        }
        met.luggage.hand_out(node);
        let job = self.core.job(met.version, node, room);
        Advance::Evaluate(self.live(met), job)
    }

    // A live call that has seen all moves so far.
    #[inline(always)]
    fn live(&mut self, met: Met) -> Live<J>
        requires met { IsMet J.graph J.callers J.limit met self.old.moves }
        requires free { is_out met.caller self.old.out ≡ false }
        ensures live { result ≡ met_at J.graph J.callers J.limit met self.old.moves }
        ensures after { self.new ≡ record self.old { out = out_with met.caller self.old.out } }
    {
        let Met {
            caller,
            version,
            luggage,
        } = met;
        let note = self.note(caller);
        Live {
            caller,
            version,
            note,
            luggage,
            of: PhantomData,
        }
    }

    /// Hands in an answer.
    #[inline(always)]
    pub(crate) fn put(&mut self, live: Live<J>, answer: Answer) -> Live<J>
        requires { job_of answer.node live.out ≡ Some answer }
        ensures later { IsLater J.graph J.callers J.limit live.caller live.front self.old.moves }
        ensures answer { result ≡ handed_in (seen live self.old.moves) answer }
    {
        let met = self.meet(live);
        self.put_met(met, answer)
    }

    // Hands in an answer of a live call that has seen all moves.
    #[inline(always)]
    fn put_met(&mut self, met: Met, answer: Answer) -> Live<J>
        requires met { IsMet J.graph J.callers J.limit met self.old.moves }
        requires free { is_out met.caller self.old.out ≡ false }
        requires out { job_of answer.node (met_at J.graph J.callers J.limit met self.old.moves).out ≡ Some answer }
        ensures { result ≡ handed_in (met_at J.graph J.callers J.limit met self.old.moves) answer }
    {
        let _ = &self.core;
        jobs_have_nodes();
        steps_keep_calls();
        let mut met = met;
        met.luggage.take_back(answer.node);
        self.make_answer(met.caller, answer);
        self.live(met)
    }

    // Makes the step of an answer, while some call lives.
    #[inline(always)]
    fn make_answer(&mut self, caller: u32, answer: Answer)
        requires lives { (state J.graph J.callers J.limit self.old.moves).calls ≢ [] }
        requires allowed { allowed J.graph (state J.graph J.callers J.limit self.old.moves) (step_of answer) ≡ true }
        requires right { IsRight J.graph (state J.graph J.callers J.limit self.old.moves) answer }
        requires whose { caller_of (state J.graph J.callers J.limit self.old.moves) (Make (step_of answer)) ≡ caller }
        requires free { is_out caller self.old.out ≡ false }
        ensures { self.new ≡ record self.old { moves = self.old.moves ++ Make (step_of answer) ∷ [] } }
    {
        keys_tell_fronts();
        rests_are_at_ends();
        histories_are_short();
        let answered = Answered {
            caller: Snapshot::of(&caller),
            answer: Snapshot::of(&answer),
        };
        self.core.put(answer);
        self.writer.append(answered);
        self.parking.moved(caller);
    }

    /// The least node at or above one that is open for a live call.
    pub(crate) fn next_open(&mut self, live: Live<J>, from: u32) -> (Live<J>, Option<u32>)
        ensures later { IsLater J.graph J.callers J.limit live.caller live.front self.old.moves }
        ensures live { result.0 ≡ seen live self.old.moves }
        ensures node { result.1 ≡ first_from from (call (state J.graph J.callers J.limit self.old.moves) live.version).open_nodes }
    {
        let met = self.meet(live);
        let node = self.core.book().next_open(met.version, from);
        (self.live(met), node)
    }

    /// A live call sees all moves so far.
    pub(crate) fn see(&mut self, live: Live<J>) -> Live<J>
        ensures later { IsLater J.graph J.callers J.limit live.caller live.front self.old.moves }
        ensures live { result ≡ seen live self.old.moves }
        ensures after { self.new.moves ≡ self.old.moves }
    {
        let met = self.meet(live);
        self.live(met)
    }

    /// Ends a live call, or says why it can't end.
    pub(crate) fn end(&mut self, live: Live<J>) -> Ended<J>
        ensures later { IsLater J.graph J.callers J.limit live.caller live.front self.old.moves }
        ensures answer { Finishes J.graph J.callers J.limit live self.old.moves result }
    {
        causes_are_exact();
        let met = self.meet(live);
        match step_rules::why_not_ended(self.core.book(), met.version) {
            Some(cause) => {
                self.note_cause(met.caller, met.version, cause);
                Ended::NotYet(self.live(met), cause)
            }
            None => self.end_met(met),
        }
    }

    // Ends a live call that may end.
    fn end_met(&mut self, met: Met) -> Ended<J>
        requires met { IsMet J.graph J.callers J.limit met self.old.moves }
        requires free { is_out met.caller self.old.out ≡ false }
        requires none { why_not_ended (state J.graph J.callers J.limit self.old.moves) met.version ≡ None }
        requires allowed { allowed J.graph (state J.graph J.callers J.limit self.old.moves) (step.End met.version) ≡ true }
        ensures { Finishes J.graph J.callers J.limit (met_at J.graph J.callers J.limit met self.old.moves) self.old.moves result }
    {
        let _ = &self.core;
        ends_leave_callers_idle();
        steps_keep_calls();
        states_are_bounded();
        histories_are_lawful();
        let Met {
            caller,
            version,
            luggage,
        } = met;
        self.make(caller, Step::End { version });
        let mut luggage = luggage;
        let reply = self.last_reply(luggage.take_looks());
        Ended::Ended(self.pass(caller, luggage), reply)
    }

    // A copy of the last reply of the log, in the room that there is.
    fn last_reply(&self, looks: Vec<Value>) -> Reply
        requires empty { looks.items ≡ [] }
        requires room { HasLastReply (state J.graph J.callers J.limit self.now.moves).log (vec_capacity looks) }
        ensures { option_map (λ entry. entry.reply) (last_of (state J.graph J.callers J.limit self.now.moves).log) ≡ Some result }
    {
        let log = self.core.book().log();
        reply_in(&log.get(log.len() - 1).reply, looks)
    }

    // Takes passes back.
    fn settle(&mut self, passes: PassList<J>)
        ensures passes { Settles J.graph J.callers J.limit passes self.old.moves }
        ensures after { self.new.moves ≡ self.old.moves }
    {
        let mut passes = passes;
        match passes.take_first() {
            None => passes.spend(),
            Some(pass) => {
                let Pass {
                    caller: _,
                    note,
                    luggage: _,
                    of: _,
                } = pass;
                tokens_stay();
                self.learn(note);
                self.settle(passes);
            }
        }
    }

    /// The log and the last values, where the passes are those of all callers.
    pub(crate) fn close(self, passes: PassList<J>) -> Closed
        requires { HasAllPasses J.callers passes }
        ensures { Closes J.graph J.callers J.limit passes result.log.entries result.finals }
    {
        let _ = &self.core;
        ends_leave_callers_idle();
        last_moves_are_seen();
        logs_have_all_calls();
        own_calls_stay();
        let mut locked = self;
        locked.settle(passes);
        locked.finish()
    }

    // The log and the last values. No call lives.
    fn finish(self) -> Closed
        requires { (state J.graph J.callers J.limit self.moves).calls ≡ [] }
        ensures { EndsAt J.graph J.callers J.limit self.entry.moves result.log.entries result.finals }
    {
        logs_are_legal();
        let (log, finals) = self.core.finish();
        Closed { log, finals }
    }
}

// A copy of a reply, with its looks in the room that there is.
fn reply_in(reply: &Reply, room: Vec<Value>) -> Reply
    requires empty { room.items ≡ [] }
    requires room { length (looks_of_reply reply.now) ≤ vec_capacity room }
    ensures { result ≡ reply.now }
{
    match reply {
        Reply::Fire {
            changed,
            evaluated,
            looks,
        } => Reply::Fire {
            changed: *changed,
            evaluated: *evaluated,
            looks: values_in(looks.as_slice(), room),
        },
        Reply::Read { looks } => Reply::Read {
            looks: values_in(looks.as_slice(), room),
        },
    }
}

// A copy of values in the room that there is.
fn values_in(values: &[Value], room: Vec<Value>) -> ValueList
    requires empty { room.items ≡ [] }
    requires room { length values.now ≤ vec_capacity room }
    ensures { result ≡ values.now }
{
    let mut room = room;
    for value in values {
        room.push_reserved(*value);
    }
    Items::from_vec(room)
}
