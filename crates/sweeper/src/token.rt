// What a caller holds.

ghost use Rattle.std.specs.Prelude.{◌≡◌, length};

use crate::luggage::Luggage;
use crate::moves::Move;
use crate::naming::Naming;
use chronicle::Note;
use flow_model::Cause;
use flow_state::Job;
use interleave_core::Refusal;
use script_tree::value::Value;
use signal_graph::call::Reply;
use std::marker::{Model, PhantomData};

/// An idle caller of a sweeper. Contracts see its number, and its front: the moves that it has seen, a beginning of the sweeper's
/// history with all moves that are the caller's own. It must be spent: a call begins with it, or the sweeper is closed with it.
pub struct Pass<J: Naming> {
    pub(crate) caller: u32,
    pub(crate) note: Note<Move>,
    // No job of it is out.
    pub(crate) luggage: Box<Luggage>,
    pub(crate) of: PhantomData<J>,
}

impl<J: Naming> Model for Pass<J> {
    ghost use Rattle.std.specs.Prelude.{◌≡◌, length};
    ghost use Rattle.chronicle.specs.Entries.{events};
    ghost use Rattle.node_set.specs.Members.{no_members};
    ghost use Rattle.caller_fronts.specs.Tokens.{Idle, IsIdle};

    ghost Value = { Idle };

    ghost view = { λ p. record { caller = p.caller; front = events p.note.list } };

    ghost invariant = { λ p. (p.note.table ≡ J.table) × (p.note.key ≡ p.caller) × (p.luggage.value.out ≡ no_members (length J.graph.nodes))
        × IsIdle J.graph J.callers J.limit p.caller (events p.note.list) };
}

/// A caller of a sweeper within a call. Contracts see its number, its front as of a pass, the call's version, and the jobs of the
/// call that are out, each with its node and what it finds. It must be spent: the call ends with it.
pub struct Live<J: Naming> {
    pub(crate) caller: u32,
    pub(crate) version: u32,
    pub(crate) note: Note<Move>,
    // The nodes of the jobs that are out, and the room for the looks of the reply.
    pub(crate) luggage: Box<Luggage>,
    pub(crate) of: PhantomData<J>,
}

impl<J: Naming> Model for Live<J> {
    ghost use Rattle.std.specs.Prelude.{◌≡◌, ◌≤◌, [], length, vec_capacity};
    ghost use Rattle.chronicle.specs.Entries.{events};
    ghost use Rattle.signal_graph.specs.Machine.{looks_of};
    ghost use Rattle.flow_model.specs.Machine.State.{call};
    ghost use Rattle.flow_model.specs.Machine.Histories.{state};
    ghost use Rattle.caller_fronts.specs.Jobs.{jobs_at};
    ghost use Rattle.caller_fronts.specs.Tokens.{Going, IsGoing};

    ghost Value = { Going };

    ghost view = { λ l. record {
      caller = l.caller;
      front = events l.note.list;
      version = l.version;
      out = jobs_at J.graph (state J.graph J.callers J.limit (events l.note.list)) l.version l.luggage.value.out.nodes;
    } };

    ghost invariant = { λ l. (l.note.table ≡ J.table) × (l.note.key ≡ l.caller) × (l.luggage.value.out.size ≡ length J.graph.nodes)
        × IsGoing J.graph J.callers J.limit l.caller l.version l.luggage.value.out.nodes (events l.note.list)
        × (l.luggage.value.looks.items ≡ [])
        × (length (looks_of (call (state J.graph J.callers J.limit (events l.note.list)) l.version).call)
        ≤ vec_capacity l.luggage.value.looks) };
}

/// How a beginning went.
pub enum Begun<J: Naming> {
    /// The call lives.
    Live(Live<J>),
    /// It was refused, and nothing has changed.
    Refused(Pass<J>, Refusal),
}

/// What a live call came to.
pub enum Advance<'g, 'r, J: Naming> {
    /// A step was made.
    Stepped(Live<J>),
    /// A job is to be evaluated, and its answer handed in. No step was made.
    Evaluate(Live<J>, Job<'g, 'r>),
    /// There is no step now, for this reason.
    NotYet(Live<J>, Cause),
    /// Nothing is left but the call's end.
    Ready(Live<J>),
}

/// How an end went.
pub enum Ended<J: Naming> {
    /// The call has ended, with this reply.
    Ended(Pass<J>, Reply),
    /// It can't end now, for this reason.
    NotYet(Live<J>, Cause),
}

impl<J: Naming> Pass<J> {
    /// The caller's number, counted from 1. Takes no memory.
    pub fn caller(&self) -> u32
        ensures { result ≡ self.now.caller }
    {
        self.caller
    }

    /// The memory of a reply that is of no use any more serves for the caller's next one. Takes no memory.
    pub fn take_over(&mut self, reply: Reply)
        ensures { self.new ≡ self.old }
    {
        let looks = match reply {
            Reply::Fire { looks, .. } => looks,
            Reply::Read { looks } => looks,
        };
        self.luggage.put_looks(looks.into_vec());
    }

    /// Takes out the memory of the caller's last reply, where it was handed back.
    pub(crate) fn take_looks(&mut self) -> Vec<Value>
        ensures { self.new ≡ self.old }
    {
        self.luggage.take_looks()
    }
}

impl<J: Naming> Live<J> {
    /// The caller's number, counted from 1. Takes no memory.
    pub fn caller(&self) -> u32
        ensures { result ≡ self.now.caller }
    {
        self.caller
    }

    /// The call's version. Takes no memory.
    pub fn version(&self) -> u32
        ensures { result ≡ self.now.version }
    {
        self.version
    }

    /// How many moves the caller has seen. Takes no memory.
    pub fn seen(&self) -> u64
        ensures { result ≡ length self.now.front }
    {
        self.note.len()
    }
}
