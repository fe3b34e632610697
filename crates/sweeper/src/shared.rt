// What threads share.

ghost use Rattle.std.specs.Prelude.{◌≡◌, ℕ, ◌<◌, ◌≤◌, List, [], length, Some, IfOk};
ghost use Rattle.script_tree.specs.declared.limits.TheConstants.{THREADS, VERSIONS};
ghost use Rattle.node_set.specs.Members.{first_from};
ghost use Rattle.signal_graph.specs.Machine.{sets_of, looks_of};
ghost use Rattle.flow_model.specs.Machine.State.{call};
ghost use Rattle.flow_model.specs.Machine.Histories.{Move as AnyMove, state};
ghost use Rattle.flow_model.specs.Follows.Callers.{IsWithin};
ghost use Rattle.sweeper.specs.Answers.{Begins, Advances, AdvancesAt, Finishes, seen, handed_in};
ghost use Rattle.sweeper.specs.Ends.{Closes, HasAllPasses, fresh};
ghost use Rattle.caller_fronts.specs.Fronts.{IsLater};
ghost use Rattle.caller_fronts.specs.Jobs.{job_of};

use crate::callers::Beds;
use crate::list::PassList;
use crate::locked::{Locked, Prepared};
use crate::moves::Move;
use crate::naming::Naming;
use crate::token::{Advance, Begun, Ended, Live, Pass};
use crate::weight::heavy_nodes;
use call_log::Log;
use chronicle::Writer;
use flow_state::{Answer, JobRoom};
use node_set::NodeSet;
use script_tree::memory::OutOfMemory;
use signal_graph::call::{Call, ValueList};
use signal_graph::graph::Graph;
use std::alloc::Global;
use std::sync::{Mutex, MutexGuard, Wait};

/// A graph's machine of interleaved calls, under one lock. Each of its calls that takes a pass or a live call locks once, and makes
/// at most one move; scripts are evaluated with no lock held. All moves are one history. What a call promises holds if it returns.
pub struct Sweeper<'g, J: Naming> {
    locked: Mutex<Locked<'g, J>>,
    beds: Beds,
    // The nodes whose evaluation takes long.
    heavy: NodeSet,
    // A lock that guards nothing, by which callers may take turns of many steps.
    turnstile: Mutex<()>,
}

/// What a sweeper is closed with: the calls that were made, in the order of their effect, and the values of all nodes afterwards.
#[derive(Drop)]
pub struct Closed {
    pub log: Log,
    pub finals: ValueList,
}

/// A sweeper over a graph before any call, for so many callers, 1 to 256, and versions, at most 4,000,000, with the pass of each
/// caller, 1 and so on. The writer is of a new history. Takes memory: with rooms for calls, all that there is.
pub fn open_sweeper<'g, J: Naming>(
    alloc: Global,
    graph: &'g Graph,
    writer: Writer<Move>,
    callers: u32,
    versions: u32,
) -> Result<(Sweeper<'g, J>, PassList<J>), OutOfMemory>
    requires some { 1 ≤ callers }
    requires few { callers ≤ THREADS }
    requires versions { versions ≤ VERSIONS }
    requires named { (J.table ≡ writer.table) × (J.graph ≡ graph.now) × (J.callers ≡ callers) × (J.limit ≡ versions) }
    requires new { (writer.list ≡ []) × (writer.out ≡ []) }
    ensures { IfOk result (λ opened. opened.1 ≡ fresh 1 callers) }
{
    let heavy = heavy_nodes(alloc, graph)?;
    let beds = Beds::new(alloc, callers)?;
    let mut locked = Locked::new(alloc, graph, writer, callers, versions)?;
    let passes = locked.first_passes(alloc, graph.len(), callers)?;
    let locked = Mutex::new(locked);
    let turnstile = Mutex::new(());
    Ok((
        Sweeper {
            locked,
            beds,
            heavy,
            turnstile,
        },
        passes,
    ))
}

impl<'g, J: Naming> Sweeper<'g, J> {
    /// Begins a call of an idle caller. It is refused for the first of its names that is unknown or not of a source; else where as many
    /// calls have begun as there are versions; else for want of memory alone. After a refusal nothing has changed. Takes all memory that
    /// the call will need. Locks.
    pub fn begin<R: Wait>(&self, rt: &R, alloc: Global, pass: Pass<J>, call: &Call) -> Begun<J>
        requires { IsWithin call.now }
        ensures { (f : List AnyMove) × IsLater J.graph J.callers J.limit pass.caller pass.front f
            × Begins J.graph J.callers J.limit pass call.now f result }
    {
        let mut pass = pass;
        let prepared = Prepared::new(alloc, pass.take_looks(), call);
        let mut locked = self.locked.lock(rt);
        let begun = locked.begin(alloc, pass, call, prepared);
        self.let_go(locked);
        begun
    }

    /// Makes the step that comes next for a live call, or says why there is none, or hands out the job of the evaluation that comes
    /// next. Such a job counts as out until its answer is put; the values that it is over lie in the room, so a second job that is out
    /// at the same time needs a room of its own. Locks. Takes no memory.
    #[inline(always)]
    pub fn advance<'r, R: Wait>(
        &self,
        rt: &R,
        live: Live<J>,
        room: &'r mut JobRoom,
    ) -> Advance<'g, 'r, J>
        ensures { (f : List AnyMove) × IsLater J.graph J.callers J.limit live.caller live.front f
            × Advances J.graph J.callers J.limit live f result }
    {
        let mut locked = self.locked.lock(rt);
        let advance = locked.advance(live, room);
        self.let_go(locked);
        advance
    }

    /// The same at a given node, which need not be the least open one.
    pub fn advance_at<'r, R: Wait>(
        &self,
        rt: &R,
        live: Live<J>,
        node: u32,
        room: &'r mut JobRoom,
    ) -> Advance<'g, 'r, J>
        requires { node < length J.graph.nodes }
        ensures { (f : List AnyMove) × IsLater J.graph J.callers J.limit live.caller live.front f
            × AdvancesAt J.graph J.callers J.limit live node f result }
    {
        let mut locked = self.locked.lock(rt);
        let advance = locked.advance_at(live, node, room);
        self.let_go(locked);
        advance
    }

    /// The least node at or above one that is open for a live call. None exactly where there is none. Makes no step. Locks. Takes no
    /// memory.
    pub fn next_open<R: Wait>(&self, rt: &R, live: Live<J>, from: u32) -> (Live<J>, Option<u32>)
        ensures { (f : List AnyMove) × IsLater J.graph J.callers J.limit live.caller live.front f
            × (result.0 ≡ seen live f)
            × (result.1 ≡ first_from from (call (state J.graph J.callers J.limit f) live.version).open_nodes) }
    {
        self.locked.lock(rt).next_open(live, from)
    }

    /// Hands in the answer of a job of a live call that is out: the step is made that its outcome names, and the job is out no more.
    /// Locks. Takes no memory.
    #[inline(always)]
    pub fn put<R: Wait>(&self, rt: &R, live: Live<J>, answer: Answer) -> Live<J>
        requires { job_of answer.node live.out ≡ Some answer }
        ensures { (f : List AnyMove) × IsLater J.graph J.callers J.limit live.caller live.front f
            × (result ≡ handed_in (seen live f) answer) }
    {
        let mut locked = self.locked.lock(rt);
        let live = locked.put(live, answer);
        self.let_go(locked);
        live
    }

    /// Ends a live call, and answers its reply; or says why it can't end now. Locks. Takes no memory.
    pub fn end<R: Wait>(&self, rt: &R, live: Live<J>) -> Ended<J>
        ensures { (f : List AnyMove) × IsLater J.graph J.callers J.limit live.caller live.front f
            × Finishes J.graph J.callers J.limit live f result }
    {
        let mut locked = self.locked.lock(rt);
        let ended = locked.end(live);
        self.let_go(locked);
        ended
    }

    /// Whether the scripts of a node take long to evaluate, so that a thread had better hold up nobody meanwhile. It is a hint, on which
    /// no answer rests; of a node that the graph does not have it is false. Takes no lock, and no memory.
    #[inline]
    pub fn is_heavy(&self, node: u32) -> bool {
        node < self.heavy.size() && self.heavy.contains(node)
    }

    /// A lock that guards nothing. Callers in threads may pass it one at a time, each for a stretch of steps: then they don't ask for
    /// the lock of each step at once, which would else go to another thread at each step. No call of a sweeper takes it.
    pub fn turnstile(&self) -> &Mutex<()> {
        &self.turnstile
    }

    /// Waits until a move was made that this caller has not seen. Where the caller's last `advance`, `advance_at` or `end` found another
    /// call in the way, and no step of its own came since, it waits until that one is out of the way: it has started, has finished at the
    /// node, or has ended. In a node's list that is the nearest call with a Frame before the caller's own entry. Makes no step. Locks,
    /// and may wait for others. Takes no memory.
    pub fn wait_for_growth<R: Wait>(&self, rt: &R, live: Live<J>) -> Live<J>
        ensures { (f : List AnyMove) × IsLater J.graph J.callers J.limit live.caller live.front f
            × (result ≡ seen live f) × (length live.front < length f) }
    {
        let known = live.seen();
        let caller = live.caller();
        let mut locked = self.locked.lock(rt);
        locked.park(caller, known);
        let mut locked = self
            .beds
            .of(caller)
            .wait_while(rt, locked, |locked| locked.sleeps(caller, known));
        locked.see(live)
    }

    // Lets the lock go, after a move that may have been in the way of others.
    #[inline(always)]
    fn let_go(&self, locked: MutexGuard<'_, Locked<'g, J>>) {
        if locked.is_any_freed() {
            self.wake(locked);
        } else {
            drop(locked);
        }
    }

    // Lets the lock go and wakes those that may go on. No lock is held by then, so none of them has to wait for it at once.
    #[cold]
    #[inline(never)]
    fn wake(&self, locked: MutexGuard<'_, Locked<'g, J>>) {
        let mut locked = locked;
        let freed = locked.take_freed();
        drop(locked);
        self.beds.wake(&freed);
    }

    /// Ends it: the log and the last values after the longest front of the passes, which are those of all its callers. Takes no memory.
    pub fn close(self, passes: PassList<J>) -> Closed
        requires { HasAllPasses J.callers passes }
        ensures { Closes J.graph J.callers J.limit passes result.log.entries result.finals }
    {
        let Sweeper {
            locked,
            beds: _,
            heavy: _,
            turnstile: _,
        } = self;
        locked.into_inner().close(passes)
    }
}
