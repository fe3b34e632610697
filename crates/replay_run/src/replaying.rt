// A replay in its middle.

ghost use Rattle.std.specs.Prelude.{◌≡◌, ◌<◌, ◌-◌, ◌≤◌, ◌^◌, ℕ, true, length, map, IfOk, OnOk, All};
ghost use Rattle.std.specs.List.{list_all};
ghost use Rattle.script_tree.specs.declared.limits.TheConstants.{THREADS, VERSIONS};
ghost use Rattle.flow_model.specs.Machine.Histories.{last_values};
ghost use Rattle.flow_model.specs.Machine.Lists.{is_empty};
ghost use Rattle.flow_model.specs.Machine.Schedules.{take_turn, take_turns, round_from, rounds, is_over, at_start, all_refused};
ghost use Rattle.flow_model.specs.Follows.Callers.{IsWithin};
ghost use Rattle.replay_run.specs.Replaying.{stage_of, play_of, new_caller, threads_of};
ghost use Rattle.replay_run.specs.Schedule.{names_thread};

use crate::caller::Caller;
use crate::turn::take_turn;
use call_log::Finished;
use interleave_core::Core;
use script_tree::items::Items;
use script_tree::memory::OutOfMemory;
use signal_graph::call::Scripts;
use signal_graph::graph::Graph;
use signal_graph::log::RefusedList;
use std::alloc::Global;
use std::marker::Model;

/// A replay in its middle. Contracts see its graph, and the play so far but for its moves.
#[derive(Drop)]
pub struct Replaying<'g> {
    core: Core<'g>,
    callers: Vec<Caller>,
}

impl<'g> Model for Replaying<'g> {
    ghost use Rattle.std.specs.Coded.{codes};
    ghost use Rattle.script_tree.specs.TreeCode.{tree_code};
    ghost use Rattle.replay_run.specs.Replaying.{Stage, AreCallers, threads_of};

    ghost Value = { Stage };

    ghost coded = { Prim.hlevel (codes, tree_code) };

    ghost view = { λ r. record { graph = r.core.graph; core = r.core.state; threads = threads_of r.callers.items } };

    ghost invariant = { λ r. AreCallers r.core.state r.callers.items };
}

impl<'g> Replaying<'g> {
    /// No call has begun, and each thread has all its calls left. Takes memory.
    pub fn new(
        alloc: Global,
        graph: &'g Graph,
        scripts: Scripts,
        versions: u32,
    ) -> Result<Replaying<'g>, OutOfMemory>
        requires some { 1 ≤ length scripts }
        requires few { length scripts ≤ THREADS }
        requires few_calls { All (λ calls. length calls < 2 ^ 32) scripts }
        requires within { All (All IsWithin) scripts }
        requires few_versions { versions ≤ VERSIONS }
        ensures { IfOk result (λ replaying. replaying ≡ stage_of graph.now (at_start graph.now scripts versions)) }
    {
        let core = Core::new(alloc, graph, scripts.len() as u32, versions)?;
        let callers = callers_of(alloc, scripts)?;
        Ok(Replaying { core, callers })
    }
}

impl Replaying<'_> {
    /// The turn of a thread, which counts from 0 here. Takes memory where a call begins or is refused.
    pub fn take_turn(&mut self, alloc: Global, thread: u32) -> Result<(), OutOfMemory>
        requires { thread < length self.old.threads }
        ensures graph { self.new.graph ≡ self.old.graph }
        ensures threads { length self.new.threads ≡ length self.old.threads }
        ensures turn { OnOk result (self.new ≡ stage_of self.old.graph (take_turn self.old.graph (play_of self.old) thread)) }
    {
        let caller = &mut self.callers[thread as usize];
        take_turn(alloc, &mut self.core, caller, thread + 1)
    }

    /// The turns of a schedule, each of whose numbers names a thread.
    pub fn take_turns(&mut self, alloc: Global, schedule: &[u32]) -> Result<(), OutOfMemory>
        requires { All (λ number. names_thread (length self.old.threads) number ≡ true) schedule.now }
        ensures graph { self.new.graph ≡ self.old.graph }
        ensures turns { OnOk result (self.new ≡ stage_of self.old.graph (take_turns self.old.graph (play_of self.old) schedule.now)) }
    {
        for number in schedule {
            self.take_turn(alloc, *number - 1)?;
        }
        Ok(())
    }

    // A turn of each thread, thread 1 first.
    fn round(&mut self, alloc: Global) -> Result<(), OutOfMemory>
        ensures graph { self.new.graph ≡ self.old.graph }
        ensures round { OnOk result (self.new ≡ stage_of self.old.graph (round_from self.old.graph 0 self.old.threads (play_of self.old))) }
    {
        for thread in 0..self.callers.len() as u32 {
            self.take_turn(alloc, thread)?;
        }
        Ok(())
    }

    // Whether no call is live or left.
    fn is_over(&self) -> bool
        ensures { result ≡ is_over (play_of self.now) }
    {
        self.core.book().live_len() == 0 && are_done(self.callers.as_slice())
    }

    /// Rounds until no call is live or left. They come to an end, within fewer than 2^64.
    pub fn finish_rounds(&mut self, alloc: Global) -> Result<(), OutOfMemory>
        requires { (more : ℕ) × (more < 2 ^ 64 - 1) × (is_over (rounds more self.old.graph (play_of self.old)) ≡ true) }
        ensures graph { self.new.graph ≡ self.old.graph }
        ensures over { OnOk result (is_over (play_of self.new) ≡ true) }
        ensures rounds { (more : ℕ) → is_over (rounds more self.old.graph (play_of self.old)) ≡ true
            → OnOk result (self.new ≡ stage_of self.old.graph (rounds more self.old.graph (play_of self.old))) }
    {
        for round in 0..u64::MAX {
            if self.is_over() {
                return Ok(());
            }
            self.round(alloc)?;
        }
        Ok(())
    }

    /// What a replay leaves that is over. Takes memory for the refused calls.
    pub fn finish(self, alloc: Global) -> Result<Finished, OutOfMemory>
        requires { is_over (play_of self) ≡ true }
        ensures log { IfOk result (λ run. run.log.entries ≡ self.entry.core.log) }
        ensures refused { IfOk result (λ run. run.refused ≡ all_refused self.entry.threads) }
        ensures values { IfOk result (λ run. run.finals ≡ last_values self.entry.core) }
    {
        let Replaying { core, callers } = self;
        let refused = refused_of(alloc, callers.as_slice())?;
        let (log, finals) = core.finish();
        Ok(Finished {
            log,
            finals,
            refused,
        })
    }
}

// What is kept of each thread before it has begun a call.
fn callers_of(alloc: Global, scripts: Scripts) -> Result<Vec<Caller>, OutOfMemory>
    requires few_calls { All (λ calls. length calls < 2 ^ 32) scripts }
    ensures { IfOk result (λ callers. callers.items ≡ map new_caller scripts) }
{
    let mut callers = Vec::with_capacity(alloc, scripts.len())?;
    for calls in scripts.into_vec() {
        callers.push(Caller::new(alloc, calls))?;
    }
    Ok(callers)
}

// Whether no thread has a call left.
fn are_done(callers: &[Caller]) -> bool
    ensures { result ≡ list_all (λ x. is_empty x.thread.left) callers.now }
{
    callers.iter().all(|caller| caller.is_done())
}

// The refused calls of all threads, by thread.
fn refused_of(alloc: Global, callers: &[Caller]) -> Result<RefusedList, OutOfMemory>
    ensures { IfOk result (λ refused. refused ≡ all_refused (threads_of callers.now)) }
{
    let mut refused = Items::new(alloc);
    for caller in callers {
        refused.extend_from_slice(caller.refused())?;
    }
    Ok(refused)
}
