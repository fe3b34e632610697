// The run of all scripts, thread after thread.

ghost use Rattle.std.specs.Prelude.{◌≡◌, ◌<◌, ◌≤◌, ◌+◌, ◌^◌, ◌∷◌, [], ◌++◌, length, take, Some, None, IfOk, IfErr, OnOk, All};
ghost use Rattle.signal_graph.specs.Machine.{misnamed};
ghost use Rattle.signal_graph.specs.Named.{numbers_in};
ghost use Rattle.signal_graph.specs.Legal.{Legal, state_after, finals};
ghost use Rattle.signal_graph.specs.Values.{values};
ghost use Rattle.call_log.specs.LeftOut.{why_not, refusal};
ghost use Rattle.call_log.specs.Merge.{Merge};
ghost use Rattle.serial_machine.specs.Progress.{why_not_next, entry_of, called, all_called, all_run, nothing_yet};
ghost use Rattle.serial_machine.specs.Running.{IsWithinLimits};
ghost use Rattle.serial_machine.specs.SerialOrder.{made_in, serial_calls, CountsVersions};

use crate::count::count_calls;
use crate::machine::Machine;
use call_log::{Finished, Log, Logged, Refused, RefusedList, Why};
use script_tree::items::Items;
use script_tree::memory::OutOfMemory;
use signal_graph::call::{Call, CallList, Named, Scripts};
use signal_graph::graph::Graph;
use std::alloc::Global;
use std::marker::Model;

/// A run in its middle: the machine stands where the calls of the log have brought it.
#[derive(Drop)]
struct Run<'g> {
    alloc: Global,
    limit: u32,
    machine: Machine<'g>,
    log: Log,
    refused: RefusedList,
}

impl<'g> Model for Run<'g> {
    ghost use Rattle.std.specs.Prelude.{◌+◌, ◌<◌, ◌≤◌, ◌^◌, length};
    ghost use Rattle.std.specs.Coded.{codes};
    ghost use Rattle.script_tree.specs.TreeCode.{tree_code};
    ghost use Rattle.signal_graph.specs.Legal.{state_after};
    ghost use Rattle.serial_machine.specs.State.{IsAt};
    ghost use Rattle.serial_machine.specs.Running.{Running};

    ghost Value = { Running };

    ghost coded = { Prim.hlevel (codes, tree_code) };

    ghost view = { λ run. record {
      graph = run.machine.graph;
      limit = run.limit;
      capacity = length run.log.entries + run.log.spare;
      progress = record { log = run.log.entries; refused = run.refused };
    } };

    ghost invariant = { λ run. IsAt run.machine (state_after run.machine.graph run.log.entries) × (length run.log.entries ≤ run.limit)
        × (run.limit < 2 ^ 32) };
}

impl<'g> Run<'g> {
    /// A run that has not made a call, with room for so many.
    fn new(
        alloc: Global,
        graph: &'g Graph,
        limit: u32,
        capacity: u32,
    ) -> Result<Run<'g>, OutOfMemory>
        ensures { IfOk result (λ run. run ≡ record { graph = graph.now; limit = limit; capacity = capacity; progress = nothing_yet }) }
    {
        let machine = Machine::new(alloc, graph)?;
        let mut log = Log::new(alloc);
        log.reserve(capacity as usize)?;
        Ok(Run {
            alloc,
            limit,
            machine,
            log,
            refused: Items::new(alloc),
        })
    }

    /// The nodes that the next call names, or why it is not made.
    #[tactic(auto, using(crate::proofs::Runs::used_up, crate::proofs::Runs::has_room))]
    fn named(&self, call: &Call) -> Result<Named, Why>
        requires { IsWithinLimits call.now }
        ensures ok { IfOk result (λ named. named ≡ numbers_in self.now.graph call.now) }
        ensures none { OnOk result (why_not_next self.now.graph self.now.limit self.now.progress.log call.now ≡ None) }
        ensures some { IfErr result (λ why. why_not_next self.now.graph self.now.limit self.now.progress.log call.now ≡ Some why) }
    {
        match call.named_in(self.machine.graph()) {
            Err(place) => Err(Why::UnknownName(place)),
            Ok(named) => {
                if self.log.len() >= self.limit {
                    return Err(Why::VersionsUsedUp(self.limit));
                }
                Ok(named)
            }
        }
    }

    /// Makes a call that names these nodes, with the next version.
    fn make(&mut self, caller: u32, call: Call, named: &Named) -> Result<(), OutOfMemory>
        requires right { misnamed self.old.graph call ≡ None }
        requires named { named.now ≡ numbers_in self.old.graph call }
        requires below { length self.old.progress.log < self.old.limit }
        requires room { length self.old.progress.log < self.old.capacity }
        ensures graph { self.new.graph ≡ self.old.graph }
        ensures limit { self.new.limit ≡ self.old.limit }
        ensures capacity { OnOk result (self.new.capacity ≡ self.old.capacity) }
        ensures log { OnOk result (self.new.progress.log ≡ self.old.progress.log
            ++ entry_of self.old.graph caller self.old.progress.log call ∷ []) }
        ensures refused { self.new.progress.refused ≡ self.old.progress.refused }
    {
        let version = self.log.len() + 1;
        let reply = self.machine.step_named(&call, named)?;
        self.log.append(Logged {
            caller,
            version,
            call,
            reply,
        });
        Ok(())
    }

    /// Makes a call, or refuses it.
    #[tactic(auto, using(crate::proofs::Runs::is_named, crate::proofs::Runs::is_below, crate::proofs::Moving::fits_one_more))]
    fn call(&mut self, caller: u32, number: u32, call: Call) -> Result<(), OutOfMemory>
        requires within { IsWithinLimits call }
        requires room { length (called self.old.graph self.old.limit caller number call self.old.progress).log ≤ self.old.capacity }
        ensures graph { self.new.graph ≡ self.old.graph }
        ensures limit { self.new.limit ≡ self.old.limit }
        ensures capacity { OnOk result (self.new.capacity ≡ self.old.capacity) }
        ensures called { OnOk result (self.new.progress ≡ called self.old.graph self.old.limit caller number call self.old.progress) }
    {
        match self.named(&call) {
            Ok(named) => self.make(caller, call, &named),
            Err(why) => self.refused.push(Refused {
                caller,
                number,
                why,
            }),
        }
    }

    /// Makes or refuses all calls of a caller.
    fn call_all(&mut self, caller: u32, calls: CallList) -> Result<(), OutOfMemory>
        requires few { length calls < 2 ^ 32 }
        requires within { All IsWithinLimits calls }
        requires room { length (all_called self.old.graph self.old.limit caller 1 calls self.old.progress).log ≤ self.old.capacity }
        ensures graph { self.new.graph ≡ self.old.graph }
        ensures limit { self.new.limit ≡ self.old.limit }
        ensures capacity { OnOk result (self.new.capacity ≡ self.old.capacity) }
        ensures called { OnOk result (self.new.progress ≡ all_called self.old.graph self.old.limit caller 1 calls self.old.progress) }
    {
        let mut number = 0;
        for call in calls.into_vec() {
            number += 1;
            self.call(caller, number, call)?;
        }
        Ok(())
    }

    /// What the run leaves.
    fn finish(self) -> Finished
        ensures log { result.log.entries ≡ self.entry.progress.log }
        ensures refused { result.refused ≡ self.entry.progress.refused }
        ensures finals { result.finals ≡ finals self.entry.graph self.entry.progress.log }
    {
        let Run {
            machine,
            log,
            refused,
            ..
        } = self;
        Finished {
            finals: machine.into_values(),
            log,
            refused,
        }
    }
}

// A copy of calls.
fn copied_calls(alloc: Global, calls: &CallList) -> Result<CallList, OutOfMemory>
    ensures { IfOk result (λ copied. copied ≡ calls.now) }
{
    let mut copied = Items::new(alloc);
    for call in calls.as_slice() {
        copied.push(call.copy(alloc)?)?;
    }
    Ok(copied)
}

/// A copy of scripts. Takes memory.
pub fn copied_scripts(alloc: Global, scripts: &Scripts) -> Result<Scripts, OutOfMemory>
    ensures { IfOk result (λ copied. copied ≡ scripts.now) }
{
    let mut copied = Items::new(alloc);
    for calls in scripts.as_slice() {
        copied.push(copied_calls(alloc, calls)?)?;
    }
    Ok(copied)
}

/// Runs all calls of thread 1, then all of thread 2, and so on. The log has them in that order, with versions that count
/// from 1. A misnamed call is not made, and neither is a well-named one that finds `versions` calls made. Takes memory.
pub fn serial(
    alloc: Global,
    graph: &Graph,
    scripts: &Scripts,
    versions: u32,
) -> Result<Finished, OutOfMemory>
    requires few { length scripts.now < 2 ^ 32 }
    requires few_calls { All (λ calls. length calls < 2 ^ 32) scripts.now }
    requires within { All (All IsWithinLimits) scripts.now }
    ensures legal { IfOk result (λ run. Legal graph.now run.log.entries) }
    ensures merge { IfOk result (λ run. Merge graph.now scripts.now versions run.log.entries run.refused) }
    ensures calls { IfOk result (λ run. made_in run.log.entries ≡ take versions (serial_calls graph.now scripts.now)) }
    ensures versions { IfOk result (λ run. CountsVersions run.log.entries) }
    ensures finals { IfOk result (λ run. run.finals ≡ finals graph.now run.log.entries) }
{
    let scripts = copied_scripts(alloc, scripts)?;
    serial_owned(alloc, graph, scripts, versions)
}

/// The run of `serial` where the scripts are not needed any more: each call moves into the log, and the log's memory is
/// taken at once. Takes memory.
pub fn serial_owned(
    alloc: Global,
    graph: &Graph,
    scripts: Scripts,
    versions: u32,
) -> Result<Finished, OutOfMemory>
    requires few { length scripts < 2 ^ 32 }
    requires few_calls { All (λ calls. length calls < 2 ^ 32) scripts }
    requires within { All (All IsWithinLimits) scripts }
    ensures legal { IfOk result (λ run. Legal graph.now run.log.entries) }
    ensures merge { IfOk result (λ run. Merge graph.now scripts versions run.log.entries run.refused) }
    ensures calls { IfOk result (λ run. made_in run.log.entries ≡ take versions (serial_calls graph.now scripts)) }
    ensures versions { IfOk result (λ run. CountsVersions run.log.entries) }
    ensures finals { IfOk result (λ run. run.finals ≡ finals graph.now run.log.entries) }
{
    let count = count_calls(scripts.as_slice(), versions);
    let mut run = Run::new(alloc, graph, versions, count)?;
    let mut caller = 0;
    for calls in scripts.into_vec() {
        caller += 1;
        run.call_all(caller, calls)?;
    }
    Ok(run.finish())
}
