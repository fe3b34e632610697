// Replays of schedules.

ghost use Rattle.std.specs.Prelude.{◌≡◌, ◌<◌, ◌≤◌, ◌^◌, length, None, IfOk, IfErr, OnOk, All};
ghost use Rattle.script_tree.specs.declared.limits.TheConstants.{THREADS, VERSIONS};
ghost use Rattle.signal_graph.specs.Legal.{Legal, finals};
ghost use Rattle.call_log.specs.Merge.{Merge};
ghost use Rattle.flow_model.specs.Machine.Histories.{last_values};
ghost use Rattle.flow_model.specs.Machine.Schedules.{replayed, all_refused};
ghost use Rattle.flow_model.specs.Follows.Callers.{IsWithin};
ghost use Rattle.replay_run.specs.Faults.{place_of};
ghost use Rattle.replay_run.specs.Schedule.{first_unnamed};

use crate::fault::ReplayFault;
use crate::replaying::Replaying;
use crate::schedule::{ScheduleList, first_unnamed};
use call_log::Finished;
use deck_text::Deck;
use flow_model::laws::replays_are_merges;
use script_tree::memory::OutOfMemory;
use serial_machine::copied_scripts;
use signal_graph::call::Scripts;
use signal_graph::graph::Graph;
use std::alloc::Global;

/// What a schedule makes of a deck's calls, with at most so many versions: first each number's thread has a turn, in the order of the
/// schedule, and then rounds follow, in which each thread has a turn, thread 1 first, until no call is live or left. In a turn a thread
/// begins its next call, or that is refused; or its live call makes its next step, or ends, or can't go on and does nothing. The log is
/// legal, log and refused calls are a merge of the deck's calls, and the finals are the one-thread machine's after the log. Where a
/// number names no thread the fault tells the first such place, and nothing is done. Takes memory, waits for nobody.
pub fn replay(
    alloc: Global,
    deck: &Deck,
    schedule: &ScheduleList,
    versions: u32,
) -> Result<Finished, ReplayFault>
    requires few_versions { versions ≤ VERSIONS }
    requires few_numbers { length schedule.now < 2 ^ 32 }
    ensures log { IfOk result (λ run. run.log.entries ≡ (replayed deck.now.graph deck.now.scripts versions schedule.now).core.log) }
    ensures refused { IfOk result (λ run. run.refused
        ≡ all_refused (replayed deck.now.graph deck.now.scripts versions schedule.now).threads) }
    ensures values { IfOk result (λ run. run.finals ≡ last_values (replayed deck.now.graph deck.now.scripts versions schedule.now).core) }
    ensures legal { IfOk result (λ run. Legal deck.now.graph run.log.entries) }
    ensures merge { IfOk result (λ run. Merge deck.now.graph deck.now.scripts versions run.log.entries run.refused) }
    ensures finals { IfOk result (λ run. run.finals ≡ finals deck.now.graph run.log.entries) }
    ensures named { OnOk result (first_unnamed (length deck.now.scripts) schedule.now ≡ None) }
    ensures unnamed { IfErr result (λ fault. place_of fault ≡ first_unnamed (length deck.now.scripts) schedule.now) }
{
    let scripts = deck.scripts();
    if let Some(place) = first_unnamed(scripts.len() as u32, schedule.as_slice()) {
        return Err(ReplayFault::ScheduleNumber(place));
    }
    let scripts = copied_scripts(alloc, scripts)?;
    replay_owned(alloc, deck.graph(), scripts, schedule, versions)
}

/// The run of `replay` where the scripts are not needed any more: each call moves into the log. Takes memory, waits for nobody.
pub fn replay_owned(
    alloc: Global,
    graph: &Graph,
    scripts: Scripts,
    schedule: &ScheduleList,
    versions: u32,
) -> Result<Finished, ReplayFault>
    requires some { 1 ≤ length scripts }
    requires few { length scripts ≤ THREADS }
    requires few_calls { All (λ calls. length calls < 2 ^ 32) scripts }
    requires within { All (All IsWithin) scripts }
    requires few_versions { versions ≤ VERSIONS }
    requires few_numbers { length schedule.now < 2 ^ 32 }
    ensures log { IfOk result (λ run. run.log.entries ≡ (replayed graph.now scripts versions schedule.now).core.log) }
    ensures refused { IfOk result (λ run. run.refused ≡ all_refused (replayed graph.now scripts versions schedule.now).threads) }
    ensures values { IfOk result (λ run. run.finals ≡ last_values (replayed graph.now scripts versions schedule.now).core) }
    ensures legal { IfOk result (λ run. Legal graph.now run.log.entries) }
    ensures merge { IfOk result (λ run. Merge graph.now scripts versions run.log.entries run.refused) }
    ensures finals { IfOk result (λ run. run.finals ≡ finals graph.now run.log.entries) }
    ensures named { OnOk result (first_unnamed (length scripts) schedule.now ≡ None) }
    ensures unnamed { IfErr result (λ fault. place_of fault ≡ first_unnamed (length scripts) schedule.now) }
{
    if let Some(place) = first_unnamed(scripts.len() as u32, schedule.as_slice()) {
        return Err(ReplayFault::ScheduleNumber(place));
    }
    replays_are_merges();
    // With the number of nodes comes what every graph keeps.
    let _ = graph.len();
    let finished = run(alloc, graph, scripts, schedule.as_slice(), versions)?;
    Ok(finished)
}

// The replay of a schedule, each of whose numbers names a thread.
fn run(
    alloc: Global,
    graph: &Graph,
    scripts: Scripts,
    schedule: &[u32],
    versions: u32,
) -> Result<Finished, OutOfMemory>
    requires some { 1 ≤ length scripts }
    requires few { length scripts ≤ THREADS }
    requires few_calls { All (λ calls. length calls < 2 ^ 32) scripts }
    requires within { All (All IsWithin) scripts }
    requires few_versions { versions ≤ VERSIONS }
    requires named { first_unnamed (length scripts) schedule.now ≡ None }
    ensures log { IfOk result (λ run. run.log.entries ≡ (replayed graph.now scripts versions schedule.now).core.log) }
    ensures refused { IfOk result (λ run. run.refused ≡ all_refused (replayed graph.now scripts versions schedule.now).threads) }
    ensures values { IfOk result (λ run. run.finals ≡ last_values (replayed graph.now scripts versions schedule.now).core) }
{
    replays_are_merges();
    // With the number of nodes comes what every graph keeps.
    let _ = graph.len();
    let mut replaying = Replaying::new(alloc, graph, scripts, versions)?;
    replaying.take_turns(alloc, schedule)?;
    replaying.finish_rounds(alloc)?;
    replaying.finish(alloc)
}
