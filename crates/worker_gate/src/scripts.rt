// A whole run.

ghost use Rattle.std.specs.Prelude.{◌≡◌, ◌^◌, ◌<◌, ◌≤◌, [], length, All, IfOk};
ghost use Rattle.script_tree.specs.declared.limits.TheConstants.{THREADS, VERSIONS};
ghost use Rattle.signal_graph.specs.Legal.{Legal, finals};
ghost use Rattle.call_log.specs.Merge.{Merge};
ghost use Rattle.flow_model.specs.Follows.Callers.{IsWithin};

use crate::gate::Gate;
use crate::run::run_over;
use call_log::Finished;
use chronicle::Writer;
use script_tree::memory::OutOfMemory;
use signal_graph::call::Scripts;
use signal_graph::graph::Graph;
use std::alloc::Global;
use std::marker::Brand;
use std::sync::Wait;
use std::thread::Threads;
use sweeper::{Closed, Move, Naming, open_sweeper};

/// Runs all scripts over one machine of a graph, each in a thread of its own; all threads have ended when this returns. There are 1 to
/// 256 scripts, and at most `versions` of their calls are made, which is at most 4,000,000.
///
/// The log is legal. Log and refused calls are a merge of the scripts: each caller's calls in the log are the first of its script's
/// well-named calls, in their order; they are all of them where all scripts together have no more than `versions`, else `versions`
/// calls are made; and the rest is listed as refused, by caller and then number. The values are those after the log, by the nodes'
/// numbers. Which merge it is rests on how the threads ran.
///
/// Before each evaluation a thread passes the gate. It holds no lock of the sweeper there, and no turn where the gate may wait. Takes
/// memory; where there was none at any point nothing of the run is handed out, and the graph and the scripts are as they were. Locks,
/// and may wait.
pub fn run_scripts<G: Gate, R: Threads + Wait + Sync>(
    rt: &R,
    alloc: Global,
    graph: &Graph,
    scripts: &Scripts,
    versions: u32,
    gate: &G,
) -> Result<Finished, OutOfMemory>
    requires some { 0 < length scripts.now }
    requires few { length scripts.now ≤ THREADS }
    requires few_calls { All (λ calls. length calls < 2 ^ 32) scripts.now }
    requires within { All (All IsWithin) scripts.now }
    requires versions { versions ≤ VERSIONS }
    ensures legal { IfOk result (λ run. Legal graph.now run.log.entries) }
    ensures merge { IfOk result (λ run. Merge graph.now scripts.now versions run.log.entries run.refused) }
    ensures finals { IfOk result (λ run. run.finals ≡ finals graph.now run.log.entries) }
{
    let writer = Writer::new(alloc)?;
    run_named::<Brand, G, R>(rt, alloc, graph, writer, scripts, versions, gate)
}

// The run over the sweeper that the naming says.
fn run_named<J: Naming + Send + Sync, G: Gate, R: Threads + Wait + Sync>(
    rt: &R,
    alloc: Global,
    graph: &Graph,
    writer: Writer<Move>,
    scripts: &Scripts,
    versions: u32,
    gate: &G,
) -> Result<Finished, OutOfMemory>
    requires some { 0 < length scripts.now }
    requires few { length scripts.now ≤ THREADS }
    requires few_calls { All (λ calls. length calls < 2 ^ 32) scripts.now }
    requires within { All (All IsWithin) scripts.now }
    requires versions { versions ≤ VERSIONS }
    requires named { (J.table ≡ writer.table) × (J.graph ≡ graph.now) × (J.callers ≡ length scripts.now) × (J.limit ≡ versions) }
    requires new { (writer.list ≡ []) × (writer.out ≡ []) }
    ensures legal { IfOk result (λ run. Legal graph.now run.log.entries) }
    ensures merge { IfOk result (λ run. Merge graph.now scripts.now versions run.log.entries run.refused) }
    ensures finals { IfOk result (λ run. run.finals ≡ finals graph.now run.log.entries) }
{
    let callers = scripts.len() as u32;
    let (sweeper, passes) = open_sweeper::<J>(alloc, graph, writer, callers, versions)?;
    let (passes, refused) = run_over(rt, alloc, &sweeper, passes, scripts, gate);
    let Closed { log, finals } = sweeper.close(passes);
    let refused = refused?;
    Ok(Finished {
        log,
        finals,
        refused,
    })
}
