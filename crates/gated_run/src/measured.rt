// What the run of a deck takes.

ghost use Rattle.std.specs.Prelude.{◌≡◌, ◌^◌, ◌<◌, ◌≤◌, [], length, All};
ghost use Rattle.script_tree.specs.declared.limits.TheConstants.{THREADS, VERSIONS};
ghost use Rattle.flow_model.specs.Follows.Callers.{IsWithin};

use crate::gate::YieldingGate;
use chronicle::Writer;
use script_tree::limits::VERSIONS;
use signal_graph::call::Scripts;
use signal_graph::graph::Graph;
use std::alloc::Global;
use std::marker::Brand;
use std::sync::Wait;
use std::thread::Threads;
use std::time::{Clock, Instant};
use sweeper::{Move, Naming, open_sweeper};
use worker_gate::run_over;

/// Microseconds of a run: of its calls alone, from the start of the threads to the end of the last, and of all with the opening
/// and the closing of the machine.
#[derive(Clone, Copy, PartialEq, Eq, Debug)]
pub struct Times {
    pub calls: u32,
    pub whole: u32,
}

/// Makes all calls of the scripts as the program does, and takes the time. None where there is no memory, or no clock.
pub fn measured<R: Threads + Wait + Clock + Sync>(
    rt: &R,
    alloc: Global,
    graph: &Graph,
    scripts: &Scripts,
    gate: &YieldingGate,
) -> Option<Times>
    requires some { 0 < length scripts.now }
    requires few { length scripts.now ≤ THREADS }
    requires few_calls { All (λ calls. length calls < 2 ^ 32) scripts.now }
    requires within { All (All IsWithin) scripts.now }
{
    let Ok(begun) = Instant::now(rt) else {
        return None;
    };
    let Ok(writer) = Writer::new(alloc) else {
        return None;
    };
    let calls = calls_named::<Brand, R>(rt, alloc, graph, writer, scripts, gate)?;
    let whole = since(rt, &begun)?;
    Some(Times { calls, whole })
}

// The microseconds of the calls, over the sweeper that the naming says. It is opened before them, and closed behind them.
fn calls_named<J: Naming + Send + Sync, R: Threads + Wait + Clock + Sync>(
    rt: &R,
    alloc: Global,
    graph: &Graph,
    writer: Writer<Move>,
    scripts: &Scripts,
    gate: &YieldingGate,
) -> Option<u32>
    requires some { 0 < length scripts.now }
    requires few { length scripts.now ≤ THREADS }
    requires few_calls { All (λ calls. length calls < 2 ^ 32) scripts.now }
    requires within { All (All IsWithin) scripts.now }
    requires named { (J.table ≡ writer.table) × (J.graph ≡ graph.now) × (J.callers ≡ length scripts.now) × (J.limit ≡ VERSIONS) }
    requires new { (writer.list ≡ []) × (writer.out ≡ []) }
{
    let callers = scripts.len() as u32;
    let Ok((sweeper, passes)) = open_sweeper::<J>(alloc, graph, writer, callers, VERSIONS) else {
        return None;
    };
    let begun = Instant::now(rt);
    let (passes, refused) = run_over(rt, alloc, &sweeper, passes, scripts, gate);
    let took = match begun {
        Ok(begun) => since(rt, &begun),
        Err(_) => None,
    };
    let _ = sweeper.close(passes);
    if refused.is_err() {
        return None;
    }
    took
}

// The microseconds since a moment. None where there is no clock.
fn since<R: Clock>(rt: &R, moment: &Instant) -> Option<u32> {
    match moment.elapsed(rt) {
        Ok(took) => Some(took.as_micros().min(u32::MAX as u128) as u32),
        Err(_) => None,
    }
}
