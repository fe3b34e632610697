// Calls of two threads at once.

ghost use Rattle.std.specs.Prelude.{◌≡◌};

use crate::board::readings;
use anyhow::Result;
use call_log::Finished;
use script_tree::items::Items;
use script_tree::limits::VERSIONS;
use signal_graph::graph::Graph;
use std::alloc::Global;
use std::sync::Wait;
use std::thread::Threads;
use worker_gate::{OpenGate, run_scripts};

/// One thread brings readings of the hall, and another one those of the lab. Answers which calls were made, in which order, and the
/// values of all nodes.
pub fn run<R: Threads + Wait + Sync>(rt: &R, alloc: Global, graph: &Graph) -> Result<Finished> {
    let mut scripts = Items::new(alloc);
    scripts.push(readings(alloc, "hall", &[20, 22, 27])?)?;
    scripts.push(readings(alloc, "lab", &[25, 24])?)?;
    Ok(run_scripts(rt, alloc, graph, &scripts, VERSIONS, &OpenGate)?)
}
