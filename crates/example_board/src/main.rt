//! How to use FrameSweep as a library: a board of two rooms, whose readings one thread brings, and then two threads at once.
#![tactic(auto)]

mod board;
mod one_thread;
mod two_threads;

use anyhow::Result;
use board::two_rooms;
use script_tree::value::Value;
use signal_graph::graph::Graph;

// Writes the name and the value of each node.
fn show(rt: &impl Print, graph: &Graph, values: &[Value]) -> Result<()> {
    for node in 0..graph.len() {
        if let Some(Value::Int(number)) = values.get(node as usize) {
            println!(rt; "  {} = {number}", graph.name(node).as_str())?;
        }
    }
    Ok(())
}

fn main(rt: HostRuntime) -> Result<()> {
    let graph = two_rooms(rt.alloc())?;
    println!(rt; "one thread")?;
    let finals = one_thread::run(&rt, rt.alloc(), &graph)?;
    show(&rt, &graph, finals.as_slice())?;
    println!(rt; "two threads")?;
    let run = two_threads::run(&rt, rt.alloc(), &graph)?;
    show(&rt, &graph, run.finals.as_slice())?;
    println!(rt; "  {} fires, {} refused", run.log.len(), run.refused.len())?;
    Ok(())
}
