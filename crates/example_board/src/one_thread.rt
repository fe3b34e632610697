// Calls one after the other, each with its reply.

ghost use Rattle.std.specs.Prelude.{◌≡◌};
ghost use Rattle.flow_model.specs.Follows.Callers.{IsWithin};

use crate::board::readings;
use anyhow::{Result, ensure};
use script_tree::value::Value;
use serial_machine::Machine;
use signal_graph::call::{Call, Reply, ValueList};
use signal_graph::graph::Graph;
use std::alloc::Global;

// Makes a call that looks at the mean, and writes what its reply says.
fn make(rt: &impl Print, machine: &mut Machine, call: &Call) -> Result<()>
    requires { IsWithin call.now }
    ensures { machine.new.graph ≡ machine.old.graph }
{
    ensure!(
        call.misnamed(machine.graph()).is_none(),
        "a call with a wrong name"
    );
    if let Reply::Fire { changed, looks, .. } = machine.step(call)? {
        if let Some(Value::Int(mean)) = looks.as_slice().first() {
            println!(rt; "  {changed} nodes changed, and the mean is {mean}")?;
        }
    }
    Ok(())
}

/// Brings three readings of the hall, and answers the values of all nodes afterwards.
pub fn run(rt: &impl Print, alloc: Global, graph: &Graph) -> Result<ValueList> {
    let mut machine = Machine::new(alloc, graph)?;
    for call in readings(alloc, "hall", &[20, 22, 27])?.as_slice() {
        make(rt, &mut machine, call)?;
    }
    Ok(machine.into_values())
}
