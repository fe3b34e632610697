// The calls of the workload's threads.

ghost use Rattle.std.specs.Prelude.{◌≡◌, ◌<◌, ◌∷◌, [], pos, map, IfOk, OnOk};
ghost use Rattle.script_tree.specs.declared.value.Value.TheVariants as value;
ghost use Rattle.separate_decks.specs.Draws.{skip, draw};
ghost use Rattle.separate_decks.specs.Workload.{name_of, call_of, draws_of_call, calls_of, state_after_calls, threads};

use crate::draws::Draws;
use crate::naming::{node_name, one_name};
use script_tree::memory::OutOfMemory;
use script_tree::value::Value;
use signal_graph::call::{Call, CallList, Scripts, SetList};
use std::alloc::Global;

/// How many threads there are, and how many calls each makes.
const THREADS: u32 = 8;

const CALLS: u32 = 500;

fn one_set(alloc: Global, source: u32, number: u32) -> Result<SetList, OutOfMemory>
    requires { source < 216 }
    ensures { IfOk result (λ sets. sets ≡ (name_of source, value.Int (pos number)) ∷ []) }
{
    let mut sets = SetList::new(alloc);
    sets.push((node_name(alloc, source)?, Value::Int(number as i64)))?;
    Ok(sets)
}

fn fire(alloc: Global, source: u32, number: u32, look: u32) -> Result<Call, OutOfMemory>
    requires source { source < 216 }
    requires look { look < 216 }
    ensures { IfOk result (λ call. call ≡ Call.Fire ((name_of source, value.Int (pos number)) ∷ []) (name_of look ∷ [])) }
{
    let sets = one_set(alloc, source, number)?;
    let looks = one_name(alloc, look)?;
    Ok(Call::Fire { sets, looks })
}

fn read(alloc: Global, look: u32) -> Result<Call, OutOfMemory>
    requires { look < 216 }
    ensures { IfOk result (λ call. call ≡ Call.Read (name_of look ∷ [])) }
{
    let looks = one_name(alloc, look)?;
    Ok(Call::Read { looks })
}

// One call of a thread, which counts from 0.
#[tactic(auto, using(crate::proofs::Drawing::later))]
fn call(alloc: Global, thread: u32, draws: &mut Draws) -> Result<Call, OutOfMemory>
    requires { thread < 8 }
    ensures call { IfOk result (λ call. call ≡ call_of thread draws.old) }
    ensures state { draws.new ≡ skip (draws_of_call draws.old) draws.old }
{
    if draws.draw(4) == 0 {
        let look = draws.draw(216);
        return read(alloc, look);
    }
    let source = draws.draw(8);
    let number = draws.draw(1000);
    let look = draws.draw(216);
    fire(alloc, 8 * thread + source, number, look)
}

// All calls of a thread.
fn calls(alloc: Global, thread: u32, draws: &mut Draws) -> Result<CallList, OutOfMemory>
    requires { thread < 8 }
    ensures calls { IfOk result (λ calls. calls ≡ calls_of thread 500 draws.old) }
    ensures state { OnOk result (draws.new ≡ state_after_calls 500 draws.old) }
{
    let mut calls = CallList::new(alloc);
    for _made in 0..CALLS {
        calls.push(call(alloc, thread, draws)?)?;
    }
    Ok(calls)
}

/// The calls of all threads. Takes memory.
pub fn scripts(alloc: Global, draws: &mut Draws) -> Result<Scripts, OutOfMemory>
    ensures { IfOk result (λ scripts. scripts ≡ threads 0 8 draws.old) }
{
    let mut scripts = Scripts::new(alloc);
    for thread in 0..THREADS {
        scripts.push(calls(alloc, thread, draws)?)?;
    }
    Ok(scripts)
}
