//! Makes calls of the recorded order and of a node's list many times, so that bench/lists can take their time.
//!
//! The words are a call, a number of callers from 1 to 256 and a number of rounds, as `precedes 64 1000`. What is printed
//! is a sum that depends on the answers.
#![tactic(auto)]

ghost use Rattle.std.specs.Prelude.{◌<◌, ◌≤◌, IfSome};

mod lists;
mod orders;

use lists::ListCall;
use orders::OrderCall;
use script_tree::memory::OutOfMemory;
use std::alloc::Global;
use std::env;
use std::process::ExitCode;
use std::rt::Env;

const USAGE: &str =
    "usage: list_bench precedes|node_of|next_before|link|entry_of|first_open|value_for|value_before|served|insert CALLERS ROUNDS";

/// The status where the words are refused.
const BAD_WORDS: u8 = 1;

/// The status where there is no memory.
const NO_MEMORY: u8 = 5;

// The largest number of callers.
const MAX_CALLERS: u32 = 256;

#[derive(Clone, Copy)]
enum Call {
    Order(OrderCall),
    List(ListCall),
}

// What the words ask for.
#[derive(Clone, Copy)]
struct Task {
    call: Call,
    callers: u32,
    rounds: u32,
}

fn order_call_of(word: &str) -> Option<OrderCall> {
    match word {
        "precedes" => Some(OrderCall::Precedes),
        "node_of" => Some(OrderCall::NodeOf),
        "next_before" => Some(OrderCall::NextBefore),
        "link" => Some(OrderCall::Link),
        _ => None,
    }
}

fn list_call_of(word: &str) -> Option<ListCall> {
    match word {
        "entry_of" => Some(ListCall::EntryOf),
        "first_open" => Some(ListCall::FirstOpen),
        "value_for" => Some(ListCall::ValueFor),
        "value_before" => Some(ListCall::ValueBefore),
        "served" => Some(ListCall::Served),
        "insert" => Some(ListCall::Insert),
        _ => None,
    }
}

fn call_of(word: &str) -> Option<Call> {
    if let Some(call) = order_call_of(word) {
        return Some(Call::Order(call));
    }
    if let Some(call) = list_call_of(word) {
        return Some(Call::List(call));
    }
    None
}

fn callers_of(word: &str) -> Option<u32>
    ensures some { IfSome result (λ n. 0 < n) }
    ensures few { IfSome result (λ n. n ≤ MAX_CALLERS) }
{
    match word.parse::<u32>() {
        Ok(callers) => {
            if 0 < callers && callers <= MAX_CALLERS {
                Some(callers)
            } else {
                None
            }
        }
        Err(_) => None,
    }
}

fn rounds_of(word: &str) -> Option<u32> {
    match word.parse::<u32>() {
        Ok(rounds) => Some(rounds),
        Err(_) => None,
    }
}

fn task_of(call: &str, callers: &str, rounds: &str) -> Option<Task>
    ensures some { IfSome result (λ t. 0 < t.callers) }
    ensures few { IfSome result (λ t. t.callers ≤ MAX_CALLERS) }
{
    let call = call_of(call)?;
    let callers = callers_of(callers)?;
    let rounds = rounds_of(rounds)?;
    Some(Task {
        call,
        callers,
        rounds,
    })
}

// The task that the words behind the program's name spell, where there are three of them.
fn asked<R: Env + AllocGlobal>(rt: &R) -> Option<Task>
    ensures some { IfSome result (λ t. 0 < t.callers) }
    ensures few { IfSome result (λ t. t.callers ≤ MAX_CALLERS) }
{
    let Ok(args) = env::args(rt) else {
        return None;
    };
    let mut words = args.skip(1);
    let call = words.next()?;
    let callers = words.next()?;
    let rounds = words.next()?;
    if words.next().is_some() {
        return None;
    }
    task_of(call.as_str(), callers.as_str(), rounds.as_str())
}

fn count(alloc: Global, task: Task) -> Result<u64, OutOfMemory>
    requires some { 0 < task.callers }
    requires few { task.callers ≤ MAX_CALLERS }
{
    match task.call {
        Call::Order(call) => orders::count(alloc, call, task.callers, task.rounds),
        Call::List(call) => lists::count(alloc, call, task.callers, task.rounds),
    }
}

fn main(rt: HostRuntime) -> ExitCode {
    let Some(task) = asked(&rt) else {
        let _ = println!(rt; "{USAGE}");
        return ExitCode::from(BAD_WORDS);
    };
    match count(rt.alloc(), task) {
        Ok(sum) => {
            let _ = println!(rt; "{sum}");
            ExitCode::from(0)
        }
        Err(_) => ExitCode::from(NO_MEMORY),
    }
}
