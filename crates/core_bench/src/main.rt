//! Makes the calls of a deck on the core, step by step, so that bench/core can take their time and tests/core can see what
//! they come to.
//!
//! The words are `steps` or `log`, and then numbers of threads, counted from 1: whose turn it is, one after the other. In a
//! turn a thread begins its next call, or makes the next step of its live one. Behind these turns come rounds of one turn a
//! thread, until all calls are made. The deck is read from standard input. What is printed is how many steps of each kind
//! were made and how many turns made none, or the log and the final values, a line each.
#![tactic(auto)]

mod counting;
mod printing;
mod running;

use deck_text::{Deck, read_deck};
use fs_io::adapters::{ReadSource, WriteSink};
use fs_io::whole::{read_all, write_all};
use printing::{log_text, steps_text};
use running::Running;
use script_tree::items::Text;
use script_tree::limits::DECK_BYTES;
use std::alloc::Global;
use std::env;
use std::process::ExitCode;
use std::rt::Env;

const USAGE: &[u8] = b"usage: core_bench steps|log [THREAD..] < DECK\n";

/// The status where the words or the deck are refused.
const REFUSED: u8 = 1;

/// The status where there is no memory.
const NO_MEMORY: u8 = 5;

// What is printed, and whose turn it is first.
#[derive(Drop)]
struct Task {
    log: bool,
    turns: Vec<u32>,
}

// The task that the words behind the program's name spell.
fn asked<R: Env + AllocGlobal>(rt: &R) -> Option<Task> {
    let Ok(args) = env::args(rt) else {
        return None;
    };
    let mut words = args.skip(1);
    let log = match words.next()?.as_str() {
        "steps" => false,
        "log" => true,
        _ => return None,
    };
    let mut turns = Vec::new(rt.alloc());
    for word in words {
        let Ok(thread) = word.parse::<u32>() else {
            return None;
        };
        if turns.push(thread).is_err() {
            return None;
        }
    }
    Some(Task { log, turns })
}

// What the deck's calls come to, as text.
fn made(alloc: Global, deck: Deck, task: &Task) -> Option<Text> {
    let (graph, scripts) = deck.into_parts();
    let mut running = Running::new(alloc, &graph, scripts)?;
    for thread in &task.turns {
        running.turn(alloc, *thread)?;
    }
    running.finish_all(alloc)?;
    if task.log {
        log_text(alloc, running.core)
    } else {
        steps_text(alloc, running.counts())
    }
}

fn main(rt: HostRuntime) -> ExitCode {
    let mut out = WriteSink::new(rt.stdout());
    let Some(task) = asked(&rt) else {
        let _ = write_all(&mut out, USAGE);
        return ExitCode::from(REFUSED);
    };
    let mut source = ReadSource::new(rt.stdin());
    let Ok(bytes) = read_all(rt.alloc(), &mut source, DECK_BYTES) else {
        return ExitCode::from(REFUSED);
    };
    let Ok(deck) = read_deck(rt.alloc(), bytes.as_slice()) else {
        return ExitCode::from(REFUSED);
    };
    match made(rt.alloc(), deck, &task) {
        Some(text) => {
            let _ = write_all(&mut out, text.as_slice());
            ExitCode::from(0)
        }
        None => ExitCode::from(NO_MEMORY),
    }
}
