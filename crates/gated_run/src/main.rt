//! Does what the program does, with a gate that gives the processor away before each evaluation, so that the calls of threads
//! interleave more than they do by themselves; or tells how long a run takes. tests/threads has its reports judged, bench/threads
//! takes its time.
//!
//! The first word is how many times the gate may give the processor away at once, 0 for a gate that is open. The words behind it are
//! a command line. In their place may stand `timed`: then the deck is run, and two numbers are written: how many microseconds its calls
//! took, and how many the run with the opening and the closing of its machine, both without reading the deck.
#![tactic(auto)]

mod gate;
mod measured;

ghost use Rattle.std.specs.Prelude.{◌≡◌};

use deck_text::read_deck;
use framesweep_cli::framesweep;
use fs_io::adapters::{ReadSource, WriteSink};
use fs_io::source::Source;
use fs_io::whole::{read_all, write_all};
use gate::YieldingGate;
use measured::{Times, measured};
use script_tree::items::Text;
use script_tree::limits::DECK_BYTES;
use script_tree::print::print_number;
use std::alloc::Global;
use std::process::ExitCode;
use std::rt::Env;
use std::sync::Wait;
use std::thread::Threads;
use std::time::Clock;
use std::{env, io};

/// The status where the words or the deck are refused, as those are that aren't UTF-8.
const REFUSED: u8 = 1;

/// The status where there is no memory.
const NO_MEMORY: u8 = 5;

// The words behind the program's name, or the status where they can't be had.
fn words<R: Env + AllocGlobal>(rt: &R) -> Result<Vec<Text>, u8> {
    let args = match env::args(rt) {
        Ok(args) => args,
        Err(error) if error.kind() == io::ErrorKind::InvalidData => return Err(REFUSED),
        Err(_) => return Err(NO_MEMORY),
    };
    let mut words = Vec::new(rt.alloc());
    for word in args.skip(1) {
        let Ok(text) = Text::from_slice(rt.alloc(), word.as_bytes()) else {
            return Err(NO_MEMORY);
        };
        if words.push(text).is_err() {
            return Err(NO_MEMORY);
        }
    }
    Ok(words)
}

// The number that a word spells.
fn number(word: &Text) -> Option<u64> {
    match str::from_utf8(word.as_slice()) {
        Ok(word) => word.parse::<u64>().ok(),
        Err(_) => None,
    }
}

// What a run takes, as a line: the microseconds of its calls alone, and of all. None where there is no memory.
fn line(alloc: Global, times: Times) -> Option<Text> {
    let mut line = Text::new(alloc);
    if print_number(&mut line, times.calls).is_err() || line.push(b' ').is_err() {
        return None;
    }
    if print_number(&mut line, times.whole).is_err() || line.push(b'\n').is_err() {
        return None;
    }
    Some(line)
}

// How long the run of a deck takes, as a line, or the status where that can't be told.
#[tactic(auto, using(framesweep_cli::proofs::Threads::run_laws))]
fn timed<R: Threads + Wait + Clock + Sync, S: Source>(
    rt: &R,
    alloc: Global,
    source: &mut S,
    gate: &YieldingGate,
) -> Result<Text, u8> {
    let Ok(bytes) = read_all(alloc, source, DECK_BYTES) else {
        return Err(REFUSED);
    };
    let Ok(deck) = read_deck(alloc, bytes.as_slice()) else {
        return Err(REFUSED);
    };
    let (graph, scripts) = deck.into_parts();
    let Some(took) = measured(rt, alloc, &graph, &scripts, gate) else {
        return Err(NO_MEMORY);
    };
    line(alloc, took).ok_or(NO_MEMORY)
}

fn main(rt: HostRuntime) -> ExitCode {
    let mut source = ReadSource::new(rt.stdin());
    let mut out = WriteSink::new(rt.stdout());
    let mut err = WriteSink::new(rt.stderr());
    let words = match words(&rt) {
        Ok(words) => words,
        Err(status) => return ExitCode::from(status),
    };
    let [first, rest @ ..] = words.as_slice() else {
        return ExitCode::from(REFUSED);
    };
    let Some(most) = number(first) else {
        return ExitCode::from(REFUSED);
    };
    let gate = YieldingGate::new(most);
    let alloc = rt.alloc();
    match rest {
        [word] if word.as_slice() == b"timed".as_slice() => match timed(
            &rt,
            alloc,
            &mut source,
            &gate,
        ) {
            Ok(line) => {
                let _ = write_all(&mut out, line.as_slice());
                ExitCode::from(0)
            }
            Err(status) => ExitCode::from(status),
        },
        _ => ExitCode::from(framesweep(&rt, alloc, rest, &mut source, &mut out, &mut err, &gate)),
    }
}
