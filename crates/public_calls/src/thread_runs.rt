// Runs of scripts in threads, where all orders of their calls end alike.

ghost use Rattle.std.specs.Prelude.{◌≤◌};
ghost use Rattle.script_tree.specs.declared.limits.TheConstants.{VERSIONS};

use deck_text::read_deck;
use script_tree::limits::VERSIONS;
use script_tree::value::Value;
use std::alloc::Global;
use std::sync::Wait;
use std::test::Fail;
use std::thread::Threads;
use worker_gate::{OpenGate, run_scripts};

// A deck, a limit of versions, and what has to come of it: how many calls are made and refused, and the last values.
struct Row {
    deck: &'static [u8],
    versions: u32,
    made: u32,
    refused: usize,
    finals: &'static [Value],
}

const ROWS: [Row; 5] = [
    Row {
        deck: b"source a = 1\nsignal b = a + 1\nthread\nfire a=5 look b\nread a, b\n",
        versions: VERSIONS,
        made: 2,
        refused: 0,
        finals: &[Value::Int(5), Value::Int(6)],
    },
    Row {
        deck: b"source a = 0\nthread\nfire a=1\nread a\n",
        versions: 1,
        made: 1,
        refused: 1,
        finals: &[Value::Int(1)],
    },
    Row {
        deck: b"source a = 0\nthread\nfire a=1\nread a\n",
        versions: 0,
        made: 0,
        refused: 2,
        finals: &[Value::Int(0)],
    },
    Row {
        deck: b"source a = 1\nthread\nthread\nthread\n",
        versions: VERSIONS,
        made: 0,
        refused: 0,
        finals: &[Value::Int(1)],
    },
    Row {
        deck: b"source hall = 19
source lab = 23
source target = 21
source mode = 0
source night = false
signal mean = (hall + lab) / 2
signal worst = if hall < lab then lab else hall
choose shown = mode among mean, worst, hall
signal limit = if night then target - 3 else target
signal alarm = shown > limit
fold steps = 0 : acc + 1 + hall * 0
thread
fire hall = 20
fire hall = 22, lab = 25
fire hall = 24
thread
fire night = true
fire mode = 1 look shown
read alarm
",
        versions: VERSIONS,
        made: 6,
        refused: 0,
        finals: &[
            Value::Int(24),
            Value::Int(25),
            Value::Int(21),
            Value::Int(1),
            Value::Bool(true),
            Value::Int(24),
            Value::Int(25),
            Value::Int(25),
            Value::Int(18),
            Value::Bool(true),
            Value::Int(3),
        ],
    },
];

// Whether the run of a row's deck comes to what stands there.
#[tactic(auto, using(framesweep_cli::proofs::Threads::run_laws))]
fn is_right<R: Threads + Wait + Sync>(rt: &R, alloc: Global, row: &Row) -> bool
    requires { row.now.versions ≤ VERSIONS }
{
    let Ok(deck) = read_deck(alloc, row.deck) else {
        return false;
    };
    let (graph, scripts) = deck.into_parts();
    match run_scripts(rt, alloc, &graph, &scripts, row.versions, &OpenGate) {
        Ok(run) => run.log.len() == row.made
            && run.refused.as_slice().len() == row.refused
            && run.finals.as_slice() == row.finals,
        Err(_) => false,
    }
}

#[test]
fn scripts_in_threads(rt: HostRuntime) -> Result<(), Fail> {
    for row in &ROWS {
        assert!(rt;
            row.versions <= VERSIONS && is_right(&rt, rt.alloc(), row),
            "{} versions",
            row.versions
        );
    }
    Ok(())
}
