// The deck of 7 against the text that a program in another language made of the same rules, a summary, and the workload of 7 as the
// program makes it, with eight threads.

use call_log::{Finished, Log, RefusedList};
use deck_maker::{make, summary};
use deck_text::print_deck;
use framesweep_cli::framesweep;
use fs_io::sure_sink::SureSink;
use fs_io::sure_source::SureSource;
use script_tree::items::Text;
use script_tree::memory::OutOfMemory;
use script_tree::value::{Fault, Value};
use signal_graph::call::ValueList;
use std::alloc::Global;
use std::sync::{Mutex, Wait};
use std::test::Fail;
use worker_gate::Gate;

// A number that a text with other bytes hardly has.
fn mixed(text: &[u8]) -> u32 {
    let mut mixed: u32 = 0;
    for byte in text {
        mixed = mixed.wrapping_mul(31).wrapping_add(*byte as u32);
    }
    mixed
}

#[test]
fn the_deck_of_7_is_that_of_another_program(rt: HostRuntime) -> Result<(), Fail> {
    let deck = make(rt.alloc(), 7)?;
    let text = print_deck(rt.alloc(), &deck)?;
    assert!(rt; text.len() == 78_797);
    assert!(rt; mixed(text.as_slice()) == 1_126_169_362);
    Ok(())
}

// A run without calls that ends with two numbers, a truth and a fault.
fn a_run(alloc: Global) -> Result<Finished, Fail> {
    let mut finals = ValueList::new(alloc);
    finals.push(Value::Int(5))?;
    finals.push(Value::Bool(true))?;
    finals.push(Value::Fault(Fault::Kind))?;
    finals.push(Value::Int(-7))?;
    Ok(Finished {
        log: Log::new(alloc),
        finals,
        refused: RefusedList::new(alloc),
    })
}

#[test]
fn a_summary_has_six_lines(rt: HostRuntime) -> Result<(), Fail> {
    let deck = make(rt.alloc(), 7)?;
    let run = a_run(rt.alloc())?;
    let text = summary(rt.alloc(), 7, deck.graph(), &run)?;
    assert!(rt;
        text.as_slice() == b"number 7\nthreads 8\nnodes 216\ncalls 0\nfaults 1\nsum -2\n".as_slice()
    );
    Ok(())
}

const SUMMARY: &[u8] = b"number 7\nthreads 8\nnodes 216\ncalls 4000\nfaults 0\nsum 17191\n";

// Marks the callers that it lets pass, each by a bit.
#[derive(Drop)]
struct MarkingGate {
    seen: Mutex<u64>,
}

impl Gate for MarkingGate {
    fn at<R: Wait>(&self, rt: &R, caller: u32, _node: u32) {
        let mut seen = self.seen.lock(rt);
        *seen |= 1u64.wrapping_shl(caller);
    }

    fn may_wait(&self) -> bool {
        true
    }
}

fn make_words(alloc: Global) -> Result<Vec<Text>, OutOfMemory> {
    let mut words = Vec::new(alloc);
    words.push(Text::from_slice(alloc, b"make")?)?;
    words.push(Text::from_slice(alloc, b"7")?)?;
    Ok(words)
}

// That each of the callers 1 to 8 passes the gate, no clause says: one thread would end with the same summary.
#[test]
fn a_workload_is_run_by_eight_callers(rt: HostRuntime) -> Result<(), Fail> {
    let alloc = rt.alloc();
    let gate = MarkingGate {
        seen: Mutex::new(0),
    };
    let words = make_words(alloc)?;
    let mut source = SureSource::new(alloc, b"", 1)?;
    let mut out = SureSink::new(alloc, 200, 50)?;
    let mut err = SureSink::new(alloc, 200, 50)?;
    let status = framesweep(&rt, alloc, &words, &mut source, &mut out, &mut err, &gate);
    assert!(rt; status == 0 && out.kept() == SUMMARY && err.kept().is_empty());
    assert!(rt; *gate.seen.lock(&rt) == 0b1_1111_1110);
    Ok(())
}
