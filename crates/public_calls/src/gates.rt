// Threads that a gate holds until another thread is there: so the calls of a run are made at once, and not one after the other.

use framesweep_cli::framesweep;
use fs_io::sure_sink::SureSink;
use fs_io::sure_source::SureSource;
use script_tree::items::Text;
use script_tree::memory::OutOfMemory;
use std::alloc::Global;
use std::sync::{Mutex, Wait};
use std::test::Fail;
use std::thread::{Threads, yield_now};
use worker_gate::Gate;

const ROOM: usize = 4096;

// How often a thread that is held looks whether it may go on.
const LIMIT: u32 = 20_000_000;

// Two parts that nothing connects: `b` is node 1, `e` node 3.
const TWO_PARTS: &[u8] =
    b"source a = 1\nsignal b = a + 1\nsource c = 1\nsignal e = c + 1\nthread\nfire a=5\nthread\nfire c=7\nfire c=8\n";

// The same with a choose in the first part: `d` is node 3, `w` node 6.
const WITH_CHOOSE: &[u8] = b"source s = 0
source x = 10
source y = 20
choose d = s among x, y
signal k = d + 1
source z = 0
signal w = z + 1
thread
fire s=1
thread
fire z=1
fire z=2
";

// How often thread 1 came to its node and thread 2 to its own, and whether one was held to the limit.
#[derive(Clone, Copy, Debug)]
struct Seen {
    first: u32,
    second: u32,
    held_to_limit: bool,
}

// Holds thread 2 at its node for the first time until thread 1 is at its own, and thread 1 there until thread 2 is at its own for
// the second time. By then the first call of thread 2 has ended.
#[derive(Drop)]
struct MeetingGate {
    first_node: u32,
    second_node: u32,
    seen: Mutex<Seen>,
}

impl MeetingGate {
    fn new(first_node: u32, second_node: u32) -> MeetingGate {
        MeetingGate {
            first_node,
            second_node,
            seen: Mutex::new(Seen {
                first: 0,
                second: 0,
                held_to_limit: false,
            }),
        }
    }

    // Notes who is there. Answers how often each has to have been there before this one may go on.
    fn note<R: Wait>(&self, rt: &R, caller: u32, node: u32) -> (u32, u32) {
        let mut seen = self.seen.lock(rt);
        if caller == 1 && node == self.first_node {
            seen.first = seen.first.saturating_add(1);
            return (0, 2);
        }
        if caller == 2 && node == self.second_node {
            seen.second = seen.second.saturating_add(1);
            return (1, 0);
        }
        (0, 0)
    }

    fn seen<R: Wait>(&self, rt: &R) -> Seen {
        *self.seen.lock(rt)
    }
}

impl Gate for MeetingGate {
    fn at<R: Wait>(&self, rt: &R, caller: u32, node: u32) {
        let (first, second) = self.note(rt, caller, node);
        for _ in 0..LIMIT {
            let seen = self.seen(rt);
            if seen.first >= first && seen.second >= second {
                return;
            }
            yield_now();
        }
        self.seen.lock(rt).held_to_limit = true;
    }

    fn may_wait(&self) -> bool {
        true
    }
}

// Runs a deck through the gate. Answers the status, and whether the first line is of a call of thread 2.
fn run<R: Threads + Wait + Sync>(
    rt: &R,
    alloc: Global,
    deck: &[u8],
    gate: &MeetingGate,
) -> Result<(u8, bool), OutOfMemory> {
    let mut words = Vec::new(alloc);
    words.push(Text::from_slice(alloc, b"run")?)?;
    let mut source = SureSource::new(alloc, deck, ROOM)?;
    let mut out = SureSink::new(alloc, ROOM, ROOM)?;
    let mut err = SureSink::new(alloc, ROOM, ROOM)?;
    let status = framesweep(rt, alloc, &words, &mut source, &mut out, &mut err, gate);
    let held = out.kept();
    let second = held.starts_with(b"call 1 thread 2 ") || held.starts_with(b"call 2 thread 2 ");
    Ok((status, second))
}

#[test]
fn threads_meet_in_two_parts(rt: HostRuntime) -> Result<(), Fail> {
    let gate = MeetingGate::new(1, 3);
    let (status, second) = run(&rt, rt.alloc(), TWO_PARTS, &gate)?;
    let seen = gate.seen(&rt);
    assert!(rt; !seen.held_to_limit);
    assert_eq!(rt; [seen.first, seen.second], [1, 2]);
    assert!(rt; status == 0 && second);
    Ok(())
}

#[test]
fn threads_meet_beside_a_choose(rt: HostRuntime) -> Result<(), Fail> {
    let gate = MeetingGate::new(3, 6);
    let (status, _) = run(&rt, rt.alloc(), WITH_CHOOSE, &gate)?;
    let seen = gate.seen(&rt);
    assert!(rt; !seen.held_to_limit);
    assert_eq!(rt; [seen.first, seen.second], [1, 2]);
    assert!(rt; status == 0);
    Ok(())
}
