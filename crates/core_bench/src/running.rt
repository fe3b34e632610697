// The calls of threads, in turns.

ghost use Rattle.std.specs.Prelude.{◌≡◌, ◌≤◌, length, None, true};
ghost use Rattle.script_tree.specs.declared.limits.TheConstants.{SETS, LOOKS};
ghost use Rattle.signal_graph.specs.Machine.{sets_of, looks_of};
ghost use Rattle.flow_model.specs.Machine.Schedules.{version_of};

use crate::counting::Counts;
use flow_model::{Step, Turn};
use interleave_core::{Core, Refusal};
use script_tree::limits::{LOOKS, SETS, THREADS, VERSIONS};
use signal_graph::call::{Call, Scripts};
use signal_graph::graph::Graph;
use std::alloc::Global;

/// The core, the calls that each thread has left, the last one first, and how many steps were made.
#[derive(Drop)]
pub struct Running<'g> {
    pub core: Core<'g>,
    left: Vec<Vec<Call>>,
    counts: Counts,
}

impl<'g> Running<'g> {
    /// No call has begun. None where there is no memory, or no thread or more than there may be.
    pub fn new(alloc: Global, graph: &'g Graph, scripts: Scripts) -> Option<Running<'g>> {
        let threads = scripts.len();
        if threads == 0 || threads > THREADS as usize {
            return None;
        }
        let Ok(core) = Core::new(alloc, graph, threads as u32, VERSIONS) else {
            return None;
        };
        let Ok(mut left) = Vec::with_capacity(alloc, threads) else {
            return None;
        };
        for calls in scripts.into_vec() {
            let mut calls = calls.into_vec();
            calls.reverse();
            if left.push(calls).is_err() {
                return None;
            }
        }
        Some(Running {
            core,
            left,
            counts: Counts::new(),
        })
    }

    /// How many steps were made.
    pub fn counts(&self) -> &Counts {
        &self.counts
    }

    /// A turn of a thread. Answers whether anything was done, or None where there is no memory.
    pub fn turn(&mut self, alloc: Global, thread: u32) -> Option<bool> {
        match self.core.live_call(thread) {
            Some(version) => Some(self.go_on(version)),
            None => self.begin_next(alloc, thread),
        }
    }

    /// Rounds of one turn a thread until nothing is left to do. None where there is no memory.
    pub fn finish_all(&mut self, alloc: Global) -> Option<()> {
        for _ in 0..u64::MAX {
            if !self.round(alloc)? {
                break;
            }
        }
        Some(())
    }

    // One turn of each thread. Answers whether anything was done.
    fn round(&mut self, alloc: Global) -> Option<bool> {
        let mut any = false;
        for thread in 0..self.core.book().callers() {
            if self.turn(alloc, thread.saturating_add(1))? {
                any = true;
            }
        }
        Some(any)
    }

    // A live call makes its next step, or ends.
    fn go_on(&mut self, version: u32) -> bool {
        if !self.core.live(version) {
            return false;
        }
        match self.core.next(version) {
            Turn::Step(step) => {
                self.counts.step(step);
                self.core.apply(step);
                true
            }
            Turn::NotYet(_) => {
                self.counts.idle();
                false
            }
            Turn::Ready => {
                let end = Step::End { version };
                if !self.core.allowed(end) {
                    self.counts.idle();
                    return false;
                }
                self.counts.step(end);
                self.core.apply(end);
                true
            }
        }
    }

    // A thread without a live call begins its next one. A call that may not begin is passed over.
    fn begin_next(&mut self, alloc: Global, thread: u32) -> Option<bool>
        requires { version_of thread self.old.core.state.calls ≡ None }
    {
        if thread == 0 || thread > self.core.callers() {
            return Some(false);
        }
        let Some(calls) = self.left.get_mut(thread as usize - 1) else {
            return Some(false);
        };
        let Some(call) = calls.pop() else {
            return Some(false);
        };
        if !is_within(&call) {
            return Some(true);
        }
        let room = match self.core.admit(alloc, &call) {
            Ok(room) => room,
            Err(Refusal::Memory) => return None,
            Err(_) => return Some(true),
        };
        self.core.begin(thread, call, room);
        self.counts.begin();
        Some(true)
    }
}

// Whether a call has no more sets and looks than it may.
fn is_within(call: &Call) -> bool
    ensures sets { result ≡ true → length (sets_of call.now) ≤ SETS }
    ensures looks { result ≡ true → length (looks_of call.now) ≤ LOOKS }
{
    call.sets().len() <= SETS && call.looks().len() <= LOOKS
}
