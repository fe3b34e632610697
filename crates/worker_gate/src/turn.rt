// Whose turn it is to make steps.

use std::hint::spin_loop;
use std::sync::{Mutex, MutexGuard, Wait};

// After so many steps a turn ends with the call that is under way.
const STEPS: u32 = 8192;

// No turn has more steps: a call that goes on for longer goes on in a later turn.
const MOST_STEPS: u32 = 16_384;

// How often a worker that comes from a heavy script looks whether the turnstile is free before it sleeps there.
const LOOKS: u32 = 3000;

/// A worker's turn at a turnstile, which it may not have yet. It is given up when this is dropped.
///
/// A turnstile is a lock that guards nothing, which workers pass one at a time to make a stretch of steps. Each step is still one lock
/// of the sweeper. But while one worker has its turn the others don't ask for that lock, which would else go to another thread at each
/// step. A turn ends between two calls where it can: a call that lives while others have their turns is in their way.
#[derive(Drop)]
pub(crate) struct Turn<'t> {
    turnstile: &'t Mutex<()>,
    // Whether this worker takes turns at all.
    is_used: bool,
    held: Option<MutexGuard<'t, ()>>,
    // How many steps are left of the turn. Where none is, the turnstile is passed anew before the next one.
    left: u32,
}

impl<'t> Turn<'t> {
    /// No turn yet, of a worker that takes turns or leaves the turnstile alone.
    pub(crate) fn new(turnstile: &'t Mutex<()>, is_used: bool) -> Turn<'t> {
        Turn {
            turnstile,
            is_used,
            held: None,
            left: 0,
        }
    }

    /// Before a call begins: waits for a turn, unless this worker has one in which it has not made its steps yet.
    pub(crate) fn begin_call<R: Wait>(&mut self, rt: &R) {
        if self.left <= MOST_STEPS - STEPS {
            self.left = 0;
        }
        self.step(rt);
    }

    /// Before a step of a call: waits for a turn, unless this worker has it and steps are left of it.
    #[inline(always)]
    pub(crate) fn step<R: Wait>(&mut self, rt: &R) {
        if self.left == 0 {
            self.take(rt);
        } else {
            self.left -= 1;
        }
    }

    /// Before an answer is put, which counts as a step. Where heavy scripts are evaluated turns are short: so who gave its turn up for
    /// one looks for a while whether it has its next turn before it sleeps.
    #[inline(always)]
    pub(crate) fn put_answer<R: Wait>(&mut self, rt: &R) {
        if self.is_used && self.held.is_none() {
            self.look();
        }
        self.step(rt);
    }

    // Passes the turnstile if that gets free soon.
    #[cold]
    #[inline(never)]
    fn look(&mut self) {
        for _ in 0..LOOKS {
            if let Some(held) = self.turnstile.try_lock() {
                self.held = Some(held);
                self.left = MOST_STEPS;
                return;
            }
            spin_loop();
        }
    }

    // Lets others pass, and waits for a turn of all steps, of which the one that comes now is the first.
    #[cold]
    #[inline(never)]
    fn take<R: Wait>(&mut self, rt: &R) {
        self.give_up();
        if self.is_used {
            self.held = Some(self.turnstile.lock(rt));
        }
        self.left = MOST_STEPS - 1;
    }

    /// Before a wait: gives the turn up.
    pub(crate) fn give_up(&mut self) {
        self.held = None;
        self.left = 0;
    }

    /// Before a script is evaluated: gives the turn up where the script is heavy.
    #[inline(always)]
    pub(crate) fn evaluate(&mut self, is_heavy: bool) {
        if is_heavy {
            self.give_up();
        }
    }
}
