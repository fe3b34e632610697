// The gate of this program.

use std::sync::Wait;
use std::sync::atomic::{AtomicU64, Ordering};
use std::thread::yield_now;
use worker_gate::Gate;

// The distance of two numbers from which turns are drawn: 2^64 divided by the golden ratio, so that their upper bits differ.
const DISTANCE: u64 = 11_400_714_819_323_198_485;
// Their lower bits differ less.
const LOWER_BITS: u32 = 33;

/// Gives the processor away before each evaluation, from once to `most` times, as often as is drawn; with `most` 0 it lets every
/// worker pass at once.
#[derive(Drop)]
pub struct YieldingGate {
    most: u64,
    next: AtomicU64,
}

impl YieldingGate {
    /// A gate at which nobody has passed. Takes no memory.
    pub fn new(most: u64) -> YieldingGate {
        YieldingGate {
            most,
            next: AtomicU64::new(0),
        }
    }
}

impl Gate for YieldingGate {
    /// Takes no memory.
    fn at<R: Wait>(&self, _rt: &R, _caller: u32, _node: u32) {
        let drawn = self.next.fetch_add(DISTANCE, Ordering::SeqCst) >> LOWER_BITS;
        if let Some(times) = drawn.checked_rem(self.most) {
            for _ in 0..=times {
                yield_now();
            }
        }
    }

    fn may_wait(&self) -> bool {
        self.most > 0
    }
}
