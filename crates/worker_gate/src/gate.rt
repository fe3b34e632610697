// Where workers pass.

use std::sync::Wait;

/// Where a worker passes before each evaluation, with no lock held that a gate could wait for. It may hold threads apart, as tests
/// do. It changes nothing of what is run, but for how threads interleave.
pub trait Gate: Sync {
    /// Lets the worker of a caller pass, which is about to evaluate a node's scripts or its body. It may wait.
    fn at<R: Wait>(&self, rt: &R, caller: u32, node: u32);

    /// Whether `at` may wait. Where it may not, workers take turns, of many steps each. Where it may, nobody takes turns, so that a worker
    /// which waits at the gate holds up no other. A gate that says so and never waits makes threads interleave at every step.
    fn may_wait(&self) -> bool;
}

/// Lets every worker pass at once.
#[derive(Drop)]
pub struct OpenGate;

impl Gate for OpenGate {
    /// Takes no memory.
    #[inline(always)]
    fn at<R: Wait>(&self, _rt: &R, _caller: u32, _node: u32) {}

    fn may_wait(&self) -> bool {
        false
    }
}
