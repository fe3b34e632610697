// Calls of the recorded order, over a chain 0, 1, 2 .. of all slots.
ghost use Rattle.std.specs.Prelude.{◌≡◌, ◌<◌, ◌≤◌};

use crate::MAX_CALLERS;
use order_graph::OrderGraph;
use script_tree::memory::OutOfMemory;
use std::alloc::Global;

/// A call of the recorded order.
#[derive(Clone, Copy)]
pub enum OrderCall {
    Precedes,
    NodeOf,
    NextBefore,
    Link,
}

/// A sum of what the call answers in so many rounds. A round makes one call for each slot; of `Link` it retires each
/// slot, and then makes one link less than there are slots, each behind one `precedes`, as each retire is behind one
/// `next_before`. Takes the memory of one order, and answers want of memory only where that is refused.
pub fn count(alloc: Global, call: OrderCall, callers: u32, rounds: u32) -> Result<u64, OutOfMemory>
    requires some { 0 < callers }
    requires few { callers ≤ MAX_CALLERS }
{
    let mut order = OrderGraph::new(alloc, callers)?;
    record_chain(&mut order, callers);
    let mut sum: u64 = 0;
    for round in 0..rounds {
        sum = sum.wrapping_add(one_round(&mut order, call, callers, round % callers));
    }
    Ok(sum)
}

fn one_round(order: &mut OrderGraph, call: OrderCall, callers: u32, start: u32) -> u64
    requires callers { order.old.callers ≡ callers }
    requires start { start < callers }
    requires few { callers ≤ MAX_CALLERS }
    ensures { order.new.callers ≡ callers }
{
    match call {
        OrderCall::Precedes => ask_precedes(order, callers, start),
        OrderCall::NodeOf => ask_node_of(order, callers, start),
        OrderCall::NextBefore => ask_next_before(order, callers, start),
        OrderCall::Link => {
            let sum = retire_all(order, callers);
            record_chain(order, callers);
            sum
        }
    }
}

// The slots in turn, from another start in each round, so that a round differs from the one before.
fn turned(slot: u32, start: u32, callers: u32) -> u32
    requires slot { slot < callers }
    requires start { start < callers }
    ensures { result < callers }
{
    let rest = callers - start;
    if slot < rest {
        slot + start
    } else {
        slot - rest
    }
}

fn ask_precedes(order: &OrderGraph, callers: u32, start: u32) -> u64
    requires callers { order.now.callers ≡ callers }
    requires start { start < callers }
{
    let mut sum: u64 = 0;
    for slot in 0..callers {
        sum = sum.wrapping_add(u64::from(order.precedes(turned(slot, start, callers), slot)));
    }
    sum
}

// The node of a pair that is recorded, but for slot 0 of which none is.
fn ask_node_of(order: &OrderGraph, callers: u32, start: u32) -> u64
    requires callers { order.now.callers ≡ callers }
    requires start { start < callers }
    requires few { callers ≤ MAX_CALLERS }
{
    let mut sum: u64 = 0;
    for slot in 0..callers {
        let to = turned(slot, start, callers);
        let from = if 0 < to { to - 1 } else { callers - 1 };
        if let Some(node) = order.node_of(from, to) {
            sum = sum.wrapping_add(u64::from(node));
        }
    }
    sum
}

fn ask_next_before(order: &OrderGraph, callers: u32, start: u32) -> u64
    requires callers { order.now.callers ≡ callers }
    requires start { start < callers }
{
    let mut sum: u64 = 0;
    for slot in 0..callers {
        if let Some(earlier) = order.next_before(turned(slot, start, callers), 0) {
            sum = sum.wrapping_add(u64::from(earlier));
        }
    }
    sum
}

fn record_chain(order: &mut OrderGraph, callers: u32)
    requires { order.old.callers ≡ callers }
    ensures { order.new.callers ≡ callers }
{
    for slot in 1..callers {
        if !order.precedes(slot, slot - 1) {
            order.link(slot - 1, slot, slot);
        }
    }
}

// How many slots went: all, where each goes first in its turn.
fn retire_all(order: &mut OrderGraph, callers: u32) -> u64
    requires { order.old.callers ≡ callers }
    ensures { order.new.callers ≡ callers }
{
    let mut gone: u64 = 0;
    for slot in 0..callers {
        if order.next_before(slot, 0).is_none() {
            order.retire(slot);
            gone = gone.wrapping_add(1);
        }
    }
    gone
}
