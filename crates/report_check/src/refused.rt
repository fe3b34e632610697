// The refusals that are due, and where those of a report are others.

ghost use Rattle.std.specs.Prelude.{◌≡◌, ℕ, ◌<◌, ◌≤◌, ◌^◌, ◌++◌, List, length, IfOk, OnOk, IfSome, IfNone, All};
ghost use Rattle.signal_graph.specs.declared.log.Logged.{Logged};
ghost use Rattle.call_log.specs.LeftOut.{why_not, left_behind, refusal, left_out_from, left_out};
ghost use Rattle.serial_machine.specs.Running.{IsWithinLimits};
ghost use Rattle.report_check.specs.Differing.{DifferFirst};
ghost use Rattle.report_check.specs.Standing.{AreSeats};

use crate::same::same_refused;
use crate::seat::Seat;
use call_log::{Refused, RefusedList, Why};
use script_tree::items::Items;
use script_tree::memory::OutOfMemory;
use signal_graph::call::{CallList, Scripts};
use signal_graph::graph::Graph;
use std::alloc::Global;

// Why a call is not made, whose first name at fault is at a place, or which is behind `left` others that are made.
fn why_not(place: Option<u32>, left: u32, limit: u32) -> Option<Why>
    ensures { result ≡ why_not limit left place }
{
    if let Some(place) = place {
        return Some(Why::UnknownName(place));
    }
    if left == 0 {
        return Some(Why::VersionsUsedUp(limit));
    }
    None
}

// How many of the calls behind one are made.
fn left_behind(place: Option<u32>, left: u32) -> u32
    ensures { result ≡ left_behind left place }
{
    match place {
        Some(_) => left,
        None => left.saturating_sub(1),
    }
}

// Adds a call that is not made, where there is a cause.
fn add(
    refused: &mut RefusedList,
    caller: u32,
    number: u32,
    why: Option<Why>,
) -> Result<(), OutOfMemory>
    ensures { OnOk result (refused.new ≡ refused.old ++ refusal caller number why) }
{
    match why {
        None => Ok(()),
        Some(why) => refused.push(Refused {
            caller,
            number,
            why,
        }),
    }
}

// Adds the calls of a caller that are not made, where the first `made` well-named ones of them are.
fn add_left_out(
    refused: &mut RefusedList,
    graph: &Graph,
    caller: u32,
    calls: &CallList,
    made: u32,
    limit: u32,
) -> Result<(), OutOfMemory>
    requires within { All IsWithinLimits calls.now }
    requires few { length calls.now < 2 ^ 32 }
    ensures { OnOk result (refused.new ≡ refused.old ++ left_out_from graph.now limit caller 1 made calls.now) }
{
    let mut left = made;
    for (index, call) in calls.as_slice().iter().enumerate() {
        let place = call.misnamed(graph);
        add(
            refused,
            caller,
            index as u32 + 1,
            why_not(place, left, limit),
        )?;
        left = left_behind(place, left);
    }
    Ok(())
}

/// The calls that are not made, by caller and then number, where the threads stand so. Takes memory.
pub fn left_out(
    alloc: Global,
    graph: &Graph,
    scripts: &Scripts,
    seats: &[Seat],
    limit: u32,
) -> Result<RefusedList, OutOfMemory>
    requires within { All (All IsWithinLimits) scripts.now }
    requires few { length scripts.now < 2 ^ 32 }
    requires few_calls { All (λ calls. length calls < 2 ^ 32) scripts.now }
    requires seats { length seats.now ≡ length scripts.now }
    ensures { (log : List Logged) → AreSeats graph.now scripts.now log seats.now
        → IfOk result (λ refused. refused ≡ left_out graph.now limit log scripts.now) }
{
    let mut refused = Items::new(alloc);
    for (index, calls) in scripts.as_slice().iter().enumerate() {
        add_left_out(
            &mut refused,
            graph,
            index as u32 + 1,
            calls,
            seats[index].made,
            limit,
        )?;
    }
    Ok(refused)
}

/// The first place at which refusals are others than those that are due, if there is one.
pub fn first_other_refused(due: &[Refused], given: &[Refused]) -> Option<usize>
    ensures some { IfSome result (λ place. DifferFirst due.now given.now place) }
    ensures none { IfNone result (due.now ≡ given.now) }
{
    for place in 0..due.len() {
        if place >= given.len() {
            return Some(place);
        }
        if !same_refused(due[place], given[place]) {
            return Some(place);
        }
    }
    if due.len() < given.len() {
        return Some(due.len());
    }
    None
}
