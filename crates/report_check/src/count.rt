// Which calls can be made, and how many.

ghost use Rattle.std.specs.Prelude.{◌≡◌, ℕ, ◌+◌, ◌<◌, ◌≤◌, ◌^◌, min, if◌then◌else◌, [], ◌∷◌};
ghost use Rattle.std.specs.Prelude.{length, drop, slice_index_or, None, IfSome, IfNone, All};
ghost use Rattle.signal_graph.specs.Machine.{misnamed};
ghost use Rattle.call_log.specs.Made.{is_well_named, well_named};
ghost use Rattle.serial_machine.specs.Running.{IsWithinLimits};
ghost use Rattle.report_check.specs.Right.{count_made};

use signal_graph::call::{Call, CallList, Scripts};
use signal_graph::graph::Graph;

/// Whether every name of a call names what it has to.
pub fn is_well_named(graph: &Graph, call: &Call) -> bool
    requires { IsWithinLimits call.now }
    ensures value { result ≡ is_well_named graph.now call.now }
{
    call.misnamed(graph).is_none()
}

/// A count, with one more where a test holds.
fn counted(count: u32, test: bool) -> u32
    requires { count + 1 < 2 ^ 32 }
    ensures { result ≡ (if test then count + 1 else count) }
{
    if test { count + 1 } else { count }
}

/// A count and the well-named ones of some calls, up to a limit.
fn with_calls(graph: &Graph, calls: &CallList, count: u32, limit: u32) -> u32
    requires within { All IsWithinLimits calls.now }
    requires below { count ≤ limit }
    ensures { result ≡ min limit (count + length (well_named graph.now calls.now)) }
{
    let mut count = count;
    for call in calls.as_slice() {
        if count == limit {
            return limit;
        }
        count = counted(count, is_well_named(graph, call));
    }
    count
}

/// How many calls are made: all well-named ones, or as many as there are versions.
pub fn count_made(graph: &Graph, scripts: &Scripts, limit: u32) -> u32
    requires { All (All IsWithinLimits) scripts.now }
    ensures { result ≡ count_made graph.now scripts.now limit }
{
    let mut count = 0;
    for calls in scripts.as_slice() {
        count = with_calls(graph, calls, count, limit);
    }
    count
}

/// The first well-named call from an index on, or none where there is none.
pub fn next_well_named(graph: &Graph, calls: &[Call], from: u32) -> Option<u32>
    requires within { All IsWithinLimits calls.now }
    requires few { length calls.now < 2 ^ 32 }
    ensures within { IfSome result (λ at. at < length calls.now) }
    ensures named { IfSome result (λ at. misnamed graph.now (slice_index_or calls.now at (Call.Read [])) ≡ None) }
    ensures some { IfSome result (λ at. well_named graph.now (drop from calls.now)
        ≡ slice_index_or calls.now at (Call.Read []) ∷ well_named graph.now (drop (at + 1) calls.now)) }
    ensures none { IfNone result (well_named graph.now (drop from calls.now) ≡ []) }
{
    for at in from as usize..calls.len() {
        if is_well_named(graph, &calls[at]) {
            return Some(at as u32);
        }
    }
    None
}
