// What one worker does.

ghost use Rattle.std.specs.Prelude.{◌≡◌, ◌+◌, ◌^◌, ◌<◌, ◌≤◌, [], length, All, MatchBool, Some};
ghost use Rattle.flow_model.specs.Follows.Callers.{count_begins, IsWithin};
ghost use Rattle.interleave_core.specs.Beginning.{why_of};
ghost use Rattle.caller_fronts.specs.Jobs.{job_of};
ghost use Rattle.worker_gate.specs.Scripts.{HasMadeIt};
ghost use Rattle.worker_gate.specs.Calls.{Sees, HasGone, IsListed, IsTaken};

use crate::gate::Gate;
use crate::turn::Turn;
use flow_model::Cause;
use flow_state::Job;
use signal_graph::call::Call;
use signal_graph::log::{Refused, RefusedList, Why};
use std::alloc::Global;
use std::sync::Wait;
use sweeper::{Advance, Begun, Ended, JobRoom, Live, Naming, Pass, Refusal, Sweeper};

/// A call that goes on, or has ended.
pub enum Gone<J: Naming> {
    On(Live<J>),
    Ended(Pass<J>),
}

// Ends a call that has nothing left. Where another call has given it something to do meanwhile it goes on with that, and where a
// call before it lives it waits.
fn end<J: Naming, R: Wait>(
    rt: &R,
    sweeper: &Sweeper<'_, J>,
    live: Live<J>,
    turn: &mut Turn<'_>,
) -> Gone<J>
    ensures { HasGone J.limit live result }
{
    match sweeper.end(rt, live) {
        Ended::Ended(pass, reply) => {
            let mut pass = pass;
            pass.take_over(reply);
            Gone::Ended(pass)
        }
        Ended::NotYet(live, Cause::Before(_)) => {
            turn.give_up();
            Gone::On(sweeper.wait_for_growth(rt, live))
        }
        Ended::NotYet(live, _) => Gone::On(live),
    }
}

// Evaluates a job of a call, with no lock held, and hands its answer in.
#[inline(always)]
fn evaluate<J: Naming, G: Gate, R: Wait>(
    rt: &R,
    sweeper: &Sweeper<'_, J>,
    live: Live<J>,
    job: Job<'_, '_>,
    gate: &G,
    turn: &mut Turn<'_>,
) -> Live<J>
    requires { job_of job.node live.out ≡ Some job }
    ensures caller { result.caller ≡ live.caller }
    ensures sees { Sees live.caller live.front result.front }
{
    turn.evaluate(sweeper.is_heavy(job.node()));
    gate.at(rt, live.caller(), job.node());
    let answer = job.evaluate();
    turn.put_answer(rt);
    sweeper.put(rt, live, answer)
}

// What a call does next: a step, an evaluation, its end; or it waits.
#[inline(always)]
fn go_on<J: Naming, G: Gate, R: Wait>(
    rt: &R,
    sweeper: &Sweeper<'_, J>,
    live: Live<J>,
    gate: &G,
    turn: &mut Turn<'_>,
    room: &mut JobRoom,
) -> Gone<J>
    ensures { HasGone J.limit live result }
{
    turn.step(rt);
    match sweeper.advance(rt, live, room) {
        Advance::Stepped(live) => Gone::On(live),
        Advance::Evaluate(live, job) => Gone::On(evaluate(rt, sweeper, live, job, gate, turn)),
        Advance::NotYet(live, _) => {
            turn.give_up();
            Gone::On(sweeper.wait_for_growth(rt, live))
        }
        Advance::Ready(live) => end(rt, sweeper, live, turn),
    }
}

// Goes on with a call until it has ended.
fn finish<J: Naming, G: Gate, R: Wait>(
    rt: &R,
    sweeper: &Sweeper<'_, J>,
    live: Live<J>,
    gate: &G,
    turn: &mut Turn<'_>,
    room: &mut JobRoom,
) -> Pass<J>
    ensures caller { result.caller ≡ live.caller }
    ensures sees { Sees live.caller live.front result.front }
    ensures within { count_begins result.front ≤ J.limit }
{
    let mut live = live;
    for _ in rt.forever() {
        match go_on(rt, sweeper, live, gate, turn, room) {
            Gone::On(next) => live = next,
            Gone::Ended(pass) => return pass,
        }
    }
    unreachable!()
}

// One call of a script, by its number there. False where there was no memory; then it is not made, and not listed.
fn make_call<J: Naming, G: Gate, R: Wait>(
    rt: &R,
    alloc: Global,
    sweeper: &Sweeper<'_, J>,
    pass: Pass<J>,
    call: &Call,
    number: u32,
    gate: &G,
    turn: &mut Turn<'_>,
    room: &mut JobRoom,
    refused: &mut RefusedList,
) -> (Pass<J>, bool)
    requires { IsWithin call.now }
    ensures caller { result.0.caller ≡ pass.caller }
    ensures taken { MatchBool result.1
        (IsTaken J.graph J.limit pass.caller number call.now pass.front result.0.front refused.old refused.new)
        (Sees pass.caller pass.front result.0.front) }
{
    let caller = pass.caller();
    turn.begin_call(rt);
    match sweeper.begin(rt, alloc, pass, call) {
        Begun::Live(live) => (finish(rt, sweeper, live, gate, turn, room), true),
        Begun::Refused(pass, refusal) => {
            let listed = list(refused, caller, number, refusal);
            (pass, listed)
        }
    }
}

// Lists a call that was refused, by its number in its script. False where there was no memory for it, or none for the call.
fn list(refused: &mut RefusedList, caller: u32, number: u32, refusal: Refusal) -> bool
    ensures { MatchBool result (IsListed caller number (why_of refusal) refused.old refused.new) (Unit {0}) }
{
    match why(refusal) {
        None => false,
        Some(why) => refused
            .push(Refused {
                caller,
                number,
                why,
            })
            .is_ok(),
    }
}

// The reason that is listed. None where there was no memory.
fn why(refusal: Refusal) -> Option<Why>
    ensures { result ≡ why_of refusal }
{
    match refusal {
        Refusal::UnknownName(place) => Some(Why::UnknownName(place)),
        Refusal::VersionsUsedUp(limit) => Some(Why::VersionsUsedUp(limit)),
        Refusal::Memory => None,
    }
}

/// Makes the calls of a script one after the other, as those of an idle caller, and lists those that are refused by their numbers.
/// Answers the caller's pass, and false where there was no memory; then its live call was finished, and the rest is left.
pub(crate) fn make_script<J: Naming, G: Gate, R: Wait>(
    rt: &R,
    alloc: Global,
    sweeper: &Sweeper<'_, J>,
    pass: Pass<J>,
    script: &[Call],
    gate: &G,
    turn: &mut Turn<'_>,
    refused: &mut RefusedList,
) -> (Pass<J>, bool)
    requires few { length script.now < 2 ^ 32 }
    requires within { All IsWithin script.now }
    requires none { refused.old ≡ [] }
    ensures caller { result.0.caller ≡ pass.caller }
    ensures made { HasMadeIt J.graph J.limit pass.caller script.now pass.front result.0.front refused.new result.1 }
{
    let mut pass = pass;
    // All jobs of the script lie there, one after the other.
    let mut room = JobRoom::new();
    let room = &mut room;
    for (index, call) in script.iter().enumerate() {
        let number = 1 + index as u32;
        let (next, taken) = make_call(
            rt, alloc, sweeper, pass, call, number, gate, turn, room, refused,
        );
        pass = next;
        if !taken {
            return (pass, false);
        }
    }
    (pass, true)
}
