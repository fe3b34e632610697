// A turn of a thread.

ghost use Rattle.std.specs.Prelude.{◌≡◌, ◌≤◌, None, OnOk, Some};
ghost use Rattle.flow_model.specs.declared.step.Turn.TheVariants.{Ready};
ghost use Rattle.flow_model.specs.Machine.Next.{next};
ghost use Rattle.flow_model.specs.Machine.Schedules.{version_of};
ghost use Rattle.replay_run.specs.Replaying.{IsCaller, IsTurn, LeavesOthers};

use crate::caller::Caller;
use call_log::Why;
use flow_model::laws::lawful_stays;
use flow_model::{Step, Turn};
use interleave_core::{Core, Refusal};
use script_tree::memory::OutOfMemory;
use std::alloc::Global;

/// The turn of a thread: it begins its next call, or that is refused; or its live call makes its next step, or ends, or can't go on and
/// does nothing. Where there is no memory for a call, or for its refusal, the call is dropped.
pub fn take_turn(
    alloc: Global,
    core: &mut Core,
    caller: &mut Caller,
    number: u32,
) -> Result<(), OutOfMemory>
    requires first { 1 ≤ number }
    requires last { number ≤ core.old.state.callers }
    requires caller { IsCaller number core.old.state caller.old }
    ensures graph { core.new.graph ≡ core.old.graph }
    ensures caller { IsCaller number core.new.state caller.new }
    ensures others { LeavesOthers number core.old.state core.new.state }
    ensures turn { OnOk result (IsTurn core.old.graph number core.old.state caller.old.thread core.new.state caller.new.thread) }
{
    match caller.live() {
        Some(version) => {
            go_on(core, caller, number, version);
            Ok(())
        }
        None => begin_next(alloc, core, caller, number),
    }
}

// A thread without a live call begins its next one, or that is refused.
fn begin_next(
    alloc: Global,
    core: &mut Core,
    caller: &mut Caller,
    number: u32,
) -> Result<(), OutOfMemory>
    requires first { 1 ≤ number }
    requires last { number ≤ core.old.state.callers }
    requires caller { IsCaller number core.old.state caller.old }
    requires none { version_of number core.old.state.calls ≡ None }
    ensures graph { core.new.graph ≡ core.old.graph }
    ensures caller { IsCaller number core.new.state caller.new }
    ensures others { LeavesOthers number core.old.state core.new.state }
    ensures turn { OnOk result (IsTurn core.old.graph number core.old.state caller.old.thread core.new.state caller.new.thread) }
{
    let Some(call) = caller.take() else {
        return Ok(());
    };
    match core.admit(alloc, &call) {
        Ok(room) => {
            let version = core.begin(number, call, room);
            caller.begin(version);
            Ok(())
        }
        Err(Refusal::UnknownName(place)) => caller.refuse(number, Why::UnknownName(place)),
        Err(Refusal::VersionsUsedUp(limit)) => caller.refuse(number, Why::VersionsUsedUp(limit)),
        Err(Refusal::Memory) => Err(OutOfMemory),
    }
}

// A live call makes its next step, or ends, or can't go on.
fn go_on(core: &mut Core, caller: &mut Caller, number: u32, version: u32)
    requires caller { IsCaller number core.old.state caller.old }
    requires live { version_of number core.old.state.calls ≡ Some version }
    ensures graph { core.new.graph ≡ core.old.graph }
    ensures caller { IsCaller number core.new.state caller.new }
    ensures others { LeavesOthers number core.old.state core.new.state }
    ensures turn { IsTurn core.old.graph number core.old.state caller.old.thread core.new.state caller.new.thread }
{
    // With the book comes that the state is lawful.
    let _ = core.book();
    match core.next(version) {
        Turn::Step(step) => core.apply(step),
        Turn::NotYet(_) => {}
        Turn::Ready => end(core, caller, number, version),
    }
}

// A call with nothing but its end left ends, where it can.
fn end(core: &mut Core, caller: &mut Caller, number: u32, version: u32)
    requires caller { IsCaller number core.old.state caller.old }
    requires live { version_of number core.old.state.calls ≡ Some version }
    requires ready { next core.old.graph core.old.state version ≡ Ready }
    ensures graph { core.new.graph ≡ core.old.graph }
    ensures caller { IsCaller number core.new.state caller.new }
    ensures others { LeavesOthers number core.old.state core.new.state }
    ensures turn { IsTurn core.old.graph number core.old.state caller.old.thread core.new.state caller.new.thread }
{
    lawful_stays();
    let _ = core.book();
    let end = Step::End { version };
    if core.allowed(end) {
        core.apply(end);
        caller.end();
    }
}
