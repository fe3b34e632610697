// Two callers of a sweeper with one version left, whose calls one thread makes.

ghost use Rattle.std.specs.Prelude.{◌≡◌, []};
ghost use Rattle.flow_model.specs.Follows.Callers.{IsWithin};

use chronicle::Writer;
use deck_text::read_deck;
use script_tree::limits::{LOOKS, SETS};
use script_tree::memory::OutOfMemory;
use signal_graph::call::Call;
use signal_graph::graph::Graph;
use std::alloc::Global;
use std::marker::Brand;
use std::sync::Wait;
use std::test::Fail;
use sweeper::{
    Advance, Begun, Ended, JobRoom, Live, Move, Naming, Pass, PassList, Refusal, Sweeper,
    open_sweeper,
};

const READ: &[u8] = b"source a = 1\nthread\nread a\n";

// A call that goes on, or has ended.
enum Gone<J: Naming> {
    On(Live<J>),
    Ended(Pass<J>),
}

// What a call does next.
fn go_on<J: Naming, R: Wait>(
    rt: &R,
    sweeper: &Sweeper<'_, J>,
    live: Live<J>,
    room: &mut JobRoom,
) -> Gone<J> {
    match sweeper.advance(rt, live, room) {
        Advance::Stepped(live) => Gone::On(live),
        Advance::Evaluate(live, job) => {
            let answer = job.evaluate();
            Gone::On(sweeper.put(rt, live, answer))
        }
        Advance::NotYet(live, _) => Gone::On(live),
        Advance::Ready(live) => match sweeper.end(rt, live) {
            Ended::Ended(pass, _) => Gone::Ended(pass),
            Ended::NotYet(live, _) => Gone::On(live),
        },
    }
}

// Goes on with a call until it has ended.
fn finish<J: Naming, R: Wait>(rt: &R, sweeper: &Sweeper<'_, J>, live: Live<J>) -> Pass<J> {
    let mut live = live;
    let mut room = JobRoom::new();
    for _ in rt.forever() {
        match go_on(rt, sweeper, live, &mut room) {
            Gone::On(next) => live = next,
            Gone::Ended(pass) => return pass,
        }
    }
    unreachable!()
}

// Whether a call was refused since a limit of one version is used up.
fn is_for_one_version(refusal: Refusal) -> bool {
    match refusal {
        Refusal::VersionsUsedUp(limit) => limit == 1,
        _ => false,
    }
}

// Begins a call for which no version is left. Answers whether it is refused for that.
fn is_refused<J: Naming, R: Wait>(
    rt: &R,
    alloc: Global,
    sweeper: &Sweeper<'_, J>,
    pass: Pass<J>,
    call: &Call,
) -> (Pass<J>, bool)
    requires { IsWithin call.now }
{
    match sweeper.begin(rt, alloc, pass, call) {
        Begun::Refused(pass, refusal) => (pass, is_for_one_version(refusal)),
        Begun::Live(live) => (finish(rt, sweeper, live), false),
    }
}

// Closes with the passes of both callers, and answers how many calls were made.
fn close<J: Naming, R: Wait>(
    rt: &R,
    sweeper: Sweeper<'_, J>,
    mut passes: PassList<J>,
    first: Pass<J>,
    second: Pass<J>,
) -> u32
    requires { (J.callers ≡ 2) × (passes ≡ []) }
{
    if first.caller() == 1 && second.caller() == 2 {
        passes.push(first);
        passes.push(second);
        return sweeper.close(passes).log.len();
    }
    // No sweeper does this to its passes.
    for _ in rt.forever() {}
    unreachable!()
}

// Whether the call of the second caller is refused while the one call that may begin lives, and when it has ended.
fn one_version_is_left<J: Naming, R: Wait>(
    rt: &R,
    alloc: Global,
    graph: &Graph,
    writer: Writer<Move>,
    call: &Call,
) -> Result<bool, OutOfMemory>
    requires within { IsWithin call.now }
    requires named { (J.table ≡ writer.table) × (J.graph ≡ graph.now) × (J.callers ≡ 2) × (J.limit ≡ 1) }
    requires new { (writer.list ≡ []) × (writer.out ≡ []) }
{
    let (sweeper, mut passes) = open_sweeper::<J>(alloc, graph, writer, 2, 1)?;
    let Some(first) = passes.take_first() else {
        unreachable!()
    };
    let Some(second) = passes.take_first() else {
        unreachable!()
    };
    match sweeper.begin(rt, alloc, first, call) {
        Begun::Refused(first, _) => {
            close(rt, sweeper, passes, first, second);
            Ok(false)
        }
        Begun::Live(live) => {
            let (second, while_live) = is_refused(rt, alloc, &sweeper, second, call);
            let first = finish(rt, &sweeper, live);
            let (second, behind) = is_refused(rt, alloc, &sweeper, second, call);
            let made = close(rt, sweeper, passes, first, second);
            Ok(while_live && behind && made == 1)
        }
    }
}

#[test]
fn the_last_version(rt: HostRuntime) -> Result<(), Fail> {
    let alloc = rt.alloc();
    let Ok(deck) = read_deck(alloc, READ) else {
        return Err(Fail::from("the deck is refused"));
    };
    let (graph, scripts) = deck.into_parts();
    let Some(script) = scripts.as_slice().first() else {
        return Err(Fail::from("no thread"));
    };
    let Some(call) = script.as_slice().first() else {
        return Err(Fail::from("no call"));
    };
    if call.sets().len() > SETS || call.looks().len() > LOOKS {
        return Err(Fail::from("the call is not within the limits"));
    }
    let writer = Writer::new(alloc)?;
    let right = one_version_is_left::<Brand, HostRuntime>(&rt, alloc, &graph, writer, call)?;
    assert!(rt; right);
    Ok(())
}
