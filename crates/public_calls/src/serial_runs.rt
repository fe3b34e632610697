// Runs of the one-thread machine: call by call, and thread after thread where the versions run out between two threads.

ghost use Rattle.std.specs.Prelude.{◌≡◌, ◌≤◌, length, IfOk};
ghost use Rattle.script_tree.specs.declared.limits.TheConstants.{SETS, LOOKS};
ghost use Rattle.signal_graph.specs.Machine.{sets_of, looks_of};

use crate::replies::{counts_of, looks_of};
use call_log::{Finished, Log, Logged};
use deck_text::read_deck;
use script_tree::name::{Name, NameList};
use script_tree::value::Value;
use serial_machine::{Machine, serial};
use signal_graph::call::{Call, Reply, SetList, ValueList};
use signal_graph::graph::Graph;
use signal_graph::log::{Refused, Why};
use std::alloc::Global;
use std::test::Fail;

const DECK: &[u8] = b"source a = 0\nthread\nfire a=1\nfire a=2\nthread\nfire a=3\n";

const SUM: &[u8] = b"source a = 1\nsignal b = a + 1\nthread\n";

fn named(text: &str) -> Result<Name, Fail> {
    Ok(Name::of(text).ok_or("no name")?)
}

// A fire that sets `a` to 5 and looks at `b`.
fn a_fire(alloc: Global) -> Result<Call, Fail>
    ensures sets { IfOk result (λ call. length (sets_of call) ≤ SETS) }
    ensures looks { IfOk result (λ call. length (looks_of call) ≤ LOOKS) }
{
    let mut sets = SetList::new(alloc);
    let mut looks = NameList::new(alloc);
    sets.push((named("a")?, Value::Int(5)))?;
    looks.push(named("b")?)?;
    Ok(Call::Fire { sets, looks })
}

// A read of `a` and `b`.
fn a_read(alloc: Global) -> Result<Call, Fail>
    ensures sets { IfOk result (λ call. length (sets_of call) ≤ SETS) }
    ensures looks { IfOk result (λ call. length (looks_of call) ≤ LOOKS) }
{
    let mut looks = NameList::new(alloc);
    looks.push(named("a")?)?;
    looks.push(named("b")?)?;
    Ok(Call::Read { looks })
}

// The reply to a call whose names are there.
fn reply_to(machine: &mut Machine, graph: &Graph, call: &Call) -> Result<Reply, Fail>
    requires graph { machine.old.graph ≡ graph.now }
    requires sets { length (sets_of call.now) ≤ SETS }
    requires looks { length (looks_of call.now) ≤ LOOKS }
    ensures { machine.new.graph ≡ graph.now }
{
    if call.misnamed(graph).is_some() {
        return Err(Fail::from("no such name"));
    }
    Ok(machine.step(call)?)
}

// The replies to the fire and then to the read, from the start state.
fn two_replies(alloc: Global, graph: &Graph) -> Result<(Reply, Reply), Fail> {
    let mut machine = Machine::new(alloc, graph)?;
    let fired = reply_to(&mut machine, graph, &a_fire(alloc)?)?;
    let seen = reply_to(&mut machine, graph, &a_read(alloc)?)?;
    Ok((fired, seen))
}

fn are_right(fired: &Reply, seen: &Reply) -> bool {
    counts_of(fired) == Some((2, 1))
        && looks_of(fired) == [Value::Int(6)].as_slice()
        && counts_of(seen).is_none()
        && looks_of(seen) == [Value::Int(5), Value::Int(6)].as_slice()
}

#[test]
fn a_fire_and_a_read_are_answered(rt: HostRuntime) -> Result<(), Fail> {
    let deck = read_deck(rt.alloc(), SUM)?;
    let (fired, seen) = two_replies(rt.alloc(), deck.graph())?;
    assert!(rt; are_right(&fired, &seen));
    Ok(())
}

#[test]
fn room_is_kept_for_one_entry(rt: HostRuntime) -> Result<(), Fail> {
    let mut log = Log::new(rt.alloc());
    log.reserve_one()?;
    log.append(Logged {
        caller: 1,
        version: 1,
        call: a_read(rt.alloc())?,
        reply: Reply::Read {
            looks: ValueList::new(rt.alloc()),
        },
    });
    assert!(rt; log.len() == 1);
    Ok(())
}

// Whether the two calls of thread 1 were made, and the one of thread 2 was refused.
fn is_cut_behind_two(run: &Finished) -> bool {
    for entry in run.log.as_slice() {
        if entry.caller != 1 {
            return false;
        }
    }
    let refused = Refused {
        caller: 2,
        number: 1,
        why: Why::VersionsUsedUp(2),
    };
    run.log.len() == 2
        && run.finals.as_slice() == [Value::Int(2)].as_slice()
        && run.refused.as_slice() == [refused].as_slice()
}

#[test]
fn the_first_calls_are_made(rt: HostRuntime) -> Result<(), Fail> {
    let (graph, scripts) = read_deck(rt.alloc(), DECK)?.into_parts();
    let run = serial(rt.alloc(), &graph, &scripts, 2)?;
    assert!(rt; is_cut_behind_two(&run));
    Ok(())
}
