// Steps of the core, one by one, and what lists and calls come to, worked out by hand.

use deck_text::read_deck;
use flow_model::{Step, Turn};
use interleave_core::Core;
use node_versions::NodeList;
use script_tree::limits::{LOOKS, SETS};
use signal_graph::call::{Call, Scripts};
use signal_graph::graph::Graph;
use std::alloc::Global;
use std::test::Fail;

const TWO_FIRES: &[u8] = b"source a = 0\nsignal b = a + 1\nthread\nfire a=1\nthread\nfire a=2\n";

// Where thread 1 has fired, and thread 2 has changed `y`, thread 1 comes to pick `y`.
const LATE_PICK: &[u8] = b"source s = 0
source x = 10
source y = 20
signal j = s + y
choose d = s among x, y
signal k = d + 1
thread
fire s=1 look k
thread
fire y=21 look k
";

// Two chooses pick `x`; a fire has the first one pick `y`.
const TWO_CHOOSES: &[u8] = b"source s = 0
source q = 0
source x = 10
source y = 20
choose d = s among x, y
choose e = q among x, y
thread
fire s=1 look d
thread
fire s=0 look d
";

const A: u32 = 0;

const B: u32 = 1;

// The first call of each thread; the second thread has one too.
fn first_calls(scripts: Scripts) -> Result<(Call, Call), Fail> {
    let mut threads = scripts.into_vec();
    let second = threads.pop().ok_or("no thread 2")?;
    let first = threads.pop().ok_or("no thread 1")?;
    let second = second.into_vec().pop().ok_or("no call of thread 2")?;
    let first = first.into_vec().pop().ok_or("no call of thread 1")?;
    Ok((first, second))
}

fn begin(alloc: Global, core: &mut Core, caller: u32, call: Call) -> Result<(), Fail> {
    if call.sets().len() > SETS || call.looks().len() > LOOKS {
        return Err(Fail::from("the call is not within the limits"));
    }
    if !core.can_begin(caller, &call) {
        return Err(Fail::from("the call may not begin"));
    }
    let Ok(room) = core.admit(alloc, &call) else {
        return Err(Fail::from("the call is refused"));
    };
    core.begin(caller, call, room);
    Ok(())
}

fn make(core: &mut Core, step: Step) -> Result<(), Fail> {
    if !core.allowed(step) {
        return Err(Fail::from("the step is not allowed"));
    }
    core.apply(step);
    Ok(())
}

// The next step of a live call, which is made, if there is one.
fn go_on(core: &mut Core, version: u32) -> Option<Step> {
    if !core.live(version) {
        return None;
    }
    match core.next(version) {
        Turn::Step(step) => {
            core.apply(step);
            Some(step)
        }
        _ => None,
    }
}

fn go_on_often(core: &mut Core, version: u32, times: u32) {
    for _ in 0..times {
        let _ = go_on(core, version);
    }
}

fn is_discover(step: Step) -> bool {
    match step {
        Step::Discover { .. } => true,
        _ => false,
    }
}

fn is_drop(step: Step) -> bool {
    match step {
        Step::Drop { .. } => true,
        _ => false,
    }
}

// Makes the steps of a call up to its first Drop. Answers whether there was one.
fn go_on_to_drop(core: &mut Core, version: u32) -> bool {
    for _ in 0..100 {
        match go_on(core, version) {
            Some(step) if is_drop(step) => return true,
            Some(_) => {}
            None => return false,
        }
    }
    false
}

// Makes the steps of a call up to its first Discover. Answers whether there was one.
fn go_on_to_discover(core: &mut Core, version: u32) -> bool {
    for _ in 0..100 {
        match go_on(core, version) {
            Some(step) if is_discover(step) => return true,
            Some(_) => {}
            None => return false,
        }
    }
    false
}

fn are_versions(list: &NodeList, versions: &[u32]) -> bool {
    if list.len() as usize != versions.len() {
        return false;
    }
    for index in 0..list.len() {
        if list.get(index).version != versions[index as usize] {
            return false;
        }
    }
    true
}

// Whether the list of a node has entries of these versions, in this order.
fn has_versions(core: &Core, node: u32, versions: &[u32]) -> bool {
    if node >= core.book().nodes() {
        return false;
    }
    are_versions(core.list(node), versions)
}

fn is_one_out(list: &NodeList, chooser: u32, since: u32) -> bool {
    list.outs_len() == 1 && list.out(0) == (chooser, since)
}

// Whether the node has this out-edge, and no other.
fn has_one_out(core: &Core, node: u32, chooser: u32, since: u32) -> bool {
    if node >= core.book().nodes() {
        return false;
    }
    is_one_out(core.list(node), chooser, since)
}

// Both calls have begun and have a Frame at the source, the first one first.
fn at_the_source(alloc: Global, core: &mut Core, scripts: Scripts) -> Result<(), Fail> {
    let (first, second) = first_calls(scripts)?;
    begin(alloc, core, 1, first)?;
    begin(alloc, core, 2, second)?;
    make(
        core,
        Step::Frame {
            version: 1,
            node: A,
        },
    )?;
    make(
        core,
        Step::Frame {
            version: 2,
            node: A,
        },
    )
}

// The second call frames the signal first, and the first call starts.
fn at_the_signal(core: &mut Core) -> Result<(), Fail> {
    make(
        core,
        Step::Frame {
            version: 2,
            node: B,
        },
    )?;
    make(
        core,
        Step::Frame {
            version: 1,
            node: B,
        },
    )?;
    make(core, Step::Start { version: 1 })
}

fn stands_before(core: &Core, before: u32, after: u32) -> bool {
    let book = core.book();
    book.live(before) && book.live(after) && book.reaches(before, after)
}

fn meet(alloc: Global, graph: &Graph, scripts: Scripts) -> Result<bool, Fail> {
    let mut core = Core::new(alloc, graph, 2, 10)?;
    at_the_source(alloc, &mut core, scripts)?;
    let met = has_versions(&core, A, [0, 1, 2].as_slice()) && stands_before(&core, 1, 2);
    if !met || core.allowed(Step::Start { version: 2 }) {
        return Ok(false);
    }
    at_the_signal(&mut core)?;
    Ok(has_versions(&core, B, [0, 1, 2].as_slice()) && core.allowed(Step::Start { version: 2 }))
}

// A call that comes behind another at the source comes behind it at the signal too, though it was there first, and starts
// after it.
#[test]
fn calls_meet_in_one_order(rt: HostRuntime) -> Result<(), Fail> {
    let (graph, scripts) = read_deck(rt.alloc(), TWO_FIRES)?.into_parts();
    assert!(rt; meet(rt.alloc(), &graph, scripts)?);
    Ok(())
}

// Whether a live call wants this node of six, and no other.
fn wants_only(core: &Core, version: u32, node: u32) -> bool {
    let book = core.book();
    if !book.live(version) {
        return false;
    }
    for other in 0..6 {
        if book.wants(version, other) != (other == node) {
            return false;
        }
    }
    true
}

// The first call frames all and starts, the second one too and sets `y`, and then the first one picks `y`.
fn picks_late(alloc: Global, graph: &Graph, scripts: Scripts) -> Result<bool, Fail> {
    let mut core = Core::new(alloc, graph, 2, 10)?;
    let (first, second) = first_calls(scripts)?;
    begin(alloc, &mut core, 1, first)?;
    go_on_often(&mut core, 1, 5);
    begin(alloc, &mut core, 2, second)?;
    go_on_often(&mut core, 2, 4);
    let discovered = go_on_to_discover(&mut core, 1);
    Ok(discovered && wants_only(&core, 2, 4))
}

#[test]
fn a_later_call_comes_to_want_what_picks_its_node(rt: HostRuntime) -> Result<(), Fail> {
    let (graph, scripts) = read_deck(rt.alloc(), LATE_PICK)?.into_parts();
    assert!(rt; picks_late(rt.alloc(), &graph, scripts)?);
    Ok(())
}

// The first choose drops its out-edge at `x`, and that of the second one stays.
fn drops_one(alloc: Global, graph: &Graph, scripts: Scripts) -> Result<bool, Fail> {
    let mut core = Core::new(alloc, graph, 2, 10)?;
    let (first, _) = first_calls(scripts)?;
    begin(alloc, &mut core, 1, first)?;
    let dropped = go_on_to_drop(&mut core, 1);
    Ok(dropped && has_one_out(&core, 2, 5, 0))
}

#[test]
fn a_drop_takes_one_edge(rt: HostRuntime) -> Result<(), Fail> {
    let (graph, scripts) = read_deck(rt.alloc(), TWO_CHOOSES)?.into_parts();
    assert!(rt; drops_one(rt.alloc(), &graph, scripts)?);
    Ok(())
}
