// Calls of a node's list.
ghost use Rattle.std.specs.Prelude.{◌≡◌, ◌≤◌, ◌+◌, IsTrue, true};
ghost use Rattle.list_bench.specs.Opened.{IsOpened};
ghost use Rattle.node_versions.specs.Entries.{has};

use crate::MAX_CALLERS;
use node_versions::{Entry, NodeList, State};
use script_tree::memory::OutOfMemory;
use script_tree::picks::Picks;
use script_tree::value::Value;
use std::alloc::Global;

// Room for entries of calls that have ended, beside one for each caller.
const SPARE: u32 = 9;

// A list is mostly asked of its last entries: of so many.
const LAST: u32 = 8;

/// A call of a node's list.
#[derive(Clone, Copy)]
pub enum ListCall {
    EntryOf,
    FirstOpen,
    ValueFor,
    ValueBefore,
    Served,
    Insert,
}

/// A sum of what the call answers in so many rounds, over a list with an entry more than there are callers: a Done, and
/// behind it Marks. A round makes one call for each entry, `ValueFor` behind one `entry_of`; of `ValueBefore` and `Served` one
/// for each of the last entries, at most `LAST` of them, `ValueBefore` behind one `entry_of`; of `Insert` it collects the
/// list down to its Done, and then puts in a Mark for each caller, each behind one `entry_of`. Takes the memory of one
/// list, and answers want of memory only where that is refused.
pub fn count(alloc: Global, call: ListCall, callers: u32, rounds: u32) -> Result<u64, OutOfMemory>
    requires few { callers ≤ MAX_CALLERS }
{
    let mut list = NodeList::new(alloc, callers + SPARE, 0, Value::Int(1), Picks::new())?;
    fill(&mut list, callers);
    let mut sum: u64 = 0;
    for _ in 0..rounds {
        sum = sum.wrapping_add(one_round(&mut list, call, callers));
    }
    Ok(sum)
}

fn one_round(list: &mut NodeList, call: ListCall, callers: u32) -> u64
    requires opened { IsOpened (callers + SPARE) list.old }
    requires few { callers ≤ MAX_CALLERS }
    ensures { IsOpened (callers + SPARE) list.new }
{
    match call {
        ListCall::EntryOf => ask_entry_of(list, callers),
        ListCall::FirstOpen => ask_first_open(list, callers),
        ListCall::ValueFor => ask_value_for(list, callers),
        ListCall::ValueBefore => ask_value_before(list, callers),
        ListCall::Served => ask_served(list, callers),
        ListCall::Insert => {
            let gone = empty(list, callers + SPARE);
            fill(list, callers);
            gone
        }
    }
}

fn ask_entry_of(list: &NodeList, callers: u32) -> u64
    requires { callers ≤ MAX_CALLERS }
{
    let mut sum: u64 = 0;
    for version in 0..callers + 1 {
        if let Some(index) = list.entry_of(version) {
            sum = sum.wrapping_add(u64::from(index));
        }
    }
    sum
}

// No entry is open.
fn ask_first_open(list: &NodeList, callers: u32) -> u64
    requires { callers ≤ MAX_CALLERS }
{
    let mut sum: u64 = 0;
    for _ in 0..callers + 1 {
        if list.first_open().is_none() {
            sum = sum.wrapping_add(1);
        }
    }
    sum
}

fn ask_value_for(list: &NodeList, callers: u32) -> u64
    requires opened { IsOpened (callers + SPARE) list.now }
    requires few { callers ≤ MAX_CALLERS }
{
    let mut sum: u64 = 0;
    for version in 0..callers + 1 {
        if list.entry_of(version).is_some() {
            sum = sum.wrapping_add(value_of(list, version, callers + SPARE));
        }
    }
    sum
}

#[tactic(auto, using(crate::proofs::Opens::opens_laws))]
fn value_of(list: &NodeList, version: u32, room: u32) -> u64
    requires opened { IsOpened room list.now }
    requires entry { IsTrue (has list.now.entries version) }
{
    if list.value_for(version) == Value::Int(1) {
        1
    } else {
        0
    }
}

fn ask_value_before(list: &NodeList, callers: u32) -> u64
    requires opened { IsOpened (callers + SPARE) list.now }
    requires few { callers ≤ MAX_CALLERS }
{
    let mut sum: u64 = 0;
    for version in callers.saturating_sub(LAST) + 1..callers + 1 {
        if list.entry_of(version).is_some() {
            sum = sum.wrapping_add(value_before_of(list, version, callers + SPARE));
        }
    }
    sum
}

#[tactic(auto, using(crate::proofs::Opens::opens_laws))]
fn value_before_of(list: &NodeList, version: u32, room: u32) -> u64
    requires opened { IsOpened room list.now }
    requires entry { IsTrue (has list.now.entries version) }
{
    list.is_kept();
    if list.get(0).version != version && list.value_before(version) == Value::Int(1) {
        1
    } else {
        0
    }
}

fn ask_served(list: &NodeList, callers: u32) -> u64
    requires { callers ≤ MAX_CALLERS }
{
    let mut sum: u64 = 0;
    for version in callers.saturating_sub(LAST) + 1..callers + 1 {
        if list.served(version) {
            sum = sum.wrapping_add(1);
        }
    }
    sum
}

fn fill(list: &mut NodeList, callers: u32)
    requires opened { IsOpened (callers + SPARE) list.old }
    requires few { callers ≤ MAX_CALLERS }
    ensures { IsOpened (callers + SPARE) list.new }
{
    for version in 1..callers + 1 {
        add(list, version, callers + SPARE);
    }
}

// Puts a Mark in at the end.
#[tactic(auto, using(crate::proofs::Opens::opens_laws))]
fn add(list: &mut NodeList, version: u32, room: u32)
    requires { IsOpened room list.old }
    ensures { IsOpened room list.new }
{
    let place = list.len();
    if place < room && list.entry_of(version).is_none() {
        list.insert_at(
            place,
            Entry {
                version,
                slot: 0,
                state: State::Mark,
            },
        );
    }
}

// Collects as if all calls had ended.
fn empty(list: &mut NodeList, room: u32) -> u64
    requires { IsOpened room list.old }
    ensures { IsOpened room list.new }
{
    u64::from(list.collect(
        |_|
            ensures { result ≡ true }
        { true },
    ))
}
