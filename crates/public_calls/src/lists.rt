// Lists of a node, worked out by hand.

ghost use Rattle.std.specs.Prelude.{◌≡◌, pos, nat_lt, [], ◌∷◌, Some, None, true, false, IfOk};
ghost use Rattle.script_tree.specs.declared.value.Value.TheVariants.{Int};
ghost use Rattle.node_versions.specs.declared.entry.State.TheVariants.{Mark, Frame, Done};
ghost use Rattle.node_versions.specs.Entries.{HasEndedPrefix, collected, with_entries};

use node_versions::{Entry, NodeList, State};
use script_tree::memory::OutOfMemory;
use script_tree::picks::Picks;
use script_tree::value::Value;
use std::alloc::Global;
use std::test::Fail;

fn mark(version: u32) -> Entry
    ensures { result ≡ record { version = version; slot = 3; state = Mark } }
{
    Entry {
        version,
        slot: 3,
        state: State::Mark,
    }
}

fn frame(version: u32) -> Entry
    ensures { result ≡ record { version = version; slot = 4; state = Frame } }
{
    Entry {
        version,
        slot: 4,
        state: State::Frame,
    }
}

#[test]
fn a_mark_is_raised_and_finished(rt: HostRuntime) -> Result<(), Fail> {
    let mut list = NodeList::new(rt.alloc(), 4, 1, Value::Int(5), Picks::new())?;
    list.insert_at(1, mark(2));
    assert!(rt; list.entry_of(2) == Some(1) && list.first_open().is_none());
    list.raise_mark(2);
    assert!(rt; list.first_open() == Some(1));
    list.finish(2, Value::Int(6), true, Picks::new());
    assert!(rt; list.value_for(2) == Value::Int(6) && list.value_before(2) == Value::Int(5));
    assert!(rt; list.first_open().is_none());
    Ok(())
}

fn picks_of(first: Option<u32>, second: Option<u32>) -> Picks
    ensures { result ≡ first ∷ second ∷ [] }
{
    let mut picks = Picks::new();
    picks.push(first);
    picks.push(second);
    picks
}

// Five entries, Marks between Dones and a Frame last, in a room of six.
fn sample(alloc: Global) -> Result<NodeList, OutOfMemory>
    ensures room { IfOk result (λ list. list.room ≡ 6) }
    ensures entries { IfOk result (λ list. list.entries ≡
        record { version = 0; slot = 0; state = Done (Int (pos 10)) false (Some 7 ∷ None ∷ []) }
        ∷ record { version = 4; slot = 3; state = Mark }
        ∷ record { version = 2; slot = 4; state = Done (Int (pos 20)) true (None ∷ Some 8 ∷ []) }
        ∷ record { version = 9; slot = 3; state = Mark }
        ∷ record { version = 6; slot = 4; state = Frame } ∷ []) }
{
    let mut list = NodeList::new(alloc, 6, 0, Value::Int(10), picks_of(Some(7), None))?;
    list.insert_at(1, frame(2));
    list.finish(2, Value::Int(20), true, picks_of(None, Some(8)));
    list.insert_at(1, mark(4));
    list.insert_at(3, mark(9));
    list.insert_at(4, frame(6));
    Ok(list)
}

// Collects as if the calls with a version below the limit had ended.
fn collect_below(list: &mut NodeList, limit: u32) -> u32
    requires { HasEndedPrefix (λ e. nat_lt e.version limit) list.old.entries }
    ensures { list.new ≡ with_entries list.old (collected (λ e. nat_lt e.version limit) list.old.entries) }
{
    list.collect(|entry| entry.version < limit)
}

#[test]
fn ended_entries_are_collected(rt: HostRuntime) -> Result<(), Fail> {
    let mut list = sample(rt.alloc())?;
    assert!(rt; list.place_of(|entry| entry.slot == 3) == 1);
    assert!(rt; collect_below(&mut list, 5) == 2 && list.len() == 3);
    assert!(rt;
        list.entry_of(2) == Some(0) && list.entry_of(9) == Some(1) && list.entry_of(6) == Some(2)
    );
    Ok(())
}

#[test]
fn served_before_the_first_frame(rt: HostRuntime) -> Result<(), Fail> {
    let mut list = sample(rt.alloc())?;
    list.insert_at(5, mark(7));
    assert!(rt; list.served(0));
    assert!(rt; list.served(9));
    assert!(rt; !list.served(6));
    assert!(rt; !list.served(7));
    assert!(rt; !list.served(5));
    Ok(())
}

#[test]
fn places_from_both_ends(rt: HostRuntime) -> Result<(), Fail> {
    let list = sample(rt.alloc())?;
    assert_eq!(rt; list.place_from_end(|entry| entry.slot == 4), 4);
    assert_eq!(rt; list.place_of(|entry| entry.slot == 4), 2);
    assert_eq!(rt; list.place_from_end(|entry| entry.version > 5), 3);
    assert_eq!(rt; list.place_from_end(|entry| entry.slot == 3), 5);
    Ok(())
}

#[test]
fn out_edges(rt: HostRuntime) -> Result<(), Fail> {
    let mut list = NodeList::new(rt.alloc(), 2, 1, Value::Int(5), Picks::new())?;
    list.insert_at(1, mark(2));
    list.add_out(8, 2);
    assert!(rt; !list.active_at(0, 0));
    assert!(rt; list.active_at(1, 0));
    assert!(rt; !list.active(0, 0));
    Ok(())
}
