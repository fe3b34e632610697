// Histories and notes of them, in one thread and in two, and entries that lie on the heap.

ghost use Rattle.std.specs.Prelude.{◌≡◌, Some, IsSome};

use chronicle::{Named, Names, Note, Writer};
use std::mem::size_of;
use std::snapshot::Snapshot;
use std::test::Fail;
use std::thread::{Threads, join_mut};

// Names a number that a caller sent to a node.
fn sent(number: u64, caller: u64, node: u64) -> Named<u64>
    ensures { result ≡ record { event = number; first_key = caller; second_key = node } }
{
    Named::new(&number, caller, node)
}

#[test]
fn notes_of_three_keys_in_one_thread(rt: HostRuntime) -> Result<(), Fail> {
    let mut writer = Writer::new(rt.alloc())?;
    let first = writer.note(0);
    let caller = writer.note(1);
    writer.append(sent(7, 2, 0));
    let node = writer.note(2);
    writer.append(sent(8, 0, 0));
    assert_eq!(rt;
        [first.len(), caller.len(), node.len(), writer.len()],
        [0, 0, 1, 2]
    );

    let caller = writer.meet(caller);
    writer.retire(node);
    writer.append(sent(9, 3, 2));
    let second = writer.note(0);
    assert_eq!(rt;
        [first.len(), caller.len(), second.len(), writer.len()],
        [0, 2, 3, 3]
    );

    writer.retire(caller);
    writer.append(sent(10, 1, 2));
    let first = writer.meet(first);
    assert_eq!(rt; [first.len(), second.len(), writer.len()], [4, 3, 4]);
    writer.retire(second);
    writer.retire(first);
    Ok(())
}

/// A note that another thread may take, and the length that it finds.
struct Place {
    note: Option<Note<u64>>,
    len: u64,
}

fn look(place: &mut Place)
    ensures { place.new.note ≡ place.old.note }
{
    if let Some(note) = place.note.take() {
        place.len = note.len();
        let before = place.note.replace(note);
        let None = before else { unreachable!() };
    }
}

fn look_in_two_threads(rt: &impl Threads, front: &mut Place, back: &mut Place)
    ensures front { front.new.note ≡ front.old.note }
    ensures back { back.new.note ≡ back.old.note }
{
    join_mut(rt, &mut || look(front), &mut || look(back));
}

fn taken(place: Place) -> (Note<u64>, u64)
    requires { IsSome place.note }
    ensures { place.note ≡ Some result.0 }
{
    let Place { note, len } = place;
    let Some(note) = note else { unreachable!() };
    (note, len)
}

#[test]
fn a_note_is_handed_to_a_second_thread_and_back(rt: HostRuntime) -> Result<(), Fail> {
    let mut writer = Writer::new(rt.alloc())?;
    let one = writer.note(1);
    writer.append(sent(7, 3, 0));
    let two = writer.note(2);
    let mut front = Place {
        note: Some(one),
        len: 9,
    };
    let mut back = Place {
        note: Some(two),
        len: 9,
    };
    look_in_two_threads(&rt, &mut front, &mut back);
    let (one, first) = taken(front);
    let (two, second) = taken(back);
    writer.retire(one);
    writer.append(sent(8, 1, 0));
    let two = writer.meet(two);
    assert_eq!(rt; [first, second, two.len()], [0, 1, 2]);
    writer.retire(two);
    Ok(())
}

/// A call that lies on the heap.
#[derive(Drop)]
struct Call {
    looks: Vec<u64>,
}

/// Names a call, which is read no more.
#[derive(Drop)]
struct Begins {
    caller: Snapshot<u64>,
    call: Snapshot<Call>,
}

impl Names<Call> for Begins {
    ghost entry_of = { λ b. record { event = b.call.value; first_key = b.caller.value; second_key = 0 } };
}

fn name_call(caller: u64, call: &Call) -> Begins
    ensures { result.caller.value ≡ caller }
{
    Begins {
        caller: Snapshot::of(&caller),
        call: Snapshot::of(call),
    }
}

#[test]
fn an_entry_on_the_heap_is_named_without_memory(rt: HostRuntime) -> Result<(), Fail> {
    let mut writer = Writer::new(rt.alloc())?;
    let mut looks = Vec::new(rt.alloc());
    looks.push(5)?;
    let call = Call { looks };
    let named = name_call(1, &call);
    drop(call);
    writer.append(named);
    assert_eq!(rt; writer.len(), 1);
    assert_eq!(rt; [size_of::<Begins>(), size_of::<Note<Call>>()], [0, 8]);
    Ok(())
}
