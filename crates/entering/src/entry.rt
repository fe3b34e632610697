// A call enters a list.

ghost use Rattle.std.specs.Prelude.{◌≡◌, ◌<◌, ◌≤◌, true, false, length, take, drop, insert, None};
ghost use Rattle.std.specs.List.{position_or_len};
ghost use Rattle.node_versions.specs.Entries.{StopsToTheEnd, has, with_entries};
ghost use Rattle.flow_model.specs.Machine.Changes.{first_version, last_version};
ghost use Rattle.flow_state.specs.Booked.{live_in};
ghost use Rattle.entering.specs.Entering.{SomeCanEnter, Enters, stops_entry, lives_in, entry_in};
ghost use Rattle.entering.specs.Entering.{link_before, link_behind, CanLinkBefore, CanLinkBehind};

use flow_state::Book;
use node_versions::{Entry, NodeList, State};

/// A live call that has no entry in a node's list enters it at its place: before the first entry that stops it, else at
/// the end. It is recorded behind its left neighbour and before its right one, where these are live. Takes no memory.
///
/// What has ended stops no call, and where the last entry's call doesn't stop the one that enters, no other does. So behind
/// an ended call, where most enter, the place is the end, and there is nothing to record.
#[inline(always)]
pub fn enter(book: &mut Book, list: &mut NodeList, version: u32, node: u32, state: State)
    requires { SomeCanEnter book.old node list.old version }
    ensures { Enters book.old node list.old version state book.new list.new }
{
    let end = list.len();
    if lives(book, version_before(list, end)) {
        enter_in_order(book, list, version, node, state);
    } else {
        put_at(book, list, end, version, state);
    }
}

// The call enters at its place, which is looked for, and is recorded between its neighbours.
fn enter_in_order(book: &mut Book, list: &mut NodeList, version: u32, node: u32, state: State)
    requires { SomeCanEnter book.old node list.old version }
    ensures { Enters book.old node list.old version state book.new list.new }
{
    let place = place_in(book, list, version);
    let left = version_before(list, place);
    let right = version_at(list, place);
    put_at(book, list, place, version, state);
    link_left(book, left, version, node);
    link_right(book, version, right, node);
}

// The call's entry stands at an index, and what stood there and behind it one further back.
#[inline(always)]
fn put_at(book: &Book, list: &mut NodeList, place: u32, version: u32, state: State)
    requires live { live_in book.now version ≡ true }
    requires room { length list.old.entries < list.old.room }
    requires in_list { place ≤ length list.old.entries }
    requires new_version { has list.old.entries version ≡ false }
    ensures { list.new ≡ with_entries list.old (insert list.old.entries place (entry_in book.now version state)) }
{
    let slot = book.slot(version);
    list.insert_at(
        place,
        Entry {
            version,
            slot,
            state,
        },
    );
}

// Whether there is a call and it is live.
#[inline(always)]
fn lives(book: &Book, call: Option<u32>) -> bool
    ensures { result ≡ lives_in book.now call }
{
    match call {
        Some(call) => book.live(call),
        None => false,
    }
}

// The index of the first entry that stops the call, else how many there are. All behind that entry stop the call too, so that
// the place is found from the end, where most calls enter.
fn place_in(book: &Book, list: &NodeList, version: u32) -> u32
    requires live { live_in book.now version ≡ true }
    requires to_the_end { StopsToTheEnd (stops_entry book.now version) list.now.entries }
    ensures place { result ≡ position_or_len (stops_entry book.now version) list.now.entries }
    ensures bound { result ≤ length list.now.entries }
{
    list.place_from_end(|entry| book.stops(version, entry.version))
}

// The call of the last entry before an index.
#[inline(always)]
fn version_before(list: &NodeList, index: u32) -> Option<u32>
    requires { index ≤ length list.now.entries }
    ensures { result ≡ last_version None (take index list.now.entries) }
{
    if index == 0 {
        return None;
    }
    Some(list.get(index - 1).version)
}

// The call of the entry at an index.
fn version_at(list: &NodeList, index: u32) -> Option<u32>
    ensures { result ≡ first_version (drop index list.now.entries) }
{
    if index >= list.len() {
        return None;
    }
    Some(list.get(index).version)
}

// Records a call before the one that enters, where it is live.
fn link_left(book: &mut Book, left: Option<u32>, version: u32, node: u32)
    requires live { live_in book.old version ≡ true }
    requires can { CanLinkBefore book.old left version }
    ensures { book.new ≡ link_before book.old left version node }
{
    let Some(left) = left else {
        return;
    };
    if book.live(left) {
        book.link(left, version, node);
    }
}

// Records the one that enters before a call, where that is live.
fn link_right(book: &mut Book, version: u32, right: Option<u32>, node: u32)
    requires live { live_in book.old version ≡ true }
    requires can { CanLinkBehind book.old right version }
    ensures { book.new ≡ link_behind book.old right version node }
{
    let Some(right) = right else {
        return;
    };
    if book.live(right) {
        book.link(version, right, node);
    }
}
