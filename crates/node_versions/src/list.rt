// One node's list over small vectors.
ghost use Rattle.std.specs.Prelude.{◌≡◌, ℕ, ◌<◌, ◌≤◌, ◌+◌, length, take, drop, min, insert, IsTrue};
ghost use Rattle.std.specs.Prelude.{IfOk, IfSome, IfNone, Some, None, slice_get, not, false};
ghost use Rattle.std.specs.List.{list_any, position, position_or_len, remove_range};
ghost use Rattle.std.specs.Option.{IsSome, is_some, option_copied};
ghost use Rattle.node_versions.specs.Entries.{Frame, Done, IsUnique, AreDifferent, has, at, is_of, is_mark, is_frame, is_done};
ghost use Rattle.node_versions.specs.Entries.{value_of, picks_of, state_of, up_to, before, served, last_done, done_len, value_at};
ghost use Rattle.node_versions.specs.Entries.{value_before, picks_at, picks_before, with_state, is_active, since_at, version_at};
ghost use Rattle.node_versions.specs.Entries.{StopsFrom, StopsToTheEnd, IsEntryAt, IsFirstOpenAt, first_open, has_out, with_out};
ghost use Rattle.node_versions.specs.Entries.{without_out, HasEndedPrefix, ended_len, collected, opened, with_entries, with_outs};
ghost use Rattle.smallvec.specs.SmallVec.{small_vec_len, HasRoomFor};
ghost use Rattle.node_versions.specs.Answers.{IsAskable, AnswersBy, AnswersTo};

use crate::entry::{Entry, State};
use script_tree::memory::OutOfMemory;
use script_tree::picks::Picks;
use script_tree::value::Value;
use smallvec::SmallVec;
use std::alloc::Global;
use std::marker::Model;

// All entries lie in the block that `new` takes: none in the value, so that the values of many nodes' lists lie close.
const INLINE_ENTRIES: usize = 0;

// Few chooses list one node as a candidate.
const INLINE_OUTS: usize = 4;

/// The list of one node: an entry for each call that reached the node, in the calls' order, and its out-edges.
///
/// Contracts see the list of entries, the list of out-edges (pairs of a choose node and a version, called since), and
/// how many of each there is room for. No two entries have one version, and no out-edge is there twice. All memory is
/// taken by `new`.
///
/// Calls mostly ask of an entry near the end of the list, so a version's entry is looked for from there, and a call that is newer
/// than all that have entered is told at once to have none. Where the first Frame and the last Done stand is kept beside the entries.
#[derive(Drop)]
pub struct NodeList {
    entries: SmallVec<Entry, INLINE_ENTRIES>,
    // The index of the first Frame, else how many entries there are.
    first_frame: u32,
    // The index behind the last Done, 0 where there is none.
    done_end: u32,
    // No entry's version is above this one.
    newest: u32,
    outs: SmallVec<(u32, u32), INLINE_OUTS>,
    room: u32,
    outs_room: u32,
}

impl Model for NodeList {
    ghost use Rattle.node_versions.specs.Entries.{Versions};
    ghost use Rattle.node_versions.specs.Kept.{IsKept};
    ghost use Rattle.std.specs.Coded.{codes};

    ghost Value = { Versions };

    ghost coded = { Prim.hlevel codes };

    ghost view = { λ l. record { entries = l.entries.items; outs = l.outs.items; room = l.room; outs_room = l.outs_room } };

    ghost invariant = { λ l. IsKept l.entries l.outs l.room l.outs_room l.first_frame l.done_end l.newest };
}

impl NodeList {
    /// A list with one entry: version 0, slot 0, Done with this value and these picks, unchanged. It has room for
    /// `room` entries, this one among them, and for `outs_room` out-edges. Takes all memory that the list will need.
    pub fn new(
        alloc: Global,
        room: u32,
        outs_room: u32,
        value: Value,
        picks: Picks,
    ) -> Result<NodeList, OutOfMemory>
        requires { 1 ≤ room }
        ensures { IfOk result (λ list. list ≡ opened room outs_room value picks) }
    {
        let mut entries = SmallVec::with_capacity(alloc, room as usize)?;
        let outs = SmallVec::with_capacity(alloc, outs_room as usize)?;
        entries.push_reserved(Entry {
            version: 0,
            slot: 0,
            state: State::Done {
                value,
                changed: false,
                picks,
            },
        });
        Ok(NodeList {
            entries,
            first_frame: 1,
            done_end: 1,
            newest: 0,
            outs,
            room,
            outs_room,
        })
    }

    /// How many entries there are.
    pub fn len(&self) -> u32
        ensures { result ≡ length self.now.entries }
    {
        self.entries.len() as u32
    }

    /// The entry at an index, counted from 0.
    pub fn get(&self, index: u32) -> &Entry
        requires { index < length self.now.entries }
        ensures { slice_get self.now.entries index ≡ Some result.now }
    {
        &self.entries.as_slice()[index as usize]
    }

    /// The index of the version's entry. None exactly where it has none.
    pub fn entry_of(&self, version: u32) -> Option<u32>
        ensures index { result ≡ position (is_of version) self.now.entries }
        ensures bound { IfSome result (λ i. i < length self.now.entries) }
        ensures exact { is_some result ≡ has self.now.entries version }
        ensures entry { IfSome result (IsEntryAt self.now.entries version) }
        ensures at { IfSome result (λ i. version_at self.now.entries i ≡ version) }
    {
        let index = self.index_of(version);
        if index < self.len() {
            Some(index)
        } else {
            None
        }
    }

    /// The index of the version's entry, else how many entries there are. What is asked of an entry more than once is asked by its
    /// index, so that the entry is looked for once.
    #[inline]
    pub fn index_of(&self, version: u32) -> u32
        ensures place { result ≡ position_or_len (is_of version) self.now.entries }
        ensures bound { result ≤ length self.now.entries }
    {
        if version > self.newest {
            return self.len();
        }
        let mut rest = self.entries.as_slice();
        while let Some((entry, front)) = rest.split_last() {
            if entry.version == version {
                return front.len() as u32;
            }
            rest = front;
        }
        self.len()
    }

    /// The index of the first Frame. None exactly where there is none.
    pub fn first_open(&self) -> Option<u32>
        ensures index { result ≡ position (λ e. is_frame e.state) self.now.entries }
        ensures bound { IfSome result (λ i. i < length self.now.entries) }
        ensures some { IfSome result (IsFirstOpenAt self.now.entries) }
        ensures none { IfNone result (first_open self.now.entries ≡ None) }
    {
        if self.first_frame < self.len() {
            Some(self.first_frame)
        } else {
            None
        }
    }

    /// Whether the version has an entry that is no Frame, and no Frame stands before it.
    pub fn served(&self, version: u32) -> bool
        ensures { result ≡ served self.now.entries version }
    {
        self.index_of(version) < self.first_frame
    }

    /// The index of the first entry that stops, else how many entries there are. `stops` is asked of entries of this list
    /// alone.
    pub fn place_of<F: Fn(&Entry) -> bool>(&self, stops: F) -> u32
        requires { IsAskable F.Fn stops self.now.entries }
        ensures place { AnswersBy F.Fn stops self.now.entries (λ test. result ≡ position_or_len test self.now.entries) }
        ensures bound { result ≤ length self.now.entries }
    {
        for index in 0..self.len() {
            if stops(self.get(index)) {
                return index;
            }
        }
        self.len()
    }

    /// The index of the first of the entries at the end that stop, else how many entries there are. Where behind an entry that
    /// stops all do, this is the first entry that stops. `stops` is asked of entries of this list alone, from the last one on.
    pub fn place_from_end<F: Fn(&Entry) -> bool>(&self, stops: F) -> u32
        requires { IsAskable F.Fn stops self.now.entries }
        ensures from { AnswersBy F.Fn stops self.now.entries (λ test. StopsFrom test self.now.entries result) }
        ensures place { AnswersBy F.Fn stops self.now.entries
            (λ test. StopsToTheEnd test self.now.entries → result ≡ position_or_len test self.now.entries) }
        ensures bound { result ≤ length self.now.entries }
    {
        let mut place = self.len();
        while 0 < place {
            if !stops(self.get(place - 1)) {
                return place;
            }
            place -= 1;
        }
        place
    }

    /// Puts an entry in at an index: what stood there and behind it moves back by one. Takes no memory.
    #[inline(always)]
    pub fn insert_at(&mut self, index: u32, entry: Entry)
        requires room { length self.old.entries < self.old.room }
        requires in_list { index ≤ length self.old.entries }
        requires new_version { has self.old.entries entry.version ≡ false }
        ensures { self.new ≡ with_entries self.old (insert self.old.entries index entry) }
    {
        let first_frame = self.first_frame_with(index, &entry);
        let done_end = self.done_end_with(index, &entry);
        let newest = self.newest.max(entry.version);
        put_in(&mut self.entries, index as usize, entry);
        self.first_frame = first_frame;
        self.done_end = done_end;
        self.newest = newest;
    }

    /// Makes the version's Mark a Frame.
    pub fn raise_mark(&mut self, version: u32)
        requires { IsTrue (at is_mark self.old.entries version) }
        ensures { self.new ≡ with_entries self.old (with_state version Frame self.old.entries) }
    {
        let own = self.index_of(version);
        self.set_state_at(own, State::Frame);
    }

    /// Makes the version's Frame a Done with this value and these picks, changed or not.
    pub fn finish(&mut self, version: u32, value: Value, changed: bool, picks: Picks)
        requires { IsTrue (at is_frame self.old.entries version) }
        ensures { self.new ≡ with_entries self.old (with_state version (Done value changed picks) self.old.entries) }
    {
        let own = self.index_of(version);
        self.finish_at(own, value, changed, picks);
    }

    /// Makes the Frame at the index `own` a Done, as `finish` makes that of a version.
    #[inline(always)]
    pub fn finish_at(&mut self, own: u32, value: Value, changed: bool, picks: Picks)
        requires in_list { own < length self.old.entries }
        requires frame { IsTrue (at is_frame self.old.entries (version_at self.old.entries own)) }
        ensures { self.new ≡ with_entries self.old
            (with_state (version_at self.old.entries own) (Done value changed picks) self.old.entries) }
    {
        let state = State::Done {
            value,
            changed,
            picks,
        };
        self.set_state_at(own, state);
    }

    /// The node's value for the version: that of the last Done at or before its entry.
    pub fn value_for(&self, version: u32) -> Value
        requires entry { IsTrue (has self.now.entries version) }
        requires done { IsSome (last_done (up_to self.now.entries version)) }
        ensures { result ≡ value_at self.now.entries version }
    {
        value_in(self.done_at(version))
    }

    /// The node's picks for the version: those of the last Done at or before its entry. Takes no memory.
    pub fn picks_for(&self, version: u32) -> Picks
        requires entry { IsTrue (has self.now.entries version) }
        requires done { IsSome (last_done (up_to self.now.entries version)) }
        ensures { result ≡ picks_at self.now.entries version }
    {
        picks_in(self.done_at(version))
    }

    /// The node's value before the version: that of the last Done strictly before its entry.
    pub fn value_before(&self, version: u32) -> Value
        requires entry { IsTrue (has self.now.entries version) }
        requires done { IsSome (last_done (before self.now.entries version)) }
        ensures { result ≡ value_before self.now.entries version }
    {
        value_in(self.done_before(version))
    }

    /// The node's value before the version whose entry stands at the index `own`, as `value_before` tells it of the version.
    #[inline(always)]
    pub fn value_before_at(&self, own: u32) -> Value
        requires in_list { own < length self.now.entries }
        requires done { IsSome (last_done (before self.now.entries (version_at self.now.entries own))) }
        ensures { result ≡ value_before self.now.entries (version_at self.now.entries own) }
    {
        self.is_kept();
        value_in(last_done(self.done_part(own as usize)))
    }

    /// The node's picks before the version: those of the last Done strictly before its entry. Takes no memory.
    pub fn picks_before(&self, version: u32) -> Picks
        requires entry { IsTrue (has self.now.entries version) }
        requires done { IsSome (last_done (before self.now.entries version)) }
        ensures { result ≡ picks_before self.now.entries version }
    {
        picks_in(self.done_before(version))
    }

    /// How many out-edges there are.
    pub fn outs_len(&self) -> u32
        ensures { result ≡ length self.now.outs }
    {
        self.outs.len() as u32
    }

    /// The out-edge at an index, counted from 0: its choose node and its since.
    pub fn out(&self, index: u32) -> (u32, u32)
        requires { index < length self.now.outs }
        ensures { slice_get self.now.outs index ≡ Some result }
    {
        self.outs.as_slice()[index as usize]
    }

    /// Whether the out-edge at an index is active for the version: the entry of its since stands at or before that of the
    /// version, or isn't in the list.
    pub fn active(&self, index: u32, version: u32) -> bool
        requires in_outs { index < length self.now.outs }
        requires entry { IsTrue (has self.now.entries version) }
        ensures { result ≡ is_active self.now.entries (since_at self.now.outs index) version }
    {
        self.active_at(self.index_of(version), index)
    }

    /// Whether the out-edge at an index is active for the version whose entry stands at the index `own`, as `active` tells
    /// it of the version. Looks at the entries behind `own` alone.
    pub fn active_at(&self, own: u32, index: u32) -> bool
        requires in_list { own < length self.now.entries }
        requires in_outs { index < length self.now.outs }
        ensures { result ≡ is_active self.now.entries (since_at self.now.outs index) (version_at self.now.entries own) }
    {
        let (_, since) = self.out(index);
        !is_among(&self.entries.as_slice()[own as usize + 1..], since)
    }

    /// Adds an out-edge at the end. Takes no memory.
    pub fn add_out(&mut self, node: u32, since: u32)
        requires room { length self.old.outs < self.old.outs_room }
        requires new_edge { has_out self.old.outs node since ≡ false }
        ensures { self.new ≡ with_outs self.old (with_out self.old.outs node since) }
    {
        self.outs.push_reserved((node, since));
    }

    /// Takes an out-edge out. The others keep their order.
    pub fn remove_out(&mut self, node: u32, since: u32)
        requires { IsTrue (has_out self.old.outs node since) }
        ensures { self.new ≡ with_outs self.old (without_out self.old.outs node since) }
    {
        self.outs.retain(|edge| edge.0 != node || edge.1 != since);
    }

    /// Of the entries that have ended only the last Done stays. Answers how many went. The ended entries are the first
    /// ones of the list, and one of them is Done. `ended` is asked of entries of this list alone. Takes no memory.
    pub fn collect<F: Fn(&Entry) -> bool>(&mut self, ended: F) -> u32
        requires askable { IsAskable F.Fn ended self.old.entries }
        requires ended { AnswersTo F.Fn ended self.old.entries (λ test. HasEndedPrefix test self.old.entries) }
        ensures list { AnswersBy F.Fn ended self.old.entries
            (λ test. HasEndedPrefix test self.old.entries → self.new ≡ with_entries self.old (collected test self.old.entries)) }
        ensures gone { result + length self.new.entries ≡ length self.old.entries }
    {
        let count = self.ended_len(&ended);
        let Some(kept) = last_done_place(self.done_part(count as usize)) else {
            return 0;
        };
        let first_frame = self.frame_from(count) - count + 1;
        let done_end = self.done_end.saturating_sub(count) + 1;
        keep_one(&mut self.entries, kept, count as usize);
        self.first_frame = first_frame;
        self.done_end = done_end;
        count - 1
    }

    /// What holds of every list: there is an entry, there are no more entries and out-edges than there is room for, no two
    /// entries have one version, and no out-edge is there twice. Does nothing when it runs.
    pub fn is_kept(&self)
        ensures some { 0 < length self.now.entries }
        ensures fits { length self.now.entries ≤ self.now.room }
        ensures unique { IsUnique self.now.entries }
        ensures outs_fit { length self.now.outs ≤ self.now.outs_room }
        ensures different { AreDifferent self.now.outs }
    {
        let _ = &self.entries;
    }

    // Puts another state into the entry at an index, which is no Done.
    #[inline(always)]
    fn set_state_at(&mut self, own: u32, state: State)
        requires in_list { own < length self.old.entries }
        requires no_done { IsTrue (at (λ s. not (is_done s)) self.old.entries (version_at self.old.entries own)) }
        ensures { self.new ≡ with_entries self.old (with_state (version_at self.old.entries own) state self.old.entries) }
    {
        let first_frame = self.first_frame_after(own, &state);
        let done_end = self.done_end_after(own, &state);
        let Some(entry) = self.entries.get_mut(own as usize) else {
            return;
        };
        entry.state = state;
        self.first_frame = first_frame;
        self.done_end = done_end;
    }

    // The index of the first Frame once an entry is put in at an index, and the index behind the last Done then.
    fn first_frame_with(&self, index: u32, entry: &Entry) -> u32
        requires room { length self.now.entries < self.now.room }
        requires in_list { index ≤ length self.now.entries }
        ensures { result ≡ position_or_len (λ e. is_frame e.state) (insert self.now.entries index entry.now) }
    {
        if self.first_frame < index {
            self.first_frame
        } else if entry.state.is_frame() {
            index
        } else {
            self.first_frame + 1
        }
    }

    fn done_end_with(&self, index: u32, entry: &Entry) -> u32
        requires room { length self.now.entries < self.now.room }
        requires in_list { index ≤ length self.now.entries }
        ensures { result ≡ done_len (insert self.now.entries index entry.now) }
    {
        if index < self.done_end {
            self.done_end + 1
        } else if entry.state.is_done() {
            index + 1
        } else {
            self.done_end
        }
    }

    // The index of the first Frame once the call whose entry stands at an index has another state, and the index behind the
    // last Done then, where that entry is no Done.
    #[inline(always)]
    fn first_frame_after(&self, place: u32, state: &State) -> u32
        requires { place < length self.now.entries }
        ensures { (t : ℕ) → place ≡ position_or_len (is_of t) self.now.entries
            → result ≡ position_or_len (λ e. is_frame e.state) (with_state t state.now self.now.entries) }
    {
        if self.first_frame < place {
            self.first_frame
        } else if state.is_frame() {
            place
        } else {
            self.frame_from(place + 1)
        }
    }

    #[inline(always)]
    fn done_end_after(&self, place: u32, state: &State) -> u32
        requires { place < length self.now.entries }
        ensures { (t : ℕ) → place ≡ position_or_len (is_of t) self.now.entries → IsTrue (at (λ s. not (is_done s)) self.now.entries t)
            → result ≡ done_len (with_state t state.now self.now.entries) }
    {
        if state.is_done() {
            self.done_end.max(place + 1)
        } else {
            self.done_end
        }
    }

    // The index of the first Frame at an index or behind it, else how many entries there are.
    #[inline]
    fn frame_from(&self, from: u32) -> u32
        requires { from ≤ length self.now.entries }
        ensures place { result ≡ from + position_or_len (λ e. is_frame e.state) (drop from self.now.entries) }
        ensures bound { result ≤ length self.now.entries }
    {
        if from <= self.first_frame {
            return self.first_frame;
        }
        from + frames_from(&self.entries.as_slice()[from as usize..]) as u32
    }

    // The last Done at or before the version's entry, and the last one strictly before it.
    fn done_at(&self, version: u32) -> Option<&Entry>
        requires { IsTrue (has self.now.entries version) }
        ensures { option_copied result ≡ last_done (up_to self.now.entries version) }
    {
        last_done(self.done_part(self.index_of(version) as usize + 1))
    }

    fn done_before(&self, version: u32) -> Option<&Entry>
        ensures { option_copied result ≡ last_done (before self.now.entries version) }
    {
        last_done(self.done_part(self.index_of(version) as usize))
    }

    // So many entries from the first one on, without those behind the list's last Done.
    fn done_part(&self, count: usize) -> &[Entry]
        requires { count ≤ length self.now.entries }
        ensures part { result.now ≡ take (min count (done_len self.now.entries)) self.now.entries }
        ensures last { last_done result.now ≡ last_done (take count self.now.entries) }
    {
        let end = count.min(self.done_end as usize);
        &self.entries.as_slice()[..end]
    }

    // How many entries stand before the first that has not ended.
    fn ended_len<F: Fn(&Entry) -> bool>(&self, ended: &F) -> u32
        requires { IsAskable F.Fn ended.now self.now.entries }
        ensures place { AnswersBy F.Fn ended.entry.now self.now.entries (λ test. result ≡ ended_len test self.now.entries) }
        ensures bound { result ≤ length self.now.entries }
    {
        self.place_of(
            |entry|
                requires { F.pre ended.now entry }
                ensures { F.post ended.entry.now entry.entry (not result) }
            { !ended(entry) },
        )
    }
}

// Puts an entry in at an index where there is room for it. At the end, where most calls enter, none moves.
#[inline(always)]
fn put_in(entries: &mut SmallVec<Entry, INLINE_ENTRIES>, index: usize, entry: Entry)
    requires room { HasRoomFor entries.old 1 }
    requires in_list { index ≤ small_vec_len entries.old }
    ensures items { entries.new.items ≡ insert entries.old.items index entry }
    ensures capacity { entries.new.capacity ≡ entries.old.capacity }
{
    if index == entries.len() {
        entries.push_reserved(entry);
        return;
    }
    let _room_is_reserved = entries.insert(index, entry);
}

// Whether the version has one of the entries.
fn is_among(entries: &[Entry], version: u32) -> bool
    ensures { result ≡ list_any (is_of version) entries.now }
{
    entries.iter().any(|entry| entry.version == version)
}

// How many entries stand before the first Frame.
fn frames_from(entries: &[Entry]) -> usize
    ensures { result ≡ position_or_len (λ e. is_frame e.state) entries.now }
{
    for (place, entry) in entries.iter().enumerate() {
        if entry.state.is_frame() {
            return place;
        }
    }
    entries.len()
}

// The index of the last Done of a list.
fn last_done_place(entries: &[Entry]) -> Option<usize>
    ensures some { IfSome result (λ i. (i < length entries.now) × (slice_get entries.now i ≡ last_done entries.now)) }
    ensures none { IfNone result (last_done entries.now ≡ None) }
{
    let mut rest = entries;
    while let Some((entry, front)) = rest.split_last() {
        if entry.state.is_done() {
            return Some(front.len());
        }
        rest = front;
    }
    None
}

// The last Done of a list.
fn last_done(entries: &[Entry]) -> Option<&Entry>
    ensures { option_copied result ≡ last_done entries.now }
{
    match last_done_place(entries) {
        Some(place) => Some(&entries[place]),
        None => None,
    }
}

// The value of a Done, and its picks.
fn value_in(done: Option<&Entry>) -> Value
    ensures { result ≡ value_of (state_of (option_copied done.entry)) }
{
    match done {
        Some(entry) => entry.state.value(),
        None => State::Mark.value(),
    }
}

fn picks_in(done: Option<&Entry>) -> Picks
    ensures { result ≡ picks_of (state_of (option_copied done.entry)) }
{
    match done {
        Some(entry) => entry.state.picks(),
        None => Picks::new(),
    }
}

// Of the first `count` entries only the one at the index `kept` stays.
fn keep_one(entries: &mut SmallVec<Entry, INLINE_ENTRIES>, kept: usize, count: usize)
    requires kept { kept < count }
    requires count { count ≤ small_vec_len entries.old }
    ensures items { entries.new.items ≡ remove_range (remove_range entries.old.items (kept + 1) count) 0 kept }
    ensures capacity { entries.new.capacity ≡ entries.old.capacity }
{
    drop(entries.drain(kept + 1..count));
    drop(entries.drain(..kept));
}
