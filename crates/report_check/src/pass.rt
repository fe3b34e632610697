// The pass over the lines of calls.

ghost use Rattle.std.specs.Prelude.{◌≡◌, ◌↔◌, ◌<◌, ◌+◌, [], length, take, slice_get, Some, None, IsTrue, IfSome, IfNone, IfOk};
ghost use Rattle.signal_graph.specs.Machine.{misnamed, reply, after, looks_of};
ghost use Rattle.signal_graph.specs.Values.{Values};
ghost use Rattle.serial_machine.specs.State.{IsAt};
ghost use Rattle.report_text.specs.declared.data.CallLine.{CallLine};
ghost use Rattle.report_check.specs.Right.{log_of, IsRightCall};
ghost use Rattle.report_check.specs.Standing.{IsFree, IsNext, HasNoNext, Stands};

use crate::count::next_well_named;
use crate::same::{same_names, same_reply};
use crate::seat::Seat;
use deck_text::Deck;
use report_text::data::CallLine;
use script_tree::memory::OutOfMemory;
use serial_machine::Machine;
use signal_graph::call::Call;
use std::alloc::Global;

/// Where the pass stands: how many calls are made in all, the machine in the state after the lines so far, where each
/// thread stands, and a mark for each version that a line has.
#[derive(Drop)]
pub struct Pass<'d> {
    pub made: u32,
    pub machine: Machine<'d>,
    pub seats: Vec<Seat>,
    pub marks: Vec<bool>,
}

// Whether a version is one of 1 to `made`, has no mark, and is greater than the last one of its thread.
fn is_free(made: u32, marks: &[bool], last: u32, version: u32) -> bool
    requires { length marks.now ≡ made + 1 }
    ensures { IsTrue result ↔ IsFree made marks.now last version }
{
    if version == 0 {
        return false;
    }
    if version > made {
        return false;
    }
    if version <= last {
        return false;
    }
    !marks[version as usize]
}

// The index of the next well-named call of a caller, if there is such a caller and it has one.
fn next_of(deck: &Deck, seats: &[Seat], caller: u32) -> Option<u32>
    requires { length seats.now ≡ length deck.now.scripts }
    ensures some { IfSome result (λ at. IsNext deck.now.graph deck.now.scripts seats.now caller at) }
    ensures none { IfNone result (HasNoNext deck.now.graph deck.now.scripts seats.now caller) }
{
    let graph = deck.graph();
    let scripts = deck.scripts();
    if caller == 0 {
        return None;
    }
    let thread = caller as usize - 1;
    if thread >= scripts.len() {
        return None;
    }
    let calls = scripts.get(thread);
    next_well_named(graph, calls.as_slice(), seats[thread].next)
}

impl<'d> Pass<'d> {
    /// Before the first line. Takes memory.
    pub fn new(alloc: Global, deck: &'d Deck, made: u32) -> Result<Pass<'d>, OutOfMemory>
        ensures made { IfOk result (λ pass. pass.made ≡ made) }
        ensures stands { IfOk result (λ pass.
            Stands deck.now.graph deck.now.scripts made pass.machine pass.seats.items pass.marks.items []) }
    {
        let machine = Machine::new(alloc, deck.graph())?;
        let seat = Seat {
            next: 0,
            made: 0,
            last: 0,
        };
        let seats = Vec::from_elem(alloc, seat, deck.scripts().len())?;
        let marks = Vec::from_elem(alloc, false, made as usize + 1)?;
        Ok(Pass {
            made,
            machine,
            seats,
            marks,
        })
    }

    // Makes a call, and tells whether a line has its looks and its reply.
    fn make(&mut self, call: &Call, line: &CallLine) -> Result<bool, OutOfMemory>
        requires { misnamed self.old.machine.graph call.now ≡ None }
        ensures made { self.new.made ≡ self.old.made }
        ensures seats { self.new.seats.items ≡ self.old.seats.items }
        ensures marks { self.new.marks.items ≡ self.old.marks.items }
        ensures graph { self.new.machine.graph ≡ self.old.machine.graph }
        ensures right { (kept : Values) → IsAt self.old.machine kept
            → IfOk result
            (λ right. IsTrue right ↔ ((line.now.names ≡ looks_of call.now)
            × (line.now.reply ≡ reply self.old.machine.graph kept call.now))) }
        ensures moves { (kept : Values) → IsAt self.old.machine kept
            → IfOk result (λ right. IsTrue right → IsAt self.new.machine (after self.old.machine.graph kept call.now)) }
    {
        if !same_names(line.names.as_slice(), call.looks()) {
            return Ok(false);
        }
        let reply = self.machine.step(call)?;
        Ok(same_reply(&line.reply, &reply))
    }

    /// Whether the line of a call at a place is right behind the lines before it. Where it is, the pass stands behind it.
    /// Takes memory.
    pub fn take(
        &mut self,
        deck: &Deck,
        lines: &[CallLine],
        place: usize,
    ) -> Result<bool, OutOfMemory>
        requires within { place < length lines.now }
        requires stands { Stands deck.now.graph deck.now.scripts self.old.made self.old.machine self.old.seats.items self.old.marks.items
            (log_of deck.now.graph deck.now.scripts (take place lines.now)) }
        ensures made { self.new.made ≡ self.old.made }
        ensures right { (line : CallLine) → slice_get lines.now place ≡ Some line
            → IfOk result (λ right. IsTrue right ↔ IsRightCall deck.now.graph deck.now.scripts self.old.made
            (log_of deck.now.graph deck.now.scripts (take place lines.now)) line) }
        ensures stands { IfOk result (λ right. IsTrue right
            → Stands deck.now.graph deck.now.scripts self.old.made self.new.machine self.new.seats.items self.new.marks.items
            (log_of deck.now.graph deck.now.scripts (take (place + 1) lines.now))) }
    {
        let line = &lines[place];
        let scripts = deck.scripts();
        let Some(at) = next_of(deck, self.seats.as_slice(), line.caller) else {
            return Ok(false);
        };
        let thread = line.caller as usize - 1;
        let seat = self.seats[thread];
        if !is_free(self.made, self.marks.as_slice(), seat.last, line.version) {
            return Ok(false);
        }
        let call = scripts.get(thread).get(at as usize);
        if !self.make(call, line)? {
            return Ok(false);
        }
        self.seats[thread] = Seat {
            next: at + 1,
            made: seat.made + 1,
            last: line.version,
        };
        self.marks[line.version as usize] = true;
        Ok(true)
    }
}
