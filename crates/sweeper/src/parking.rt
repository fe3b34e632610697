// Which callers wait, for whom, and for what.

use crate::callers::CallerSet;
use crate::moment::Moment;
use flow_model::Step;
use script_tree::memory::OutOfMemory;
use std::alloc::Global;

// Callers count from 1. What waits for nobody in particular waits for any move.
const NOBODY: u32 = 0;

// What is kept of a caller. Callers that wait for the same one stand in a list, linked by their numbers.
#[derive(Drop)]
struct Place {
    // Whether something is in the way of the caller's call; if so whose call that is, and what it has to come to.
    waits: bool,
    whom: u32,
    what: Moment,
    // Who stands before it and behind it among those that wait for the same caller.
    before: u32,
    behind: u32,
    // The first of those that wait for this caller.
    first: u32,
}

/// What is in the way of which caller. It lies under the lock under which moves are made: what is in the way is noted in the
/// acquisition that found it, and a move takes out those that it lets go on, so none of them sleeps past it. A move goes over
/// those alone that wait for its caller or for any move. Only `new` takes memory.
#[derive(Drop)]
pub(crate) struct Parking {
    // By the callers' numbers; nobody's place has the list of those that wait for any move.
    places: Vec<Place>,
    // How many wait.
    waiting: u32,
    // Those that may go on and were not woken yet, and whether there are any.
    freed: CallerSet,
    is_any_freed: bool,
}

impl Parking {
    /// The places of so many callers, of which none waits.
    pub(crate) fn new(alloc: Global, callers: u32) -> Result<Parking, OutOfMemory> {
        let count = callers as usize + 1;
        let mut places = Vec::with_capacity(alloc, count)?;
        for _ in 0..count {
            places.push_reserved(Place {
                waits: false,
                whom: NOBODY,
                what: Moment::Move,
                before: NOBODY,
                behind: NOBODY,
                first: NOBODY,
            });
        }
        Ok(Parking {
            places,
            waiting: 0,
            freed: CallerSet::new(),
            is_any_freed: false,
        })
    }

    /// Whether something is in the way of the caller's call, as far as was noted.
    pub(crate) fn waits(&self, caller: u32) -> bool {
        match self.places.get(caller as usize) {
            Some(place) => place.waits,
            None => false,
        }
    }

    /// The caller waits for another one's call to come to this. What it waited for before is forgotten.
    pub(crate) fn wait_for(&mut self, caller: u32, whom: u32, what: Moment) {
        self.forget(caller);
        let behind = self.first(whom);
        self.enter(caller, whom, what, behind);
        self.put_before(behind, caller);
        self.put_first(whom, caller);
        self.waiting = self.waiting.saturating_add(1);
    }

    /// The caller waits for any move.
    pub(crate) fn wait_for_any(&mut self, caller: u32) {
        self.wait_for(caller, NOBODY, Moment::Move);
    }

    /// The caller waits for nothing.
    pub(crate) fn forget(&mut self, caller: u32) {
        let Some(place) = self.places.get_mut(caller as usize) else {
            return;
        };
        if !place.waits {
            return;
        }
        place.waits = false;
        let (whom, before, behind) = (place.whom, place.before, place.behind);
        if before == NOBODY {
            self.put_first(whom, behind);
        } else {
            self.put_behind(before, behind);
        }
        self.put_before(behind, before);
        self.waiting = self.waiting.saturating_sub(1);
    }

    /// A caller's call has made a step: whoever waited for what it comes to with that goes on, and whoever waited for any move.
    #[inline(always)]
    pub(crate) fn stepped(&mut self, caller: u32, step: Step) {
        if self.waiting != 0 {
            self.come_to(caller, Moment::of(step));
        }
    }

    /// A caller's call has made a move that nobody waits for in particular: whoever waited for any move goes on.
    #[inline(always)]
    pub(crate) fn moved(&mut self, caller: u32) {
        if self.waiting != 0 {
            self.come_to(caller, Moment::Move);
        }
    }

    // A caller's call has made a move, with which it comes to this.
    #[cold]
    #[inline(never)]
    fn come_to(&mut self, caller: u32, come: Moment) {
        self.forget(caller);
        self.free(NOBODY, come);
        self.free(caller, come);
    }

    /// Whether there are any that may go on and were not woken yet.
    #[inline(always)]
    pub(crate) fn is_any_freed(&self) -> bool {
        self.is_any_freed
    }

    /// Those that may go on. They are to be woken once the lock is free.
    pub(crate) fn take_freed(&mut self) -> CallerSet {
        let freed = self.freed;
        self.freed = CallerSet::new();
        self.is_any_freed = false;
        freed
    }

    // Of those that wait for a caller, lets those go on that waited for this.
    fn free(&mut self, whom: u32, come: Moment) {
        let mut next = self.first(whom);
        for _ in 0..self.places.len() {
            if next == NOBODY {
                return;
            }
            next = self.free_one(next, come);
        }
    }

    // Lets one go on if it waited for this. Answers who stands behind it.
    fn free_one(&mut self, caller: u32, come: Moment) -> u32 {
        let Some(place) = self.places.get(caller as usize) else {
            return NOBODY;
        };
        let behind = place.behind;
        if place.what.is_over(come) {
            self.forget(caller);
            self.freed.insert(caller);
            self.is_any_freed = true;
        }
        behind
    }

    // The first of those that wait for a caller.
    fn first(&self, whom: u32) -> u32 {
        match self.places.get(whom as usize) {
            Some(place) => place.first,
            None => NOBODY,
        }
    }

    fn put_first(&mut self, whom: u32, caller: u32) {
        if let Some(place) = self.places.get_mut(whom as usize) {
            place.first = caller;
        }
    }

    // Writes who stands before a caller, unless that is nobody.
    fn put_before(&mut self, caller: u32, before: u32) {
        if caller == NOBODY {
            return;
        }
        if let Some(place) = self.places.get_mut(caller as usize) {
            place.before = before;
        }
    }

    fn put_behind(&mut self, caller: u32, behind: u32) {
        if let Some(place) = self.places.get_mut(caller as usize) {
            place.behind = behind;
        }
    }

    // Writes for whom and what a caller waits. It is the first of those that wait for that one.
    fn enter(&mut self, caller: u32, whom: u32, what: Moment, behind: u32) {
        if let Some(place) = self.places.get_mut(caller as usize) {
            place.waits = true;
            place.whom = whom;
            place.what = what;
            place.before = NOBODY;
            place.behind = behind;
        }
    }
}
