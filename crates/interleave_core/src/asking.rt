// Whose call is live, and whether a call may begin.

ghost use Rattle.std.specs.Prelude.{◌≡◌};
ghost use Rattle.flow_model.specs.Machine.State.{live};
ghost use Rattle.flow_model.specs.Machine.Schedules.{version_of};
ghost use Rattle.flow_model.specs.Machine.Steps.{can_begin};
ghost use Rattle.interleave_core.specs.Beginning.{is_free, is_within};

use crate::core_state::Core;
use script_tree::limits::{LOOKS, SETS};
use signal_graph::call::Call;

impl Core<'_> {
    /// How many callers there are; they count from 1.
    pub fn callers(&self) -> u32
        ensures { result ≡ self.now.state.callers }
    {
        self.book.callers()
    }

    /// The version of a caller's live call. None where it has none.
    pub fn live_call(&self, caller: u32) -> Option<u32>
        ensures { result ≡ version_of caller self.now.state.calls }
    {
        self.book.live_call(caller)
    }

    /// Whether the version is of a live call.
    pub fn live(&self, version: u32) -> bool
        ensures { result ≡ live self.now.state version }
    {
        self.book.live(version)
    }

    /// Whether a call of a caller may begin: it is one of the callers and has no live call, the call is within the limits and names
    /// what it has to, and a version is left. Takes no memory.
    pub fn can_begin(&self, caller: u32, call: &Call) -> bool
        ensures { result ≡ can_begin self.now.graph self.now.state caller call.now }
    {
        if !self.is_free(caller) || !is_within(call) {
            return false;
        }
        call.misnamed(self.graph).is_none() && self.book.begun() < self.book.limit()
    }

    // Whether there is such a caller, and it has no live call.
    fn is_free(&self, caller: u32) -> bool
        ensures { result ≡ is_free self.now.state caller }
    {
        if caller == 0 {
            return false;
        }
        if self.book.callers() < caller {
            return false;
        }
        self.book.live_call(caller).is_none()
    }
}

// Whether a call has no more sets and looks than it may.
fn is_within(call: &Call) -> bool
    ensures { result ≡ is_within call.now }
{
    call.sets().len() <= SETS && call.looks().len() <= LOOKS
}
