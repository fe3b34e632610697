// What is kept of a thread.

ghost use Rattle.std.specs.Prelude.{◌≡◌, ◌<◌, ◌-◌, ◌^◌, [], ◌∷◌, ◌++◌, length, Some, IfNone, IfSome, OnOk, OnErr};
ghost use Rattle.flow_model.specs.Machine.Lists.{is_empty};
ghost use Rattle.flow_model.specs.Machine.Schedules.{goes_on};
ghost use Rattle.replay_run.specs.Replaying.{new_caller, has_gone_on, has_refused, lives};

use call_log::{Refused, RefusedList, Why};
use script_tree::items::Items;
use script_tree::memory::OutOfMemory;
use signal_graph::call::{Call, CallList};
use std::alloc::Global;
use std::marker::Model;

/// A thread, and the version of its live call beside it. Contracts see the thread with all its calls that are left.
#[derive(Drop)]
pub struct Caller {
    live: Option<u32>,
    // The calls that are left, the next one last.
    left: Vec<Call>,
    // How many calls were begun or refused.
    taken: u32,
    refused: RefusedList,
}

impl Model for Caller {
    ghost use Rattle.std.specs.Prelude.{◌+◌, ◌<◌, ◌^◌, suc, length, reverse};
    ghost use Rattle.std.specs.Coded.{codes};
    ghost use Rattle.script_tree.specs.TreeCode.{tree_code};
    ghost use Rattle.replay_run.specs.Replaying.{Caller as Kept};

    ghost Value = { Kept };

    ghost coded = { Prim.hlevel (codes, tree_code) };

    ghost view = { λ c. record {
      live = c.live;
      thread = record { left = reverse c.left.items; number = suc c.taken; refused = c.refused };
    } };

    ghost invariant = { λ c. c.taken + length c.left.items < 2 ^ 32 };
}

impl Caller {
    /// A thread that has begun none of its calls. Takes no memory.
    pub fn new(alloc: Global, calls: CallList) -> Caller
        requires { length calls < 2 ^ 32 }
        ensures { result ≡ new_caller calls }
    {
        let mut left = calls.into_vec();
        left.reverse();
        Caller {
            live: None,
            left,
            taken: 0,
            refused: Items::new(alloc),
        }
    }

    /// The version of the live call. None where there is none.
    pub fn live(&self) -> Option<u32>
        ensures { result ≡ self.now.live }
    {
        self.live
    }

    /// Whether no call is left.
    pub fn is_done(&self) -> bool
        ensures { result ≡ is_empty self.now.thread.left }
    {
        self.left.is_empty()
    }

    /// Takes the next call, if one is left.
    pub fn take(&mut self) -> Option<Call>
        ensures none { IfNone result (self.new ≡ self.old) }
        ensures empty { IfNone result (self.old.thread.left ≡ []) }
        ensures call { IfSome result (λ call. self.old.thread.left ≡ call ∷ self.new.thread.left) }
        ensures some { IfSome result (λ call. self.new ≡ has_gone_on self.old self.new.thread.left) }
    {
        let call = self.left.pop()?;
        self.taken += 1;
        Some(call)
    }

    /// The call of this version is live.
    pub fn begin(&mut self, version: u32)
        ensures { self.new ≡ lives self.old (Some version) }
    {
        self.live = Some(version);
    }

    /// The live call has ended.
    pub fn end(&mut self)
        ensures { self.new ≡ lives self.old None }
    {
        self.live = None;
    }

    /// The call that was taken last is refused. Takes memory; where there is none all is as it was.
    pub fn refuse(&mut self, caller: u32, why: Why) -> Result<(), OutOfMemory>
        ensures ok { OnOk result (self.new ≡ has_refused self.old caller why) }
        ensures err { OnErr result (self.new ≡ self.old) }
    {
        self.refused.push(Refused {
            caller,
            number: self.taken,
            why,
        })
    }

    /// The calls that were refused. Takes no memory.
    pub fn refused(&self) -> &[Refused]
        ensures { result.now ≡ self.now.thread.refused }
    {
        self.refused.as_slice()
    }
}
