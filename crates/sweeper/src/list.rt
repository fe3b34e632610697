// A list of passes.

ghost use Rattle.std.specs.Prelude.{◌≡◌, ◌++◌, ◌∷◌, [], ◌≤◌, ◌<◌, length, vec_capacity, IfOk, IfNone, MatchOption};

use crate::naming::Naming;
use crate::token::Pass;
use script_tree::memory::OutOfMemory;
use std::alloc::Global;
use std::marker::Model;

/// A list of passes, with room for as many as its sweeper has callers. Contracts see the list. It must be spent.
pub struct PassList<J: Naming> {
    passes: Vec<Pass<J>>,
}

impl<J: Naming> Model for PassList<J> {
    ghost use Rattle.std.specs.Prelude.{◌≤◌, List, length, vec_capacity};
    ghost use Rattle.caller_fronts.specs.Tokens.{Idle};

    ghost Value = { List Idle };

    ghost view = { λ l. l.passes.items };

    ghost invariant = { λ l. (J.callers ≤ vec_capacity l.passes) × (length l.passes.items ≤ J.callers) };
}

impl<J: Naming> PassList<J> {
    // The empty list. Takes memory.
    pub(crate) fn new(alloc: Global, callers: usize) -> Result<PassList<J>, OutOfMemory>
        requires { callers ≡ J.callers }
        ensures { IfOk result (λ list. list ≡ []) }
    {
        let passes = Vec::with_capacity(alloc, callers)?;
        Ok(PassList { passes })
    }

    /// How many passes there are, at most as many as callers. Takes no memory.
    pub fn len(&self) -> usize
        ensures len { result ≡ length self.now }
        ensures few { length self.now ≤ J.callers }
    {
        self.passes.len()
    }

    /// Adds a pass at the end. The list has fewer than there are callers. Takes no memory.
    pub fn push(&mut self, pass: Pass<J>)
        requires { length self.old < J.callers }
        ensures { self.new ≡ self.old ++ pass ∷ [] }
    {
        self.passes.push_reserved(pass);
    }

    /// Takes the first pass out, and answers None exactly where the list is empty. Takes no memory.
    pub fn take_first(&mut self) -> Option<Pass<J>>
        ensures list { MatchOption result (self.old ≡ []) (λ pass. self.old ≡ pass ∷ self.new) }
        ensures none { IfNone result (self.new ≡ self.old) }
    {
        if self.passes.is_empty() {
            return None;
        }
        Some(self.passes.remove(0))
    }

    /// Spends the list, which is empty. Takes no memory.
    pub fn spend(self)
        requires { self ≡ [] }
    {
        let PassList { passes } = self;
        passes.destroy_empty();
    }
}
