// The recorded order and its masks.
ghost use Rattle.std.specs.Prelude.{◌≡◌, ◌≢◌, ℕ, ◌*◌, ◌<◌, ◌≤◌, ◌↔◌, replicate, length};
ghost use Rattle.std.specs.Prelude.{vec_len, vec_capacity, IsTrue, IfOk, IfSome, IfNone};
ghost use Rattle.std.specs.FinSet as set;
ghost use Rattle.order_graph.specs.Order.{Precedes, reaches, is_recorded, node_of, linked, retired, mask_of};
ghost use Rattle.order_graph.specs.Order.{MasksAreClosure, without_pairs, AreApart, IsNextBefore};
ghost use Rattle.order_graph.specs.Kept.{AreOfSlots, AreMirrored, IsPassedOn};

use crate::MAX_CALLERS;
use crate::pair::Pair;
use crate::slot_set::{SlotSet, join_each, take_out};
use script_tree::memory::OutOfMemory;
use std::alloc::{AllocError, Global};
use std::marker::Model;
use std::mem;

/// The recorded order between the slots of live calls: pairs of slots, each with the node that it was first recorded
/// for, and for each slot the set of all slots that precede it.
///
/// Contracts see the number of callers, the list of recorded pairs in the order in which they were recorded, and the
/// sets, called masks, as a list with one mask per slot. Slots are the numbers below the number of callers. A slot
/// precedes another where a chain of recorded pairs leads from the first to the second. The masks are kept beside the
/// pairs, so that `precedes` reads one bit.
#[derive(Drop)]
pub struct OrderGraph {
    callers: u32,
    pairs: Vec<Pair>,
    direct: Vec<SlotSet>,
    nodes: Vec<u32>,
    before: Vec<SlotSet>,
    // For each slot those that it precedes: they lead `link` and `retire` to the sets that change.
    after: Vec<SlotSet>,
}

impl Model for OrderGraph {
    ghost use Rattle.order_graph.specs.Order.{Order, order_code};
    ghost use Rattle.order_graph.specs.Kept.{order_of, IsKept};
    ghost use Rattle.std.specs.Vec.{vec_capacity};

    ghost Value = { Order };

    ghost coded = { order_code };

    ghost view = { λ g. order_of g.callers g.pairs.items g.before.items };

    ghost invariant = { λ g. IsKept g.callers (vec_capacity g.pairs) g.pairs.items g.direct.items g.nodes.items g.before.items g.after.items };
}

impl OrderGraph {
    /// An order of `callers` slots without pairs. Takes all memory that the order will need.
    pub fn new(alloc: Global, callers: u32) -> Result<OrderGraph, OutOfMemory>
        requires some { 0 < callers }
        requires few { callers ≤ MAX_CALLERS }
        ensures { IfOk result (λ graph. graph ≡ without_pairs callers) }
    {
        let cells = (callers * callers) as usize;
        Ok(OrderGraph {
            callers,
            pairs: Vec::with_capacity(alloc, cells)?,
            direct: empty_sets(alloc, callers)?,
            nodes: vec![in alloc; 0; cells]?,
            before: empty_sets(alloc, callers)?,
            after: empty_sets(alloc, callers)?,
        })
    }

    /// Whether slot a precedes slot b.
    pub fn precedes(&self, a: u32, b: u32) -> bool
        requires a_is_slot { a < self.now.callers }
        requires b_is_slot { b < self.now.callers }
        ensures closure { IsTrue result ↔ Precedes self.now.pairs a b }
        ensures test { result ≡ reaches self.now.pairs a b }
        ensures mask { result ≡ set.contains (mask_of self.now b) a }
    {
        self.before[b as usize].contains(a)
    }

    /// The least slot at or above `from` that is a direct predecessor of slot b. None exactly where there is none.
    pub fn next_before(&self, b: u32, from: u32) -> Option<u32>
        requires { b < self.now.callers }
        ensures slot { IfSome result (λ a. a < self.now.callers) }
        ensures some { IfSome result (IsNextBefore self.now.pairs b from) }
        ensures none { IfNone result ((x : ℕ) → from ≤ x → ¬ IsTrue (is_recorded self.now.pairs x b)) }

        // Where nothing is a direct predecessor, nothing precedes.
        ensures first { from ≡ 0 → IfNone result ((x : ℕ) → ¬ (Precedes self.now.pairs x b)) }
    {
        self.direct[b as usize].least_from(from)
    }

    /// The node that the pair of slots a and b was first recorded for. None exactly where the pair isn't recorded.
    pub fn node_of(&self, a: u32, b: u32) -> Option<u32>
        requires a_is_slot { a < self.now.callers }
        requires b_is_slot { b < self.now.callers }
        ensures { result ≡ node_of self.now.pairs a b }
    {
        if self.direct[b as usize].contains(a) {
            Some(self.nodes[(b * self.callers + a) as usize])
        } else {
            None
        }
    }

    /// Records that slot a comes before slot b, for this node. A pair that is recorded keeps its node.
    pub fn link(&mut self, a: u32, b: u32, node: u32)
        requires a_is_slot { a < self.old.callers }
        requires b_is_slot { b < self.old.callers }
        requires apart { a ≢ b }
        requires forward { ¬ (Precedes self.old.pairs b a) }
        ensures callers { self.new.callers ≡ self.old.callers }
        ensures pairs { self.new.pairs ≡ linked self.old.pairs a b node }
        ensures masks { MasksAreClosure self.new }
    {
        let recorded = self.direct[b as usize].contains(a);
        if recorded {
            return;
        }
        self.pairs.push_reserved(Pair {
            from: a,
            to: b,
            node,
        });
        self.direct[b as usize].insert(a);
        self.nodes[(b * self.callers + a) as usize] = node;
        // Where a precedes b already all sets have what would be passed on.
        if !self.before[b as usize].contains(a) {
            pass_on(self.before.as_mut_slice(), self.after.as_mut_slice(), a, b);
        }
    }

    /// Takes out all pairs of slot a, which no slot precedes. All other pairs stay.
    pub fn retire(&mut self, a: u32)
        requires a_is_slot { a < self.old.callers }
        requires first { (x : ℕ) → ¬ (Precedes self.old.pairs x a) }
        ensures callers { self.new.callers ≡ self.old.callers }
        ensures pairs { self.new.pairs ≡ retired self.old.pairs a }
        ensures masks { MasksAreClosure self.new }
    {
        // Where slot a precedes nothing no pair is of it, and none is looked for.
        if self.after[a as usize].least_from(0).is_none() {
            return;
        }
        let later = mem::replace(&mut self.after[a as usize], SlotSet::new());
        remove_pairs(&mut self.pairs, a);
        take_out(
            self.direct.as_mut_slice(),
            self.before.as_mut_slice(),
            &later,
            a,
        );
    }

    /// What holds of every order: the number of callers is 1 to 256, the pairs are of slots and no two of the same
    /// slots, each slot has a mask, a slot is in the mask of another exactly where it precedes that one, and no slot
    /// precedes itself. Does nothing when it runs.
    pub fn masks_are_closure(&self)
        ensures some { 0 < self.now.callers }
        ensures few { self.now.callers ≤ MAX_CALLERS }
        ensures slots { AreOfSlots self.now.callers self.now.pairs }
        ensures apart { AreApart self.now.pairs }
        ensures length { length self.now.masks ≡ self.now.callers }
        ensures closure { MasksAreClosure self.now }
        ensures no_cycle { (a : ℕ) → ¬ (Precedes self.now.pairs a a) }
    {
        let _ = &self.before;
    }
}

// As many empty sets.
fn empty_sets(alloc: Global, count: u32) -> Result<Vec<SlotSet>, AllocError>
    ensures { IfOk result (λ sets. sets.items ≡ replicate count set.empty) }
{
    let mut sets = Vec::with_capacity(alloc, count as usize)?;
    for _ in 0..count {
        sets.push(SlotSet::new())?;
    }
    Ok(sets)
}

// Slot a, and all that precede it, now precede slot b, and all that b precedes.
fn pass_on(before: &mut [SlotSet], after: &mut [SlotSet], a: u32, b: u32)
    requires few { length before.old ≤ MAX_CALLERS }
    requires as_many { length after.old ≡ length before.old }
    requires mirror { AreMirrored before.old after.old }
    requires a_is_slot { a < length before.old }
    requires b_is_slot { b < length before.old }
    ensures passed { IsPassedOn before.old before.new a b }
    ensures mirror { AreMirrored before.new after.new }
{
    let mut earlier = before[a as usize].copied();
    earlier.insert(a);
    let mut later = after[b as usize].copied();
    later.insert(b);
    join_each(before, &later, &earlier);
    join_each(after, &earlier, &later);
}

// Takes out the pairs of slot a. The others keep their order.
fn remove_pairs(pairs: &mut Vec<Pair>, a: u32)
    ensures pairs { pairs.new.items ≡ retired pairs.old.items a }
    ensures capacity { vec_capacity pairs.new ≡ vec_capacity pairs.old }
{
    pairs.retain(|pair| !(pair.from == a || pair.to == a));
}
