// A set of slots as four words of 64 bits, and what changes the sets of its members.
ghost use Rattle.std.specs.Prelude.{◌≡◌, ◌<◌, ◌≤◌, ℕ, length, IfSome, IfNone};
ghost use Rattle.script_tree.specs.Bits.{HasNoBit, IsLowestBit};
ghost use Rattle.order_graph.specs.Slots.{IsLeastFrom, HasNoneFrom};
ghost use Rattle.order_graph.specs.Sets.{HasAllBelow, slots_at, changed};
ghost use Rattle.std.specs.FinSet as set;

use std::marker::Model;

const WORD_BITS: u32 = 64;

/// A set of slots below 256. Slot q is the bit q modulo 64 of the word q / 64.
#[derive(Drop)]
pub(crate) struct SlotSet {
    words: [u64; 4],
}

impl Model for SlotSet {
    ghost use Rattle.std.specs.Coded.{coded_ℕ};
    ghost use Rattle.std.specs.FinSet as set;
    ghost use Rattle.order_graph.specs.Slots.{Slots, slots_of};

    ghost Value = { Slots };

    ghost coded = { set.code coded_ℕ };

    ghost view = { λ s. slots_of s.words };
}

impl SlotSet {
    /// The set without any slot.
    pub(crate) fn new() -> SlotSet
        ensures { result ≡ set.empty }
    {
        SlotSet { words: [0; 4] }
    }

    /// The same set once more.
    pub(crate) fn copied(&self) -> SlotSet
        ensures { result ≡ self.now }
    {
        SlotSet { words: self.words }
    }

    /// Whether the slot is in the set: reads one bit.
    pub(crate) fn contains(&self, slot: u32) -> bool
        requires { slot < 256 }
        ensures { result ≡ set.contains self.now slot }
    {
        self.words[(slot / WORD_BITS) as usize] & (1 << (slot % WORD_BITS)) != 0
    }

    /// Adds the slot.
    pub(crate) fn insert(&mut self, slot: u32)
        requires { slot < 256 }
        ensures { self.new ≡ set.insert self.old slot }
    {
        self.words[(slot / WORD_BITS) as usize] |= 1 << (slot % WORD_BITS);
    }

    /// Takes the slot out: clears one bit.
    pub(crate) fn remove(&mut self, slot: u32)
        requires { slot < 256 }
        ensures { self.new ≡ set.remove self.old slot }
    {
        self.words[(slot / WORD_BITS) as usize] &= !(1 << (slot % WORD_BITS));
    }

    /// Adds each slot of the other set.
    pub(crate) fn join(&mut self, other: &SlotSet)
        ensures { self.new ≡ set.union self.old other.now }
    {
        for (index, more) in other.words.iter().enumerate() {
            self.words[index] |= *more;
        }
    }

    /// The least slot of the set that is at least `from`, found a word at a time. None exactly where there is none.
    pub(crate) fn least_from(&self, from: u32) -> Option<u32>
        ensures some { IfSome result (IsLeastFrom self.now from) }
        ensures none { IfNone result (HasNoneFrom self.now from) }
    {
        let mut low = from % WORD_BITS;
        for index in from / WORD_BITS..4 {
            if let Some(bit) = lowest_bit(self.words[index as usize], low) {
                return Some(index * WORD_BITS + bit);
            }
            low = 0;
        }
        None
    }
}

/// Adds all of `more` to the set of each member.
pub(crate) fn join_each(sets: &mut [SlotSet], members: &SlotSet, more: &SlotSet)
    requires few { length sets.old ≤ 256 }
    requires inside { HasAllBelow members.now (length sets.old) }
    ensures { (y : ℕ) → y < length sets.old → slots_at sets.new y ≡ changed (λ s. set.union s more.now) sets.old members.now y }
{
    // Its own copy, which no write to a set can change: the compiler need not read it again for each member.
    let added = more.copied();
    for (index, word) in members.words.iter().enumerate() {
        let mut rest = *word;
        while rest != 0 {
            let bit = rest.trailing_zeros();
            sets[index * WORD_BITS as usize + bit as usize].join(&added);
            rest &= rest - 1;
        }
    }
}

/// Takes the slot out of the set of each member, in both lists of sets.
pub(crate) fn take_out(sets: &mut [SlotSet], others: &mut [SlotSet], members: &SlotSet, slot: u32)
    requires few { length sets.old ≤ 256 }
    requires as_many { length others.old ≡ length sets.old }
    requires inside { HasAllBelow members.now (length sets.old) }
    requires slot { slot < 256 }
    ensures sets { (y : ℕ) → y < length sets.old → slots_at sets.new y ≡ changed (λ s. set.remove s slot) sets.old members.now y }
    ensures others { (y : ℕ) → y < length others.old → slots_at others.new y ≡ changed (λ s. set.remove s slot) others.old members.now y }
{
    for (index, word) in members.words.iter().enumerate() {
        let mut rest = *word;
        while rest != 0 {
            let bit = rest.trailing_zeros();
            let member = index * WORD_BITS as usize + bit as usize;
            sets[member].remove(slot);
            others[member].remove(slot);
            rest &= rest - 1;
        }
    }
}

// The lowest bit that is 1 from bit `from` on.
fn lowest_bit(word: u64, from: u32) -> Option<u32>
    requires { from < 64 }
    ensures some { IfSome result (IsLowestBit word from) }
    ensures none { IfNone result (HasNoBit word from) }
{
    let rest = word & (u64::MAX << from);
    if rest == 0 {
        None
    } else {
        Some(rest.trailing_zeros())
    }
}
