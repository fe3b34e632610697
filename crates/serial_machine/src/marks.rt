// Marks of nodes.

ghost use Rattle.std.specs.Prelude.{◌≡◌, ℕ, ◌+◌, ◌*◌, ◌<◌, ◌≤◌, true, false, length, slice_set, IfOk, IfSome, IfNone};
ghost use Rattle.script_tree.specs.declared.limits.TheConstants.{NODES};
ghost use Rattle.signal_graph.specs.Values.{at};
ghost use Rattle.serial_machine.specs.Marking.{is_marked, AreUnmarked, AreMore, IsNextMarked, AreFlags};

use script_tree::limits::NODES;
use script_tree::memory::OutOfMemory;
use script_tree::value::Value;
use std::alloc::Global;
use std::marker::Model;

// How many nodes share a flag.
const BLOCK: usize = 64;

/// Marks of nodes, of which the next one from a node on is found soon also where few of many are marked: a flag for each
/// block of nodes says whether one of them may be marked. Contracts see for each node whether it is marked.
#[derive(Drop)]
pub struct Marks {
    nodes: Vec<bool>,
    blocks: Vec<bool>,
}

impl Model for Marks {
    ghost use Rattle.std.specs.Prelude.{List, Bool};
    ghost use Rattle.serial_machine.specs.Marking.{AreFlags};

    ghost Value = { List Bool };

    ghost view = { λ m. m.nodes.items };

    ghost invariant = { λ m. AreFlags m.nodes.items m.blocks.items };
}

// The first marked node from one on and before another.
fn first_in(nodes: &[bool], from: usize, end: usize) -> Option<u32>
    requires { length nodes.now ≤ 16384 }
    ensures some { IfSome result (IsNextMarked nodes.now from) }
    ensures none { IfNone result (AreUnmarked nodes.now from end) }
{
    let end = end.min(nodes.len());
    for node in from..end {
        if nodes[node] {
            return Some(node as u32);
        }
    }
    None
}

// The same in a block that may have a flag.
fn first_in_block(nodes: &[bool], is_flagged: bool, block: usize) -> Option<u32>
    requires few { length nodes.now ≤ 16384 }
    requires few_blocks { block ≤ 16384 }
    requires flagged { (n : ℕ) → 64 * block ≤ n → n < 64 * block + 64 → is_marked nodes.now n ≡ true → is_flagged ≡ true }
    ensures some { IfSome result (IsNextMarked nodes.now (64 * block)) }
    ensures none { IfNone result (AreUnmarked nodes.now (64 * block) (64 * block + 64)) }
{
    if !is_flagged {
        return None;
    }
    first_in(nodes, BLOCK * block, BLOCK * block + BLOCK)
}

// Takes the marks of a block off, and brings the values of its nodes over.
fn settle_block(
    nodes: &mut [bool],
    before: &mut Vec<Value>,
    now: &[Value],
    is_flagged: bool,
    block: usize,
)
    requires few { length nodes.old ≤ 16384 }
    requires few_blocks { block ≤ 16384 }
    requires has_before { length before.old.items ≡ length nodes.old }
    requires has_now { length now.now ≡ length nodes.old }
    requires flagged { (n : ℕ) → 64 * block ≤ n → n < 64 * block + 64 → is_marked nodes.old n ≡ true → is_flagged ≡ true }
    requires agree { (n : ℕ) → is_marked nodes.old n ≡ false → at before.old.items n ≡ at now.now n }
    ensures size { length nodes.new ≡ length nodes.old }
    ensures before_size { length before.new.items ≡ length before.old.items }
    ensures none { AreUnmarked nodes.new (64 * block) (64 * block + 64) }
    ensures fewer { AreMore nodes.new nodes.old }
    ensures agree { (n : ℕ) → is_marked nodes.new n ≡ false → at before.new.items n ≡ at now.now n }
{
    if !is_flagged {
        return;
    }
    let end = (BLOCK * block + BLOCK).min(nodes.len());
    for node in BLOCK * block..end {
        before[node] = now[node];
        nodes[node] = false;
    }
}

// The same for all blocks, of which each one with a mark has its flag.
#[tactic(auto, using(crate::proofs::MarkLaws::flag_there, crate::proofs::MarkLaws::settle_next, crate::proofs::MarkLaws::settled))]
fn settle_all(nodes: &mut [bool], blocks: &[bool], before: &mut Vec<Value>, now: &[Value])
    requires flags { AreFlags nodes.old blocks.now }
    requires has_before { length before.old.items ≡ length nodes.old }
    requires has_now { length now.now ≡ length nodes.old }
    requires agree { (n : ℕ) → is_marked nodes.old n ≡ false → at before.old.items n ≡ at now.now n }
    ensures size { length nodes.new ≡ length nodes.old }
    ensures none { AreUnmarked nodes.new 0 (length nodes.new) }
    ensures values { before.new.items ≡ now.now }
{
    for block in 0..blocks.len() {
        settle_block(nodes, before, now, blocks[block], block);
    }
}

impl Marks {
    /// No marks, of so many nodes. Takes all memory that they will need.
    pub fn new(alloc: Global, size: u32) -> Result<Marks, OutOfMemory>
        requires { size ≤ NODES }
        ensures size { IfOk result (λ marks. length marks ≡ size) }
        ensures none { IfOk result (λ marks. AreUnmarked marks 0 size) }
    {
        let nodes = Vec::from_elem(alloc, false, size as usize)?;
        let blocks = Vec::from_elem(alloc, false, size as usize / BLOCK + 1)?;
        Ok(Marks { nodes, blocks })
    }

    /// Marks a node. A number beyond all nodes changes nothing.
    pub fn add(&mut self, node: u32)
        ensures { self.new ≡ slice_set self.old node true }
    {
        let place = node as usize;
        if place < self.nodes.len() {
            self.nodes[place] = true;
            self.blocks[place / BLOCK] = true;
        }
    }

    /// The first marked node from a number on, or none.
    pub fn next_from(&self, from: u32) -> Option<u32>
        ensures some { IfSome result (IsNextMarked self.now from) }
        ensures none { IfNone result (AreUnmarked self.now from (length self.now)) }
    {
        let nodes = self.nodes.as_slice();
        let first = from as usize / BLOCK;
        let found = first_in(nodes, from as usize, BLOCK * first + BLOCK);
        if found.is_some() {
            return found;
        }
        for block in first + 1..self.blocks.len() {
            let found = first_in_block(nodes, self.blocks[block], block);
            if found.is_some() {
                return found;
            }
        }
        None
    }

    /// Takes all marks off, and brings the values of the nodes that had one from `now` to `before`, which holds the same
    /// for all others.
    #[tactic(auto, using(crate::proofs::MarkLaws::flags_down))]
    pub fn settle(&mut self, before: &mut Vec<Value>, now: &[Value])
        requires has_before { length before.old.items ≡ length self.old }
        requires has_now { length now.now ≡ length self.old }
        requires agree { (n : ℕ) → is_marked self.old n ≡ false → at before.old.items n ≡ at now.now n }
        ensures size { length self.new ≡ length self.old }
        ensures none { AreUnmarked self.new 0 (length self.new) }
        ensures values { before.new.items ≡ now.now }
    {
        let nodes = self.nodes.as_mut_slice();
        settle_all(nodes, self.blocks.as_slice(), before, now);
        self.blocks.fill(false);
    }
}
