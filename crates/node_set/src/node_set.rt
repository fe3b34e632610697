// A set of nodes.

ghost use Rattle.std.specs.Prelude.{◌≡◌, ℕ, ◌<◌, ◌≤◌, length, not, true, IfOk};
ghost use Rattle.script_tree.specs.declared.limits.TheConstants.{NODES};
ghost use Rattle.signal_graph.specs.Graph.{is_in};
ghost use Rattle.flow_model.specs.Machine.Sets.{put, take_out, least, IsSet};
ghost use Rattle.flow_model.specs.Machine.Lists.{is_empty};
ghost use Rattle.node_set.specs.Members.{no_members, with_nodes, first_from};

use crate::bits::{self, WORD_BITS, is_set, next_set, put_in};
use script_tree::limits::NODES;
use script_tree::memory::OutOfMemory;
use std::alloc::Global;
use std::marker::Model;

/// A set of nodes below a size. Contracts see the size and the nodes in ascending order.
///
/// Node q is the bit q modulo 64 of the word q / 64, and a summary has one bit per word, which is set where the word
/// isn't 0: so the next node is found in a few reads. The number of nodes is kept. Only `new` takes memory.
#[derive(Drop)]
pub struct NodeSet {
    words: Vec<u64>,
    summary: [u64; 4],
    size: u32,
    count: u32,
}

impl Model for NodeSet {
    ghost use Rattle.node_set.specs.Members.{Members, nodes_of, IsKept};

    ghost Value = { Members };

    ghost view = { λ s. record { size = s.size; nodes = nodes_of s.words.items s.size } };

    ghost invariant = { λ s. IsKept s.words.items s.summary s.size s.count };
}

impl NodeSet {
    /// The empty set of nodes below a size. Takes all memory that the set will need.
    pub fn new(alloc: Global, size: u32) -> Result<NodeSet, OutOfMemory>
        requires { size ≤ NODES }
        ensures { IfOk result (λ set. set ≡ no_members size) }
    {
        let words = vec![in alloc; 0; size.div_ceil(WORD_BITS) as usize]?;
        Ok(NodeSet {
            words,
            summary: [0; 4],
            size,
            count: 0,
        })
    }

    /// The number below which its nodes are.
    pub fn size(&self) -> u32
        ensures { result ≡ self.now.size }
    {
        self.size
    }

    /// Whether the node is in the set: reads one bit.
    pub fn contains(&self, node: u32) -> bool
        requires { node < self.now.size }
        ensures { result ≡ is_in node self.now.nodes }
    {
        is_set(self.words.as_slice(), node)
    }

    /// Puts the node in. Answers whether it was not in the set.
    pub fn insert(&mut self, node: u32) -> bool
        requires { node < self.old.size }
        ensures nodes { self.new ≡ with_nodes self.old (put node self.old.nodes) }
        ensures was_new { result ≡ not (is_in node self.old.nodes) }
    {
        if is_set(self.words.as_slice(), node) {
            return false;
        }
        let count = self.count + 1;
        put_in(self.words.as_mut_slice(), &mut self.summary, node);
        self.count = count;
        true
    }

    /// Takes the node out. Answers whether it was in the set.
    pub fn remove(&mut self, node: u32) -> bool
        requires { node < self.old.size }
        ensures nodes { self.new ≡ with_nodes self.old (take_out node self.old.nodes) }
        ensures was_in { result ≡ is_in node self.old.nodes }
    {
        if !is_set(self.words.as_slice(), node) {
            return false;
        }
        let count = self.count - 1;
        bits::take_out(self.words.as_mut_slice(), &mut self.summary, node);
        self.count = count;
        true
    }

    /// Whether no node is in the set.
    pub fn is_empty(&self) -> bool
        ensures { result ≡ is_empty self.now.nodes }
    {
        self.count == 0
    }

    /// How many nodes are in the set.
    pub fn len(&self) -> u32
        ensures { result ≡ length self.now.nodes }
    {
        self.count
    }

    /// The least node of the set.
    #[inline(always)]
    pub fn first(&self) -> Option<u32>
        ensures { result ≡ least self.now.nodes }
    {
        if self.count == 0 {
            None
        } else {
            self.next_from(0)
        }
    }

    /// The least node of the set that is at or above this one.
    #[inline(always)]
    pub fn next_from(&self, node: u32) -> Option<u32>
        ensures { result ≡ first_from node self.now.nodes }
    {
        if node >= self.size {
            return None;
        }
        next_set(self.words.as_slice(), &self.summary, node)
    }

    /// Takes all nodes out. It goes over the words.
    pub fn clear(&mut self)
        ensures { self.new ≡ no_members self.old.size }
    {
        if self.count == 0 {
            return;
        }
        self.words.fill(0);
        self.summary = [0; 4];
        self.count = 0;
    }

    /// What holds of every set: its nodes ascend, and each is below the size. Does nothing when it runs.
    pub fn is_kept(&self)
        ensures few { self.now.size ≤ NODES }
        ensures ascending { IsSet self.now.nodes }
        ensures inside { (q : ℕ) → is_in q self.now.nodes ≡ true → q < self.now.size }
    {
        let _ = &self.words;
    }
}
