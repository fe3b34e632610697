// What a caller takes along besides its note.

ghost use Rattle.std.specs.Prelude.{◌≡◌, ◌<◌, ◌≤◌, true, replicate, IfOk};
ghost use Rattle.script_tree.specs.declared.limits.TheConstants.{NODES};
ghost use Rattle.signal_graph.specs.Graph.{is_in};
ghost use Rattle.flow_model.specs.Machine.Sets.{put, take_out};
ghost use Rattle.node_set.specs.Members.{no_members, with_nodes};
ghost use Rattle.sweeper.specs.Tokens.{outs_of};

use node_set::NodeSet;
use script_tree::memory::OutOfMemory;
use script_tree::value::Value;
use std::alloc::Global;
use std::mem;

/// What a caller takes along from one call to the next besides its note. It lies behind a pointer and is made once for each caller, so
/// that a pass or a live call, which goes from function to function at every step, is a few words.
#[derive(Drop)]
pub(crate) struct Luggage {
    // The nodes of the jobs that are out, with room for all.
    pub(crate) out: NodeSet,
    // Within a call the room for the looks of the reply that the caller gets, and between calls memory for the next room.
    pub(crate) looks: Vec<Value>,
}

impl Luggage {
    /// That of a caller with no job out. Takes memory.
    pub(crate) fn new(alloc: Global, nodes: u32) -> Result<Box<Luggage>, OutOfMemory>
        requires { nodes ≤ NODES }
        ensures { IfOk result (λ luggage. luggage.value.out ≡ no_members nodes) }
    {
        let out = NodeSet::new(alloc, nodes)?;
        let looks = Vec::new(alloc);
        Ok(Box::new(alloc, Luggage { out, looks })?)
    }

    /// Whether a job is out at a node.
    pub(crate) fn is_out(&self, node: u32) -> bool
        requires { node < self.now.out.size }
        ensures { result ≡ is_in node self.now.out.nodes }
    {
        self.out.contains(node)
    }

    /// The job at a node goes out.
    pub(crate) fn hand_out(&mut self, node: u32)
        requires { node < self.old.out.size }
        ensures { self.new ≡ record self.old { out = with_nodes self.old.out (put node self.old.out.nodes) } }
    {
        self.out.insert(node);
    }

    /// The job at a node, which is out, comes back.
    pub(crate) fn take_back(&mut self, node: u32)
        requires { is_in node self.old.out.nodes ≡ true }
        ensures { self.new ≡ record self.old { out = with_nodes self.old.out (take_out node self.old.out.nodes) } }
    {
        self.out.is_kept();
        self.out.remove(node);
    }

    /// Brings the room for the looks of a call's reply.
    pub(crate) fn put_looks(&mut self, looks: Vec<Value>)
        ensures { self.new ≡ record self.old { looks = looks } }
    {
        self.looks = looks;
    }

    /// Takes that room out. Takes no memory.
    pub(crate) fn take_looks(&mut self) -> Vec<Value>
        ensures looks { result ≡ self.old.looks }
        ensures out { self.new.out ≡ self.old.out }
    {
        let none = Vec::new(*self.looks.allocator());
        mem::replace(&mut self.looks, none)
    }
}

/// That of so many callers, with no job out. Takes memory.
pub(crate) fn first_luggage(
    alloc: Global,
    nodes: u32,
    count: u32,
) -> Result<Vec<Box<Luggage>>, OutOfMemory>
    requires { nodes ≤ NODES }
    ensures { IfOk result (λ all. outs_of all.items ≡ replicate count (no_members nodes)) }
{
    let mut all = Vec::with_capacity(alloc, count as usize)?;
    for _ in 0..count {
        all.push_reserved(Luggage::new(alloc, nodes)?);
    }
    Ok(all)
}
