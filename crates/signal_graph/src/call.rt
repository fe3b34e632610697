// Calls and their replies.

ghost use Rattle.std.specs.Prelude.{◌≡◌, ◌+◌, ◌≤◌, if◌then◌else◌, [], length, map, Some, None, IfOk, IfErr, IfNone, OnOk, vec_capacity};
ghost use Rattle.signal_graph.specs.Graph.{number_of};
ghost use Rattle.signal_graph.specs.Machine.{sets_of, looks_of, names_node, names_source, first_wrong, misnamed};
ghost use Rattle.signal_graph.specs.Named.{numbers_in};

use crate::graph::Graph;
use crate::node::NodeKind;
use arrayvec::ArrayVec;
use script_tree::items::Items;
use script_tree::limits::{LOOKS, SETS};
use script_tree::memory::OutOfMemory;
use script_tree::name::{Name, NameList};
use script_tree::value::Value;
use std::alloc::Global;
use std::marker::Model;

/// The values of nodes.
pub type ValueList = Items<Value>;

/// What a fire sets: names of sources with their new values. Of a repeated name the last one counts.
pub type SetList = Items<(Name, Value)>;

/// What a thread asks of a graph.
#[derive(Debug, Drop)]
pub enum Call {
    /// Sets sources, then looks at nodes.
    Fire { sets: SetList, looks: NameList },
    /// Looks at nodes.
    Read { looks: NameList },
}

/// The calls of one thread, in its order.
pub type CallList = Items<Call>;

/// The calls of each thread, thread 1 first.
pub type Scripts = Items<CallList>;

/// The answer of a call that was made.
#[derive(Debug, Drop)]
pub enum Reply {
    /// How many nodes have another value than before, how many nodes that are no source have a dependency among these,
    /// and the values looked at afterwards.
    Fire {
        changed: u32,
        evaluated: u32,
        looks: ValueList,
    },
    /// The values looked at.
    Read {
        looks: ValueList,
    },
}

/// The numbers of the nodes that a call names, its sets and its looks, each in their order. Contracts see the two lists.
#[derive(Drop)]
pub struct Named {
    sets: ArrayVec<u32, SETS>,
    looks: ArrayVec<u32, LOOKS>,
}

impl Model for Named {
    ghost use Rattle.signal_graph.specs.Named.{Numbers};

    ghost Value = { Numbers };

    ghost view = { λ n. record { sets = n.sets.items; looks = n.looks.items } };
}

impl Named {
    /// The nodes that are set. Takes no memory.
    pub fn sets(&self) -> &[u32]
        ensures { result.now ≡ self.now.sets }
    {
        self.sets.as_slice()
    }

    /// The nodes that are looked at. Takes no memory.
    pub fn looks(&self) -> &[u32]
        ensures { result.now ≡ self.now.looks }
    {
        self.looks.as_slice()
    }
}

impl Call {
    /// What the call sets; a read sets nothing. Takes no memory.
    pub fn sets(&self) -> &[(Name, Value)]
        ensures { result.now ≡ sets_of self.now }
    {
        match self {
            Call::Fire { sets, .. } => sets.as_slice(),
            Call::Read { .. } => &[],
        }
    }

    /// What the call looks at. Takes no memory.
    pub fn looks(&self) -> &[Name]
        ensures { result.now ≡ looks_of self.now }
    {
        match self {
            Call::Fire { looks, .. } => looks.as_slice(),
            Call::Read { looks } => looks.as_slice(),
        }
    }

    /// The place of the first name, sets first and then looks, that is none of a source (in a set) or of a node (in a
    /// look), counted from 1, or none where there is no such name. Takes no memory.
    pub fn misnamed(&self, graph: &Graph) -> Option<u32>
        requires sets { length (sets_of self.now) ≤ SETS }
        requires looks { length (looks_of self.now) ≤ LOOKS }
        ensures { result ≡ misnamed graph.now self.now }
    {
        match self.named_in(graph) {
            Ok(_) => None,
            Err(place) => Some(place),
        }
    }

    /// The nodes that the call names, where each set names a source and each look a node, and else the place that
    /// `misnamed` answers. Each name is looked up once. Takes no memory.
    #[tactic(auto, using(crate::proofs::GraphCalls::misnamed_set, crate::proofs::GraphCalls::misnamed_look))]
    pub fn named_in(&self, graph: &Graph) -> Result<Named, u32>
        requires sets { length (sets_of self.now) ≤ SETS }
        requires looks { length (looks_of self.now) ≤ LOOKS }
        ensures ok { IfOk result (λ named. named ≡ numbers_in graph.now self.now) }
        ensures right { OnOk result (misnamed graph.now self.now ≡ None) }
        ensures wrong { IfErr result (λ place. misnamed graph.now self.now ≡ Some place) }
    {
        let sets = match sources_named(graph, self.sets()) {
            Ok(sets) => sets,
            Err(place) => return Err(place),
        };
        match nodes_named(graph, self.looks(), 1 + self.sets().len() as u32) {
            Ok(looks) => Ok(Named { sets, looks }),
            Err(place) => Err(place),
        }
    }

    /// The same as `named_in`, where what is found goes into two lists that have room for it: each set's node with its value, and the
    /// nodes that are looked at. Answers the place that `misnamed` answers; unless there is none, the lists may be of any items. Each
    /// name is looked up once. Takes no memory.
    #[tactic(auto, using(crate::proofs::GraphCalls::misnamed_set, crate::proofs::GraphCalls::misnamed_look))]
    pub fn named_into(
        &self,
        graph: &Graph,
        sets: &mut Vec<(u32, Value)>,
        looks: &mut Vec<u32>,
    ) -> Option<u32>
        requires few_sets { length (sets_of self.now) ≤ SETS }
        requires few_looks { length (looks_of self.now) ≤ LOOKS }
        requires room_for_sets { (sets.old.items ≡ []) × (length (sets_of self.now) ≤ vec_capacity sets.old) }
        requires room_for_looks { (looks.old.items ≡ []) × (length (looks_of self.now) ≤ vec_capacity looks.old) }
        ensures place { result ≡ misnamed graph.now self.now }
        ensures sets { IfNone result (sets.new.items ≡ map (λ s. (number_of graph.now s.0, s.1)) (sets_of self.now)) }
        ensures looks { IfNone result (looks.new.items ≡ map (number_of graph.now) (looks_of self.now)) }
    {
        if let Some(place) = put_sources(graph, self.sets(), sets) {
            return Some(place);
        }
        put_nodes(graph, self.looks(), 1 + self.sets().len() as u32, looks)
    }

    /// An equal call, in exactly the memory that it needs. Takes memory.
    pub fn copy(&self, alloc: Global) -> Result<Call, OutOfMemory>
        ensures { IfOk result (λ call. call ≡ self.now) }
    {
        match self {
            Call::Fire { sets, looks } => {
                let sets = copied_sets(alloc, sets)?;
                let looks = copied_names(alloc, looks)?;
                Ok(Call::Fire { sets, looks })
            }
            Call::Read { looks } => {
                let looks = copied_names(alloc, looks)?;
                Ok(Call::Read { looks })
            }
        }
    }
}

fn source_named(graph: &Graph, name: &Name) -> Option<u32>
    ensures { result ≡ (if names_source graph.now name.now then Some (number_of graph.now name.now) else None) }
{
    match graph.find(name) {
        Some(node) => {
            if graph.kind(node) == NodeKind::Source {
                Some(node)
            } else {
                None
            }
        }
        None => None,
    }
}

// The sources that the sets name, or the place of the first set whose name is none of a source.
fn sources_named(graph: &Graph, sets: &[(Name, Value)]) -> Result<ArrayVec<u32, SETS>, u32>
    requires { length sets.now ≤ SETS }
    ensures ok { IfOk result (λ found. found.items ≡ map (λ s. number_of graph.now s.0) sets.now) }
    ensures right { OnOk result (first_wrong 1 (map (λ s. names_source graph.now s.0) sets.now) ≡ None) }
    ensures wrong { IfErr result (λ place. first_wrong 1 (map (λ s. names_source graph.now s.0) sets.now) ≡ Some place) }
{
    let mut found = ArrayVec::new();
    for (index, set) in sets.iter().enumerate() {
        match source_named(graph, &set.0) {
            Some(node) => found.push(node),
            None => return Err(1 + index as u32),
        }
    }
    Ok(found)
}

// The nodes that the looks name, or the place of the first look whose name is none of a node, where the first look has
// the place `from`.
fn nodes_named(graph: &Graph, looks: &[Name], from: u32) -> Result<ArrayVec<u32, LOOKS>, u32>
    requires few { length looks.now ≤ LOOKS }
    requires from { from ≤ SETS + 1 }
    ensures ok { IfOk result (λ found. found.items ≡ map (number_of graph.now) looks.now) }
    ensures right { OnOk result (first_wrong from (map (names_node graph.now) looks.now) ≡ None) }
    ensures wrong { IfErr result (λ place. first_wrong from (map (names_node graph.now) looks.now) ≡ Some place) }
{
    let mut found = ArrayVec::new();
    for (index, name) in looks.iter().enumerate() {
        match graph.find(name) {
            Some(node) => found.push(node),
            None => return Err(from + index as u32),
        }
    }
    Ok(found)
}

// Puts each set's node with its value into a list that has the room. Answers the place of the first set whose name is none of a
// source.
fn put_sources(graph: &Graph, sets: &[(Name, Value)], found: &mut Vec<(u32, Value)>) -> Option<u32>
    requires few { length sets.now ≤ SETS }
    requires room { (found.old.items ≡ []) × (length sets.now ≤ vec_capacity found.old) }
    ensures place { result ≡ first_wrong 1 (map (λ s. names_source graph.now s.0) sets.now) }
    ensures found { IfNone result (found.new.items ≡ map (λ s. (number_of graph.now s.0, s.1)) sets.now) }
{
    for (index, set) in sets.iter().enumerate() {
        match source_named(graph, &set.0) {
            Some(node) => found.push_reserved((node, set.1)),
            None => return Some(1 + index as u32),
        }
    }
    None
}

// Puts the nodes that are looked at into a list that has the room. Answers the place of the first look whose name is none of a node,
// where the first look has the place `from`.
fn put_nodes(graph: &Graph, looks: &[Name], from: u32, found: &mut Vec<u32>) -> Option<u32>
    requires few { length looks.now ≤ LOOKS }
    requires from { from ≤ SETS + 1 }
    requires room { (found.old.items ≡ []) × (length looks.now ≤ vec_capacity found.old) }
    ensures place { result ≡ first_wrong from (map (names_node graph.now) looks.now) }
    ensures found { IfNone result (found.new.items ≡ map (number_of graph.now) looks.now) }
{
    for (index, name) in looks.iter().enumerate() {
        match graph.find(name) {
            Some(node) => found.push_reserved(node),
            None => return Some(from + index as u32),
        }
    }
    None
}

fn copied_names(alloc: Global, names: &NameList) -> Result<NameList, OutOfMemory>
    ensures { IfOk result (λ copied. copied ≡ names.now) }
{
    let mut copied = Vec::with_capacity(alloc, names.len())?;
    for name in names.as_slice() {
        copied.push_reserved(name.copy());
    }
    Ok(Items::from_vec(copied))
}

fn copied_sets(alloc: Global, sets: &SetList) -> Result<SetList, OutOfMemory>
    ensures { IfOk result (λ copied. copied ≡ sets.now) }
{
    let mut copied = Vec::with_capacity(alloc, sets.len())?;
    for set in sets.as_slice() {
        copied.push_reserved((set.0.copy(), set.1));
    }
    Ok(Items::from_vec(copied))
}
