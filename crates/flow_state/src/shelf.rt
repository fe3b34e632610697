// What is being worked out at the nodes.

ghost use Rattle.std.specs.Prelude.{◌≡◌, ◌<◌, ◌≤◌, ◌^◌, length, take, slice_index, IfOk, None};
ghost use Rattle.std.specs.Option.{option_copied};
ghost use Rattle.flow_model.specs.Machine.Words.{gathered_of};
ghost use Rattle.std.specs.List.{sum};
ghost use Rattle.flow_state.specs.Booked.{AreApart, rooms_for};
ghost use Rattle.flow_model.specs.Parts.Books.{with_gathered, with_found, with_body, forgotten};
ghost use Rattle.flow_state.specs.Found.{found_of, found_option};
ghost use Rattle.flow_state.specs.Shelves.{work_on, on_shelf, empty_shelves, laid_out};
ghost use Rattle.signal_graph.specs.Graph.{body_of};
ghost use Rattle.signal_graph.specs.Evaluation.{CanEvaluate};
ghost use Rattle.flow_state.specs.Jobs.{found_items, items_of, outcome_of, value_in, HasFew, FitsBody};

use crate::found::{Finding, FoundList};
use crate::job::{outcome, script_value};
use crate::job_room::JobRoom;
use crate::outcome::Outcome;
use script_tree::limits::SELECTORS;
use script_tree::memory::OutOfMemory;
use script_tree::value::{Fault, Value};
use signal_graph::graph::Graph;
use signal_graph::laws::inputs_are_few;
use signal_graph::node::Node;
use std::alloc::Global;
use std::marker::Model;

/// What the first open call of a node has found and evaluated as a body, and where the values lie that it has gathered: in
/// the block of all shelves, so many from a start on, with room for so many.
#[derive(Drop)]
pub(crate) struct Shelf {
    start: u32,
    count: u32,
    room: u32,
    found: Option<Finding>,
    body: Option<Value>,
}

/// A shelf for each node of a graph. What is gathered lies in one block, with a place for each input of each node and for
/// the candidates that are found for it. Only `new` takes memory.
#[derive(Drop)]
pub(crate) struct Shelves {
    block: Vec<(u32, Value)>,
    shelves: Vec<Shelf>,
}

impl Model for Shelves {
    ghost use Rattle.flow_state.specs.Shelves.{Shelved, shelved, AreShelves};

    ghost Value = { Shelved };

    ghost view = { λ s. shelved s.block.items s.shelves.items };

    ghost invariant = { λ s. AreShelves s.block.items s.shelves.items };
}

impl Shelves {
    /// Empty shelves for the nodes of a graph. Takes all memory that they will need.
    pub(crate) fn new(alloc: Global, graph: &Graph) -> Result<Shelves, OutOfMemory>
        ensures { IfOk result (λ shelves. shelves ≡ empty_shelves graph.now) }
    {
        let (shelves, places) = laid_out(alloc, graph)?;
        let block = vec![in alloc; (0, Value::Fault(Fault::NoChoice)); places as usize]?;
        Ok(Shelves { block, shelves })
    }

    // All values that are gathered for a node, no two of one node.
    fn part(&self, node: u32) -> &[(u32, Value)]
        requires { node < length self.now.works }
        ensures values { result.now ≡ (work_on self.now node).gathered }
        ensures apart { AreApart result.now }
    {
        let shelf = &self.shelves[node as usize];
        let start = shelf.start as usize;
        &self.block[start..start + shelf.count as usize]
    }

    /// The value that is gathered of an input for a node.
    pub(crate) fn gathered(&self, node: u32, input: u32) -> Option<Value>
        requires { node < length self.now.works }
        ensures { result ≡ gathered_of input (work_on self.now node).gathered }
    {
        gathered_in(self.part(node), input)
    }

    /// The same, at once where the value stands at this place among those that are gathered for the node.
    pub(crate) fn gathered_near(&self, node: u32, place: u32, input: u32) -> Option<Value>
        requires { node < length self.now.works }
        ensures { result ≡ gathered_of input (work_on self.now node).gathered }
    {
        gathered_near(self.part(node), place as usize, input)
    }

    /// What a node's scripts find over what is gathered, or where something is found already the value of its body. Takes
    /// no memory.
    pub(crate) fn outcome(&self, number: u32, node: &Node, acc: Value) -> Outcome
        requires inside { number < length self.now.works }
        requires can { CanEvaluate node.now }
        requires few { HasFew node.now }
        requires body { FitsBody (body_of node.now) (found_items (work_on self.now number).found) }
        ensures { result ≡ outcome_of node.now (work_on self.now number).gathered acc (found_items (work_on self.now number).found) }
    {
        let found = self.found_items(number);
        outcome(node, self.part(number), acc, &found)
    }

    /// The value that a node's script gives over what is gathered, where the node is no choose. Takes no memory.
    pub(crate) fn script_value(&self, number: u32, node: &Node, acc: Value) -> Option<Value>
        requires inside { number < length self.now.works }
        requires can { CanEvaluate node.now }
        requires few { HasFew node.now }
        ensures { result ≡ value_in (outcome_of node.now (work_on self.now number).gathered acc None) }
    {
        script_value(node, self.part(number), acc)
    }

    /// All that is gathered for a node, no two values of one node, and what its selectors have selected, in the room.
    pub(crate) fn hold(&self, node: u32, room: &mut JobRoom)
        requires inside { node < length self.now.works }
        requires few { length (work_on self.now node).gathered ≤ 68 }
        ensures gathered { take room.new.count room.new.pairs ≡ (work_on self.now node).gathered }
        ensures apart { AreApart (work_on self.now node).gathered }
        ensures count { room.new.count ≤ 68 }
        ensures found { room.new.found ≡ found_items (work_on self.now node).found }
    {
        room.fill(self.part(node));
        match self.found(node) {
            None => room.found = None,
            Some(found) => room.found = Some(items_of(found)),
        }
    }

    /// What a node's selectors have selected, where something is found.
    pub(crate) fn found_items(&self, node: u32) -> Option<FoundList>
        requires { node < length self.now.works }
        ensures { result ≡ found_items (work_on self.now node).found }
    {
        match self.found(node) {
            None => None,
            Some(found) => Some(items_of(found)),
        }
    }

    /// What is found for a node.
    pub(crate) fn found(&self, node: u32) -> Option<&Finding>
        requires { node < length self.now.works }
        ensures { found_option (option_copied result) ≡ (work_on self.now node).found }
    {
        self.shelves[node as usize].found.as_ref()
    }

    /// The body's value for a node.
    pub(crate) fn body(&self, node: u32) -> Option<Value>
        requires { node < length self.now.works }
        ensures { result ≡ (work_on self.now node).body }
    {
        self.shelves[node as usize].body
    }

    /// Keeps the value of an input of which none is gathered for the node.
    pub(crate) fn gather(&mut self, node: u32, input: u32, value: Value)
        requires inside { node < length self.old.works }
        requires new { gathered_of input (work_on self.old node).gathered ≡ None }
        requires room { AreApart (work_on self.old node).gathered
            → length (work_on self.old node).gathered < slice_index self.old.room_for node }
        ensures { self.new ≡ on_shelf self.old node (with_gathered input value) }
    {
        let shelf = &mut self.shelves[node as usize];
        let place = shelf.start as usize + shelf.count as usize;
        shelf.count += 1;
        self.block[place] = (input, value);
    }

    /// Keeps what is found for a node.
    pub(crate) fn keep_found(&mut self, node: u32, found: Finding)
        requires { node < length self.old.works }
        ensures { self.new ≡ on_shelf self.old node (with_found (found_of found)) }
    {
        self.shelves[node as usize].found = Some(found);
    }

    /// Keeps the body's value for a node.
    pub(crate) fn keep_body(&mut self, node: u32, value: Value)
        requires { node < length self.old.works }
        ensures { self.new ≡ on_shelf self.old node (with_body value) }
    {
        self.shelves[node as usize].body = Some(value);
    }

    /// Forgets all of a node.
    pub(crate) fn clear(&mut self, node: u32)
        requires { node < length self.old.works }
        ensures { self.new ≡ on_shelf self.old node forgotten }
    {
        let shelf = &mut self.shelves[node as usize];
        shelf.count = 0;
        shelf.found = None;
        shelf.body = None;
    }
}

// An empty shelf for each node of a graph, one behind the other, and how many places they have.
fn laid_out(alloc: Global, graph: &Graph) -> Result<(Vec<Shelf>, u32), OutOfMemory>
    ensures shelves { IfOk result (λ r. r.0.items ≡ laid_out 0 (rooms_for graph.now)) }
    ensures places { IfOk result (λ r. r.1 ≡ sum (rooms_for graph.now)) }
    ensures few { IfOk result (λ r. r.1 < 2 ^ 32) }
{
    inputs_are_few();
    let mut shelves = Vec::with_capacity(alloc, graph.len() as usize)?;
    let mut places = 0;
    for node in 0..graph.len() {
        let room = (graph.inputs(node).len() + SELECTORS) as u32;
        shelves.push(Shelf {
            start: places,
            count: 0,
            room,
            found: None,
            body: None,
        })?;
        places += room;
    }
    Ok((shelves, places))
}

#[tactic(auto, using(crate::proofs::JobLemmas::found_back))]
fn items_of(found: &Finding) -> FoundList
    ensures { result ≡ items_of (found_of found.now) }
{
    match found {
        Finding::Gives(_) => FoundList::new(),
        Finding::Selects(list) => list.copy(),
    }
}

/// The value that is gathered of a node, at once where it stands at this place. No two values are gathered of one node.
pub(crate) fn gathered_near(gathered: &[(u32, Value)], place: usize, input: u32) -> Option<Value>
    requires { AreApart gathered.now }
    ensures { result ≡ gathered_of input gathered.now }
{
    if place < gathered.len() {
        let pair = gathered[place];
        if pair.0 == input {
            return Some(pair.1);
        }
    }
    gathered_in(gathered, input)
}

fn gathered_in(gathered: &[(u32, Value)], input: u32) -> Option<Value>
    ensures { result ≡ gathered_of input gathered.now }
{
    for (node, value) in gathered {
        if *node == input {
            return Some(*value);
        }
    }
    None
}
