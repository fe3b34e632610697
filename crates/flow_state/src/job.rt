// Jobs: evaluations that need no book.

ghost use Rattle.std.specs.Prelude.{◌≡◌, ◌≤◌, length, map, take, Some, None};
ghost use Rattle.std.specs.Option.{option_copied};
ghost use Rattle.std.specs.List.{AllByRecursion};
ghost use Rattle.script_tree.specs.declared.limits.TheConstants.{INPUTS, SELECTORS};
ghost use Rattle.script_tree.specs.declared.value.Value.TheVariants as values;
ghost use Rattle.script_tree.specs.declared.value.Fault.TheVariants.{Kind};
ghost use Rattle.script_tree.specs.Scripts.{IsBody};
ghost use Rattle.signal_graph.specs.Values.{select};
ghost use Rattle.signal_graph.specs.Evaluation.{CanRun, CanSelect, CanEvaluate};
ghost use Rattle.flow_model.specs.Machine.Words.{gathered_of, run_over, pick_over, first_pick_over, body_over, finds};
ghost use Rattle.flow_state.specs.Found.{selection_of};
ghost use Rattle.signal_graph.specs.Graph.{body_of};
ghost use Rattle.flow_state.specs.Booked.{AreApart};
ghost use Rattle.flow_state.specs.Jobs.{read_from, found_as, outcome_in, outcome_of, value_in, HasFew, FitsBody};

use crate::found::{Found, FoundList};
use crate::job_room::JobRoom;
use crate::outcome::{Answer, Outcome};
use crate::row::Row;
use crate::shelf::gathered_near;
use script_tree::limits::INPUTS;
use script_tree::script::Script;
use script_tree::value::{Fault, Value};
use signal_graph::graph::Graph;
use signal_graph::node::{Node, Selector};
use std::marker::Model;

/// The evaluation of a node's scripts or of its body for a call, over what was gathered when the job was made. Contracts
/// see its answer. It borrows the graph, and the room in which all lies that it is over, and may be dropped.
#[derive(Drop)]
pub struct Job<'g, 'r> {
    pub(crate) graph: &'g Graph,
    pub(crate) room: &'r JobRoom,
}

impl<'g, 'r> Model for Job<'g, 'r> {
    ghost use Rattle.std.specs.Prelude.{◌≤◌, take};
    ghost use Rattle.flow_state.specs.declared.outcome.Answer.{Answer};
    ghost use Rattle.flow_state.specs.Jobs.{answer_of, IsJob};
    ghost use Rattle.flow_state.specs.Booked.{AreApart};

    ghost Value = { Answer };

    ghost view = { λ j. answer_of j.graph.now j.room.now.version j.room.now.node (take j.room.now.count j.room.now.pairs)
        j.room.now.acc j.room.now.found };

    ghost invariant = { λ j. IsJob j.graph.now j.room.now.node j.room.now.found × AreApart (take j.room.now.count j.room.now.pairs)
        × (j.room.now.count ≤ 68) };
}

impl Job<'_, '_> {
    /// The node whose job it is.
    #[inline]
    pub fn node(&self) -> u32
        ensures { result ≡ self.now.node }
    {
        self.room.node
    }

    /// Evaluates. Takes no memory.
    pub fn evaluate(&self) -> Answer
        ensures { result ≡ self.now }
    {
        let room = self.room;
        let node = self.graph.node(room.node);
        let outcome = outcome(node, room.gathered(), room.acc, &room.found);
        Answer {
            version: room.version,
            node: room.node,
            outcome,
        }
    }
}

/// What a node's scripts find over what is gathered, or where something is found already the value of its body. No two
/// values are gathered of one node. Takes no memory.
#[inline(always)]
pub(crate) fn outcome(
    node: &Node,
    gathered: &[(u32, Value)],
    acc: Value,
    found: &Option<FoundList>,
) -> Outcome
    requires apart { AreApart gathered.now }
    requires can { CanEvaluate node.now }
    requires few { HasFew node.now }
    requires body { FitsBody (body_of node.now) found.now }
    ensures { result ≡ outcome_of node.now gathered.now acc found.now }
{
    match found {
        None => evaluated(node, gathered, acc),
        Some(found) => Outcome::Body(body_value(node.body(), found, gathered)),
    }
}

// The value that is gathered of a node.
fn read_from(gathered: &[(u32, Value)], input: u32) -> Value
    ensures { result ≡ read_from gathered.now input }
{
    for (node, value) in gathered {
        if *node == input {
            return *value;
        }
    }
    Value::Fault(Fault::NoChoice)
}

// The same, at once where the value stands at this place.
fn read_near(gathered: &[(u32, Value)], place: usize, input: u32) -> Value
    requires { AreApart gathered.now }
    ensures { result ≡ read_from gathered.now input }
{
    match gathered_near(gathered, place, input) {
        Some(value) => value,
        None => Value::Fault(Fault::NoChoice),
    }
}

// The gathered values of inputs in their order, in the front of an array. They are mostly gathered in that order.
fn gather<const N: usize>(inputs: &[u32], gathered: &[(u32, Value)]) -> [Value; N]
    requires apart { AreApart gathered.now }
    requires fits { length inputs.now ≤ N }
    ensures { take (length inputs.now) result ≡ map (read_from gathered.now) inputs.now }
{
    let mut values = [Value::Fault(Fault::NoChoice); N];
    for (place, input) in inputs.iter().enumerate() {
        values[place] = read_near(gathered, place, *input);
    }
    values
}

// Most scripts have no more inputs. An array of few values is made faster than one for as many as there may be.
const FEW: usize = 4;

// The value of a script over what is gathered.
#[inline(never)]
fn run(script: &Script, inputs: &[u32], gathered: &[(u32, Value)], acc: Value) -> Value
    requires apart { AreApart gathered.now }
    requires fits { CanRun script.now inputs.now }
    requires few { length inputs.now ≤ INPUTS }
    ensures { result ≡ run_over script.now inputs.now (read_from gathered.now) acc }
{
    let count = inputs.len();
    if count == 1 {
        return run_one(script, inputs, gathered, acc);
    }
    if count <= FEW {
        return run_in::<FEW>(script, inputs, gathered, acc);
    }
    run_in::<INPUTS>(script, inputs, gathered, acc)
}

// The same for a script with one input.
fn run_one(script: &Script, inputs: &[u32], gathered: &[(u32, Value)], acc: Value) -> Value
    requires apart { AreApart gathered.now }
    requires fits { CanRun script.now inputs.now }
    requires one { length inputs.now ≡ 1 }
    ensures { result ≡ run_over script.now inputs.now (read_from gathered.now) acc }
{
    let values = [read_near(gathered, 0, inputs[0])];
    script.eval(&values, acc)
}

// The same for a script with so many inputs at most.
#[inline(never)]
fn run_in<const N: usize>(
    script: &Script,
    inputs: &[u32],
    gathered: &[(u32, Value)],
    acc: Value,
) -> Value
    requires apart { AreApart gathered.now }
    requires fits { CanRun script.now inputs.now }
    requires few { length inputs.now ≤ N }
    requires bounded { N ≤ INPUTS }
    ensures { result ≡ run_over script.now inputs.now (read_from gathered.now) acc }
{
    let count = inputs.len();
    let values = gather::<N>(inputs, gathered);
    script.eval(&values[..count], acc)
}

// The candidate that a selector's value selects, or the fault in its place.
fn select(value: Value, candidates: &[u32]) -> Found
    ensures { result ≡ found_as (select value candidates.now) }
{
    match value {
        Value::Int(index) => {
            if index < 0 {
                return Found::Fault(Fault::NoChoice);
            }
            match candidates.get(index as usize) {
                Some(candidate) => Found::Candidate(*candidate),
                None => Found::Fault(Fault::NoChoice),
            }
        }
        Value::Bool(_) => Found::Fault(Fault::Kind),
        Value::Fault(fault) => Found::Fault(fault),
    }
}

// What all selectors select.
#[inline(never)]
fn select_all(selectors: &[Selector], gathered: &[(u32, Value)]) -> FoundList
    requires apart { AreApart gathered.now }
    requires can { AllByRecursion CanSelect selectors.now }
    requires few { AllByRecursion (λ s. length s.inputs ≤ INPUTS) selectors.now }
    requires count { length selectors.now ≤ SELECTORS }
    ensures { result ≡ map found_as
        (map (λ s. select (run_over s.script s.inputs (read_from gathered.now) (values.Fault Kind)) s.candidates) selectors.now) }
{
    let mut found = FoundList::new();
    for selector in selectors {
        let value = run(
            &selector.script,
            selector.inputs.as_slice(),
            gathered,
            Value::Fault(Fault::Kind),
        );
        found.push(select(value, selector.candidates.as_slice()));
    }
    found
}

/// The value that a node's script gives over what is gathered, where the node is no choose. No two values are gathered of one node.
/// Takes no memory.
#[inline(always)]
pub(crate) fn script_value(node: &Node, gathered: &[(u32, Value)], acc: Value) -> Option<Value>
    requires apart { AreApart gathered.now }
    requires can { CanEvaluate node.now }
    requires few { HasFew node.now }
    ensures { result ≡ value_in (outcome_of node.now gathered.now acc None) }
{
    match node {
        Node::Source { start } => Some(*start),
        Node::Signal { script, inputs } => Some(run(
            script,
            inputs.as_slice(),
            gathered,
            Value::Fault(Fault::Kind),
        )),
        Node::Fold { script, inputs, .. } => Some(run(script, inputs.as_slice(), gathered, acc)),
        Node::Choose { .. } => None,
    }
}

// What the scripts of a node find.
#[inline(always)]
fn evaluated(node: &Node, gathered: &[(u32, Value)], acc: Value) -> Outcome
    requires apart { AreApart gathered.now }
    requires can { CanEvaluate node.now }
    requires few { HasFew node.now }
    ensures { result ≡ outcome_in (finds node.now (read_from gathered.now) acc) }
{
    if let Node::Choose { selectors, .. } = node {
        return Outcome::Found(select_all(selectors.as_slice(), gathered));
    }
    match script_value(node, gathered, acc) {
        Some(value) => Outcome::Value(value),
        None => unreachable!(),
    }
}

// The value of what a selector selects.
fn pick(found: &Found, gathered: &[(u32, Value)]) -> Value
    ensures { result ≡ pick_over (read_from gathered.now) (selection_of found.now) }
{
    match found {
        Found::Candidate(candidate) => read_from(gathered, *candidate),
        Found::Fault(fault) => Value::Fault(*fault),
    }
}

// The value of a body over the picks, or without a body the first pick.
#[inline(never)]
fn body_value(body: Option<&Script>, found: &FoundList, gathered: &[(u32, Value)]) -> Value
    requires { FitsBody (option_copied body) (Some found.now) }
    ensures { result ≡ body_over (option_copied body.entry) (read_from gathered.now) (map selection_of found.now) }
{
    match body {
        None => first_pick(found, gathered),
        Some(script) => {
            let mut row = Row::new();
            for index in 0..found.len() {
                row.push(pick(found.get(index), gathered));
            }
            script.eval_body(row.as_slice())
        }
    }
}

// The value of the first pick.
fn first_pick(found: &FoundList, gathered: &[(u32, Value)]) -> Value
    ensures { result ≡ first_pick_over (read_from gathered.now) (map selection_of found.now) }
{
    if found.len() == 0 {
        return Value::Fault(Fault::NoChoice);
    }
    pick(found.get(0), gathered)
}
