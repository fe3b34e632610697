// The values of nodes, from a table of the values of the nodes before them. Nothing here takes memory.

ghost use Rattle.std.specs.Prelude.{◌≡◌, ℕ, ◌<◌, ◌≤◌, [], List, map, take, length, slice_get, Some};
ghost use Rattle.std.specs.List.{AllByRecursion};
ghost use Rattle.script_tree.specs.declared.limits.TheConstants.{INPUTS, SELECTORS};
ghost use Rattle.script_tree.specs.Scripts.{HasNoPicks, IsBody};
ghost use Rattle.signal_graph.specs.declared.node.Selector.{Selector};
ghost use Rattle.signal_graph.specs.Graph.{BodyFits};
ghost use Rattle.signal_graph.specs.Values.{Values, at, candidate, select, run, selected, pick_of, pick};
ghost use Rattle.signal_graph.specs.Values.{first_pick, choose_value, node_value, taken, picks_of, start_value};
ghost use Rattle.signal_graph.specs.Evaluation.{CanRun, CanSelect, CanEvaluate};

use crate::node::{Node, Selector};
use script_tree::limits::{INPUTS, SELECTORS};
use script_tree::picks::Picks;
use script_tree::script::Script;
use script_tree::value::{Fault, Value};

/// What the scripts of a node give: its value, and what its selectors select, as nodes.
#[derive(Drop)]
pub struct Evaluated {
    /// The node's value.
    pub value: Value,
    /// One item per selector of a choose, and the empty list for another kind.
    pub picks: Picks,
}

impl Evaluated {
    /// The value of a node that is no choose, with the empty list of picks.
    pub fn without_picks(value: Value) -> Evaluated
        ensures value { result.value ≡ value }
        ensures picks { result.picks ≡ [] }
    {
        Evaluated {
            value,
            picks: Picks::new(),
        }
    }
}

/// The value of a node in a table of values by node number.
pub fn value_at(values: &[Value], node: u32) -> Value
    ensures { result ≡ at values.now node }
{
    values
        .get(node as usize)
        .copied()
        .unwrap_or(Value::Fault(Fault::NoChoice))
}

// The values of inputs in their order, in the front of an array.
fn gather<const N: usize>(inputs: &[u32], values: &[Value]) -> [Value; N]
    requires { length inputs.now ≤ N }
    ensures { take (length inputs.now) result ≡ map (at values.now) inputs.now }
{
    let mut gathered = [Value::Fault(Fault::NoChoice); N];
    for (place, input) in inputs.iter().enumerate() {
        gathered[place] = value_at(values, *input);
    }
    gathered
}

// Most scripts have no more inputs. An array of so many values is made faster than one for as many as there may be.
const FEW: usize = 4;

/// The value of a script over the values of its inputs, which stand in the order of its names, and of `acc`.
pub fn run(script: &Script, inputs: &[u32], values: &[Value], acc: Value) -> Value
    requires { CanRun script.now inputs.now }
    ensures { result ≡ run script.now inputs.now values.now acc }
{
    let count = inputs.len();
    if count > FEW {
        return run_long(script, inputs, values, acc);
    }
    let gathered = gather::<FEW>(inputs, values);
    script.eval(&gathered[..count], acc)
}

// The same for a script with as many inputs as there may be.
fn run_long(script: &Script, inputs: &[u32], values: &[Value], acc: Value) -> Value
    requires { CanRun script.now inputs.now }
    ensures { result ≡ run script.now inputs.now values.now acc }
{
    let count = script.inputs().len();
    let gathered = gather::<INPUTS>(inputs, values);
    script.eval(&gathered[..count], acc)
}

fn select(value: Value, candidates: &[u32]) -> Result<u32, Fault>
    ensures { result ≡ select value candidates.now }
{
    match value {
        Value::Int(index) => {
            if index < 0 {
                return Err(Fault::NoChoice);
            }
            candidates
                .get(index as usize)
                .copied()
                .ok_or(Fault::NoChoice)
        }
        Value::Bool(_) => Err(Fault::Kind),
        Value::Fault(fault) => Err(fault),
    }
}

// The pick: the selected candidate's value, or the fault in its place.
fn pick_of(values: &[Value], found: Result<u32, Fault>) -> Value
    ensures { result ≡ pick_of values.now found }
{
    match found {
        Ok(candidate) => value_at(values, candidate),
        Err(fault) => Value::Fault(fault),
    }
}

impl Selector {
    // The candidate that the selector selects over a table of values, or the fault in its place.
    fn selected(&self, values: &[Value]) -> Result<u32, Fault>
        requires { CanSelect self.now }
        ensures { result ≡ selected values.now self.now }
    {
        let value = run(
            &self.script,
            self.inputs.as_slice(),
            values,
            Value::Fault(Fault::Kind),
        );
        select(value, self.candidates.as_slice())
    }
}

// The value of a choose over its picks: the body's, or without a body the first pick.
#[tactic(auto, using(crate::proofs::Values::first_of_picks))]
fn value_of_picks(picked: &[Value], body: &Option<Script>) -> Value
    requires { BodyFits (length picked.now) body.now }
    ensures { (selectors : List Selector) (values : Values) → picked.now ≡ map (pick values) selectors
        → result ≡ choose_value selectors body.now values }
{
    match body {
        None => value_at(picked, 0),
        Some(script) => script.eval_body(picked),
    }
}

// What a choose gives over a table of values. Each selector is evaluated once.
fn choose(selectors: &[Selector], body: &Option<Script>, values: &[Value]) -> Evaluated
    requires selectors { AllByRecursion CanSelect selectors.now }
    requires few { length selectors.now ≤ SELECTORS }
    requires body { BodyFits (length selectors.now) body.now }
    ensures value { result.value ≡ choose_value selectors.now body.now values.now }
    ensures picks { result.picks ≡ map (λ selector. taken (selected values.now selector)) selectors.now }
{
    let mut picks = Picks::new();
    let mut picked = [Value::Fault(Fault::NoChoice); SELECTORS];
    for (index, selector) in selectors.iter().enumerate() {
        let found = selector.selected(values);
        picked[index] = pick_of(values, found);
        picks.push(found.ok());
    }
    let value = value_of_picks(&picked[..selectors.len()], body);
    Evaluated { value, picks }
}

impl Node {
    /// The value that is kept for the node at the start: that of a source or a fold, and one that is never read for
    /// any other node.
    pub fn start_value(&self) -> Value
        ensures { result ≡ start_value self.now }
    {
        match self {
            Node::Source { start } => *start,
            Node::Fold { start, .. } => *start,
            _ => Value::Fault(Fault::Kind),
        }
    }

    /// The node's value and picks, from what is kept for a source or a fold and a table of the values of the nodes
    /// before it. Each script is evaluated once.
    pub fn evaluate(&self, kept: Value, earlier: &[Value]) -> Evaluated
        requires { CanEvaluate self.now }
        ensures value { result.value ≡ node_value self.now kept earlier.now }
        ensures picks { result.picks ≡ picks_of self.now earlier.now }
    {
        match self {
            Node::Source { .. } => Evaluated::without_picks(kept),
            Node::Fold { .. } => Evaluated::without_picks(kept),
            Node::Signal { script, inputs } => {
                let value = run(
                    script,
                    inputs.as_slice(),
                    earlier,
                    Value::Fault(Fault::Kind),
                );
                Evaluated::without_picks(value)
            }
            Node::Choose {
                selectors,
                body,
                ..
            } => choose(selectors.as_slice(), body, earlier),
        }
    }

    /// What the selectors of a choose select, as nodes, over a table of values: one item per selector, and the empty
    /// list for another kind.
    pub fn picks(&self, values: &[Value]) -> Picks
        requires { CanEvaluate self.now }
        ensures { result ≡ picks_of self.now values.now }
    {
        match self {
            Node::Choose {
                selectors,
                body,
                ..
            } => choose(selectors.as_slice(), body, values).picks,
            _ => Picks::new(),
        }
    }
}
