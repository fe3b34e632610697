// The machine.

ghost use Rattle.std.specs.Prelude.{◌≡◌, ℕ, false, ◌<◌, ◌≤◌, [], List, length, map, take, slice_set};
ghost use Rattle.std.specs.Prelude.{vec_capacity, vec_len, None, IfOk, OnOk, OnErr, MatchResult};
ghost use Rattle.script_tree.specs.declared.limits.TheConstants.{SETS, LOOKS};
ghost use Rattle.script_tree.specs.declared.value.Value.{Value};
ghost use Rattle.signal_graph.specs.Graph.{Graph, IsGraph, number_of};
ghost use Rattle.signal_graph.specs.Values.{Values, at, values, val, start};
ghost use Rattle.signal_graph.specs.Machine.{with_sets, sets_of, looks_of, misnamed, after, reply};
ghost use Rattle.signal_graph.specs.Named.{numbers_in};
ghost use Rattle.signal_graph.specs.OnePass.{after_call};
ghost use Rattle.serial_machine.specs.State.{IsAt};
ghost use Rattle.serial_machine.specs.Marking.{is_marked};
ghost use Rattle.serial_machine.specs.Between.{count_changed, count_evaluated, reply_between};

use crate::choosers::choosers;
use crate::marks::Marks;
use crate::pass::renew_all;
use script_tree::items::Items;
use script_tree::memory::OutOfMemory;
use script_tree::name::Name;
use script_tree::picks::Picks;
use script_tree::value::Value;
use signal_graph::call::{Call, Named, Reply, ValueList};
use signal_graph::evaluate::value_at;
use signal_graph::graph::Graph;
use signal_graph::laws;
use std::alloc::Global;
use std::marker::Model;

/// A graph and the values of all its nodes in one state, which follow from the values of its sources and folds. Beside
/// them stand the picks of each choose, so that a fire evaluates only what rests on a change, and the same values once
/// more, which a fire finds as those before it: it goes to the nodes alone that a change can reach. Contracts see the
/// graph and the values.
#[derive(Drop)]
pub struct Machine<'g> {
    alloc: Global,
    graph: &'g Graph,
    values: Vec<Value>,
    picks: Vec<Picks>,
    before: Vec<Value>,
    choosers: Vec<Items<u32>>,
    marks: Marks,
}

impl<'g> Model for Machine<'g> {
    ghost use Rattle.script_tree.specs.TreeCode.{tree_code};
    ghost use Rattle.std.specs.Coded.{codes};
    ghost use Rattle.serial_machine.specs.State.{State, IsReady};

    ghost Value = { State };

    ghost coded = { Prim.hlevel (codes, tree_code) };

    ghost view = { λ m. record { graph = m.graph.now; all = m.values.items } };

    ghost invariant = { λ m. IsReady m.graph.now m.values.items m.picks.items m.before.items m.choosers.items m.marks };
}

/// The values of nodes, in the room that a list has.
fn look(nodes: &[u32], values: &[Value], room: Vec<Value>) -> ValueList
    requires empty { vec_len room ≡ 0 }
    requires room { length nodes.now ≤ vec_capacity room }
    ensures { result ≡ map (at values.now) nodes.now }
{
    let mut seen = room;
    for node in nodes {
        seen.push_reserved(value_at(values, *node));
    }
    Items::from_vec(seen)
}

/// Puts what is set in the place of what the sources have, one set after the other, and marks these.
#[tactic(auto, using(crate::proofs::Counting::sets_step, crate::proofs::Counting::set_beyond))]
fn apply(sets: &[(Name, Value)], nodes: &[u32], values: &mut Vec<Value>, marks: &mut Marks)
    requires as_many { length nodes.now ≡ length sets.now }
    requires size { length marks.old ≡ length values.old.items }
    ensures size { length values.new.items ≡ length values.old.items }
    ensures marks { length marks.new ≡ length marks.old }
    ensures marked { (n : ℕ) → is_marked marks.new n ≡ false → at values.new.items n ≡ at values.old.items n }
    ensures sets { (graph : Graph) → nodes.now ≡ map (λ s. number_of graph s.0) sets.now
        → values.new.items ≡ with_sets graph values.old.items sets.now }
{
    for (index, set) in sets.iter().enumerate() {
        let node = nodes[index] as usize;
        if node < values.len() {
            values[node] = set.1;
            marks.add(nodes[index]);
        }
    }
}

/// The numbers of the nodes with these names, or how many nodes there are where none has one. Takes memory.
fn numbers_of(alloc: Global, graph: &Graph, names: &[Name]) -> Result<Vec<u32>, OutOfMemory>
    ensures { IfOk result (λ numbers. numbers.items ≡ map (number_of graph.now) names.now) }
{
    let mut numbers = Vec::new(alloc);
    for name in names {
        numbers.push(graph.number(name))?;
    }
    Ok(numbers)
}

/// The numbers of the nodes that are set. Takes memory.
fn numbers_set(
    alloc: Global,
    graph: &Graph,
    sets: &[(Name, Value)],
) -> Result<Vec<u32>, OutOfMemory>
    ensures { IfOk result (λ numbers. numbers.items ≡ map (λ s. number_of graph.now s.0) sets.now) }
{
    let mut numbers = Vec::new(alloc);
    for set in sets {
        numbers.push(graph.number(&set.0))?;
    }
    Ok(numbers)
}

impl<'g> Machine<'g> {
    /// The machine of a graph, in the start state. Takes memory.
    pub fn new(alloc: Global, graph: &'g Graph) -> Result<Machine<'g>, OutOfMemory>
        ensures graph { IfOk result (λ machine. machine.graph ≡ graph.now) }
        ensures start { IfOk result (λ machine. IsAt machine (start graph.now)) }
    {
        let mut values = Vec::new(alloc);
        let mut picks = Vec::new(alloc);
        for node in 0..graph.len() {
            values.push(graph.start_value(node))?;
            picks.push(graph.start_picks(node))?;
        }
        let before = Vec::from_slice(alloc, values.as_slice())?;
        let choosers = choosers(alloc, graph)?;
        let marks = Marks::new(alloc, graph.len())?;
        Ok(Machine {
            alloc,
            graph,
            values,
            picks,
            before,
            choosers,
            marks,
        })
    }

    /// Makes a call, which names nothing that is not there: a fire sets its sources, one set after the other, and then
    /// all that rests on a change is found again. Takes memory; where there is none, the machine is as it was.
    pub fn step(&mut self, call: &Call) -> Result<Reply, OutOfMemory>
        requires { misnamed self.old.graph call.now ≡ None }
        ensures graph { self.new.graph ≡ self.old.graph }
        ensures replies { (kept : Values) → IsAt self.old kept → IfOk result (λ answer. answer ≡ reply self.old.graph kept call.now) }
        ensures moves { (kept : Values) → IsAt self.old kept → OnOk result (IsAt self.new (after self.old.graph kept call.now)) }
        ensures err { OnErr result (self.new ≡ self.old) }
    {
        let sets = numbers_set(self.alloc, self.graph, call.sets())?;
        let looks = numbers_of(self.alloc, self.graph, call.looks())?;
        self.make(call, sets.as_slice(), looks.as_slice())
    }

    /// Makes a call whose names were looked up, as `step` does. Takes memory; where there is none, the machine is as it
    /// was.
    pub fn step_named(&mut self, call: &Call, named: &Named) -> Result<Reply, OutOfMemory>
        requires right { misnamed self.old.graph call.now ≡ None }
        requires named { named.now ≡ numbers_in self.old.graph call.now }
        ensures graph { self.new.graph ≡ self.old.graph }
        ensures replies { (kept : Values) → IsAt self.old kept → IfOk result (λ answer. answer ≡ reply self.old.graph kept call.now) }
        ensures moves { (kept : Values) → IsAt self.old kept → OnOk result (IsAt self.new (after self.old.graph kept call.now)) }
        ensures err { OnErr result (self.new ≡ self.old) }
    {
        self.make(call, named.sets(), named.looks())
    }

    /// Makes a call that names these nodes.
    fn make(&mut self, call: &Call, sets: &[u32], looks: &[u32]) -> Result<Reply, OutOfMemory>
        requires right { misnamed self.old.graph call.now ≡ None }
        requires sets { sets.now ≡ map (λ s. number_of self.old.graph s.0) (sets_of call.now) }
        requires looks { looks.now ≡ map (number_of self.old.graph) (looks_of call.now) }
        ensures graph { self.new.graph ≡ self.old.graph }
        ensures replies { (kept : Values) → IsAt self.old kept → IfOk result (λ answer. answer ≡ reply self.old.graph kept call.now) }
        ensures moves { (kept : Values) → IsAt self.old kept → OnOk result (IsAt self.new (after self.old.graph kept call.now)) }
        ensures err { OnErr result (self.new ≡ self.old) }
    {
        let _ = self.nodes();
        laws::literal();
        laws::values_are();
        match call {
            Call::Read { .. } => {
                let room = Vec::with_capacity(self.alloc, looks.len())?;
                let looks = look(looks, self.values.as_slice(), room);
                Ok(Reply::Read { looks })
            }
            Call::Fire { .. } => self.fire(call.sets(), sets, looks),
        }
    }

    /// How many nodes there are. With it come the facts that every graph keeps.
    fn nodes(&self) -> u32
        ensures value { result ≡ length self.now.graph.nodes }
        ensures kept { IsGraph self.now.graph }
    {
        self.graph.len()
    }

    /// The values of all nodes, by their numbers. Takes no memory.
    pub fn into_values(self) -> ValueList
        ensures { (kept : Values) → IsAt self.entry kept → result ≡ values self.entry.graph kept }
    {
        let Machine { values, .. } = self;
        Items::from_vec(values)
    }

    /// Makes a fire that sets and looks at these nodes.
    #[tactic(auto, using(crate::proofs::Reaching::ready_after))]
    fn fire(
        &mut self,
        sets: &[(Name, Value)],
        nodes: &[u32],
        looks: &[u32],
    ) -> Result<Reply, OutOfMemory>
        requires { nodes.now ≡ map (λ s. number_of self.old.graph s.0) sets.now }
        ensures graph { self.new.graph ≡ self.old.graph }
        ensures replies { (names : List (List ℕ)) → looks.now ≡ map (number_of self.old.graph) names
            → IfOk result (λ answer. answer ≡ reply_between self.old.graph self.old.all
            (after_call self.old.graph self.old.all (Call.Fire sets.now names)) (Call.Fire sets.now names)) }
        ensures moves { (names : List (List ℕ))
            → OnOk result (self.new.all ≡ after_call self.old.graph self.old.all (Call.Fire sets.now names)) }
        ensures err { OnErr result (self.new ≡ self.old) }
    {
        let room = Vec::with_capacity(self.alloc, looks.len())?;
        apply(sets, nodes, &mut self.values, &mut self.marks);
        let counts = renew_all(
            self.graph,
            self.choosers.as_slice(),
            self.before.as_slice(),
            &mut self.values,
            &mut self.picks,
            &mut self.marks,
        );
        self.marks.settle(&mut self.before, self.values.as_slice());
        Ok(Reply::Fire {
            changed: counts.changed,
            evaluated: counts.evaluated,
            looks: look(looks, self.values.as_slice(), room),
        })
    }

    /// The graph. Takes no memory.
    pub fn graph(&self) -> &Graph
        ensures { result.now ≡ self.now.graph }
    {
        self.graph
    }

    /// The value of a node. Takes no memory.
    pub fn value(&self, node: u32) -> Value
        requires { node < length self.now.graph.nodes }
        ensures { (kept : Values) → IsAt self.now kept → result ≡ val self.now.graph kept node }
    {
        self.values[node as usize]
    }
}
