// Laws of graphs and of the one-thread machine.

ghost use Rattle.std.specs.Prelude.{◌≡◌, ◌≢◌, ◌<◌, ◌≤◌, ℕ, [], ◌++◌, length, None};
ghost use Rattle.std.specs.List.{AllByRecursion};
ghost use Rattle.script_tree.specs.declared.limits.TheConstants.{INPUTS};
ghost use Rattle.signal_graph.specs.declared.call.Call.{Call};
ghost use Rattle.signal_graph.specs.declared.node.NodeKind.TheVariants as kind;
ghost use Rattle.signal_graph.specs.Graph.{Graph, IsGraph, node_at, name_at, kind_of, inputs_of, is_in, static_outs, stands_in};
ghost use Rattle.signal_graph.specs.Values.{Values, at, values, val, node_value, deps};
ghost use Rattle.signal_graph.specs.Machine.{with_sets, sets_of, misnamed, after};
ghost use Rattle.signal_graph.specs.Evaluation.{CanEvaluate};
ghost use Rattle.signal_graph.specs.OnePass.{new_value, new_from, after_call};

/// No node of a graph has more than 64 inputs.
pub fn inputs_are_few()
    ensures { (graph : Graph) → IsGraph graph → (n : ℕ) → n < length graph.nodes → length (inputs_of (node_at graph n)) ≤ INPUTS }
{}

/// A node is among the static outs of another one exactly where the other one's name stands in one of its scripts.
pub fn outs_are_named()
    ensures { (graph : Graph) → IsGraph graph → (n m : ℕ) → n < length graph.nodes → m < length graph.nodes
        → is_in n (static_outs graph m) ≡ stands_in (name_at graph m) (node_at graph n) }
{}

/// The equations of the values: of a source and a fold it is what the state keeps, and each other node's follows from
/// the values of the nodes that it names. All values are themselves a state, which has these values.
pub fn values_are()
    ensures each { (graph : Graph) → IsGraph graph → (kept : Values) (n : ℕ) → n < length graph.nodes
        → val graph kept n ≡ node_value (node_at graph n) (at kept n) (values graph kept) }
    ensures all { (graph : Graph) (kept : Values) → length (values graph kept) ≡ length graph.nodes }
    ensures again { (graph : Graph) (kept : Values) → values graph (values graph kept) ≡ values graph kept }
{}

/// In two states, a signal or choose has the same value where all nodes have that its value rests on.
pub fn skips()
    ensures { (graph : Graph) → IsGraph graph → (kept next : Values) (n : ℕ) → n < length graph.nodes
        → kind_of (node_at graph n) ≢ kind.Source → kind_of (node_at graph n) ≢ kind.Fold
        → AllByRecursion (λ m. val graph kept m ≡ val graph next m) (deps graph kept n) → val graph kept n ≡ val graph next n }
{}

/// The values after a call follow from those before it in one pass over the nodes, and the state has as many members as
/// before.
pub fn literal()
    ensures pass { (graph : Graph) → IsGraph graph → (kept : Values) → length kept ≡ length graph.nodes → (call : Call)
        → misnamed graph call ≡ None → values graph (after graph kept call) ≡ after_call graph (values graph kept) call }
    ensures size { (graph : Graph) (kept : Values) (call : Call) → length (after graph kept call) ≡ length kept }
{}

/// Each node's value after a call follows from the values before it and from the new values of the nodes that it names.
pub fn new_values_are()
    ensures { (graph : Graph) → IsGraph graph → (kept : Values) → length kept ≡ length graph.nodes → (call : Call)
        → misnamed graph call ≡ None → (n : ℕ) → n < length graph.nodes
        → val graph (after graph kept call) n ≡ new_value (node_at graph n) (at (with_sets graph (values graph kept) (sets_of call)) n)
        (val graph kept n) (values graph kept) (values graph (after graph kept call)) }
{}

/// What one pass gives is a state, and its values are what it keeps.
pub fn new_values_from()
    ensures { (graph : Graph) (before : Values) → values graph before ≡ before → (call : Call)
        → values graph (after_call graph before call) ≡ after_call graph before call }
{}

/// The value of each node of a graph can be found: its scripts run over what they name, and its body over its picks.
pub fn can_evaluate()
    ensures { (graph : Graph) → IsGraph graph → (n : ℕ) → n < length graph.nodes → CanEvaluate (node_at graph n) }
{}
