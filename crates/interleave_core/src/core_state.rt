// What the machine is made of.

ghost use Rattle.std.specs.Prelude.{◌≡◌, ◌≤◌, [], length, vec_capacity};

use flow_state::Book;
use node_versions::NodeList;
use script_tree::value::Value;
use signal_graph::graph::Graph;
use std::marker::Model;

/// The machine of a graph. Contracts see the graph, the state, and how many rooms are out. The state is a lawful one of the graph:
/// what it starts as is, and steps and beginnings keep it so.
#[derive(Drop)]
pub struct Core<'g> {
    pub(crate) graph: &'g Graph,
    pub(crate) book: Book,
    pub(crate) lists: Vec<NodeList>,
    pub(crate) finals: Vec<Value>,
    ghost finals_empty: { finals.items ≡ [] },
    ghost finals_room: { length lists.items ≤ vec_capacity finals },
}

impl<'g> Model for Core<'g> {
    ghost use Rattle.interleave_core.specs.Whole.{Whole, whole_of, IsWhole};
    ghost use Rattle.std.specs.Coded.{codes};
    ghost use Rattle.script_tree.specs.TreeCode.{tree_code};

    ghost Value = { Whole };

    ghost coded = { Prim.hlevel (codes, tree_code) };

    ghost view = { λ c. whole_of c.graph.now c.book c.lists.items };

    ghost invariant = { λ c. IsWhole c.graph.now c.book c.lists.items };
}
