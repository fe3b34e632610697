// How long the scripts of nodes are.

ghost use Rattle.std.specs.Prelude.{◌≡◌, length, IfOk};

use node_set::NodeSet;
use script_tree::expr::Expr;
use script_tree::memory::OutOfMemory;
use signal_graph::graph::Graph;
use signal_graph::node::Node;
use std::alloc::Global;

// A node is heavy where its scripts have more operators, numbers and names than this. So many are evaluated in about the time in
// which one thread hands over to another.
const LIGHT: u64 = 100;

/// The heavy nodes of a graph: those whose evaluation takes so long that others are let go on meanwhile. Which they are changes
/// nothing of what is run. Takes memory.
pub(crate) fn heavy_nodes(alloc: Global, graph: &Graph) -> Result<NodeSet, OutOfMemory>
    ensures { IfOk result (λ set. set.size ≡ length graph.now.nodes) }
{
    let mut heavy = NodeSet::new(alloc, graph.len())?;
    for number in 0..graph.len() {
        if LIGHT < weight(graph.node(number)) {
            heavy.insert(number);
        }
    }
    Ok(heavy)
}

// How many operators, numbers and names the scripts of a node have.
fn weight(node: &Node) -> u64 {
    match node {
        Node::Source { .. } => 0,
        Node::Signal { script, .. } => size(script.tree()),
        Node::Fold { script, .. } => size(script.tree()),
        Node::Choose {
            selectors,
            body,
            ..
        } => {
            let mut sum = match body {
                Some(body) => size(body.tree()),
                None => 0,
            };
            for selector in selectors.as_slice() {
                sum = size(selector.script.tree()).saturating_add(sum);
            }
            sum
        }
    }
}

// How many operators, numbers and names a tree has. It goes down the tree by recursion.
fn size(tree: &Expr) -> u64 {
    match tree {
        Expr::Number(_) => 1,
        Expr::Truth(_) => 1,
        Expr::Input(_) => 1,
        Expr::Pick(_) => 1,
        Expr::Acc => 1,
        Expr::Unary(_, operand) => size(operand).saturating_add(1),
        Expr::Binary(_, left, right) => size(left).saturating_add(size(right)).saturating_add(1),
        Expr::If(test, first, second) => {
            let branches = size(first).saturating_add(size(second));
            size(test).saturating_add(branches).saturating_add(1)
        }
    }
}
