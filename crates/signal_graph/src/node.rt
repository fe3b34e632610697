// The nodes of a graph.

ghost use Rattle.std.specs.Prelude.{◌≡◌};
ghost use Rattle.std.specs.Option.{option_copied};
ghost use Rattle.signal_graph.specs.Graph.{kind_of, script_of, first_script, inputs_of, selectors_of, body_of};

use script_tree::items::Items;
use script_tree::script::Script;
use script_tree::value::Value;

/// What a node is.
#[derive(Clone, Copy, PartialEq, Eq, Debug)]
pub enum NodeKind {
    Source,
    Signal,
    Fold,
    Choose,
}

/// One selector of a choose: its script, the nodes that the script's names are, in the order of its names, and the
/// nodes that it selects among.
#[derive(Debug, Drop)]
pub struct Selector {
    pub script: Script,
    pub inputs: Items<u32>,
    pub candidates: Items<u32>,
}

/// A node of a graph. Inputs and candidates are the numbers of earlier nodes; inputs stand in the order of their
/// script's names.
#[derive(Debug, Drop)]
pub enum Node {
    /// It is set, and has its start value until then.
    Source {
        start: Value,
    },
    /// A script over its inputs.
    Signal {
        script: Script,
        inputs: Items<u32>,
    },
    /// A script over its inputs and the node's own value before, at first its start value.
    Fold {
        start: Value,
        script: Script,
        inputs: Items<u32>,
    },
    /// Selectors, perhaps a body over their picks, and the different inputs of all selectors in the order of first appearance.
    Choose {
        selectors: Items<Selector>,
        body: Option<Script>,
        inputs: Items<u32>,
    },
}

impl Node {
    /// What the node is.
    pub fn kind(&self) -> NodeKind
        ensures { result ≡ kind_of self.now }
    {
        match self {
            Node::Source { .. } => NodeKind::Source,
            Node::Signal { .. } => NodeKind::Signal,
            Node::Fold { .. } => NodeKind::Fold,
            Node::Choose { .. } => NodeKind::Choose,
        }
    }

    /// Its one script, where it has no body: a choose has that of its first selector, and a source none.
    pub fn script(&self) -> Option<&Script>
        ensures { option_copied result ≡ script_of self.now }
    {
        match self {
            Node::Source { .. } => None,
            Node::Signal { script, .. } => Some(script),
            Node::Fold { script, .. } => Some(script),
            Node::Choose { selectors, .. } => first_script(selectors.as_slice()),
        }
    }

    /// The nodes that its scripts name.
    pub fn inputs(&self) -> &[u32]
        ensures { result.now ≡ inputs_of self.now }
    {
        match self {
            Node::Source { .. } => &[],
            Node::Signal { inputs, .. } => inputs.as_slice(),
            Node::Fold { inputs, .. } => inputs.as_slice(),
            Node::Choose { inputs, .. } => inputs.as_slice(),
        }
    }

    /// The selectors of a choose. Another kind has none.
    pub fn selectors(&self) -> &[Selector]
        ensures { result.now ≡ selectors_of self.now }
    {
        match self {
            Node::Choose { selectors, .. } => selectors.as_slice(),
            _ => &[],
        }
    }

    /// The body of a choose, where there is one.
    pub fn body(&self) -> Option<&Script>
        ensures { option_copied result ≡ body_of self.now }
    {
        match self {
            Node::Choose { body, .. } => body.as_ref(),
            _ => None,
        }
    }
}

fn first_script(selectors: &[Selector]) -> Option<&Script>
    ensures { option_copied result ≡ first_script selectors.now }
{
    match selectors {
        [] => None,
        [selector, ..] => Some(&selector.script),
    }
}
