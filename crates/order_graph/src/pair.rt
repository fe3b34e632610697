/// A recorded pair, as contracts see it: slot `from` comes before slot `to`, first recorded for this node.
#[derive(Clone, Copy, Debug, PartialEq, Eq)]
pub struct Pair {
    pub from: u32,
    pub to: u32,
    pub node: u32,
}
