// What a job finds, and its answer.

use crate::found::FoundList;
use script_tree::value::Value;

/// What a job finds: the value of a signal's or fold's script, what the selectors of a choose select, or the value of a
/// body.
#[derive(Drop)]
pub enum Outcome {
    Value(Value),
    Found(FoundList),
    Body(Value),
}

/// The answer of a job. It has to be spent.
pub struct Answer {
    pub version: u32,
    pub node: u32,
    pub outcome: Outcome,
}
