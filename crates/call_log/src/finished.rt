// A finished run.

use crate::log::Log;
use signal_graph::call::ValueList;
use signal_graph::log::RefusedList;

/// What a run leaves: the calls that were made, in the order of their effect, the values of all nodes afterwards, by
/// their numbers, and the calls that were not made, by caller and then number.
#[derive(Drop)]
pub struct Finished {
    pub log: Log,
    pub finals: ValueList,
    pub refused: RefusedList,
}
