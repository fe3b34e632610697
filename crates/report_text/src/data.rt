// What a report says, as data.

use script_tree::items::Items;
use script_tree::name::NameList;
use signal_graph::call::{Reply, SetList};
use signal_graph::log::RefusedList;

/// The line of a call that was made: its version, its thread, its reply, and the names of the looks, of which the reply
/// has a value each.
#[derive(Debug, Drop)]
pub struct CallLine {
    pub version: u32,
    pub caller: u32,
    pub reply: Reply,
    pub names: NameList,
}

/// The lines of calls, in their order.
pub type LineList = Items<CallLine>;

/// A report as data: its lines, in their order, and the two counts of its last line. Whether the counts are those of the
/// lines is not asked.
#[derive(Debug, Drop)]
pub struct Report {
    pub calls: LineList,
    pub refused: RefusedList,
    pub finals: SetList,
    pub accepted: u32,
    pub refusals: u32,
}
