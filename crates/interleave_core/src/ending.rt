// What a core leaves.

ghost use Rattle.std.specs.Prelude.{◌≡◌, ◌≤◌, [], length, map, vec_capacity};
ghost use Rattle.node_versions.specs.Entries.{last_done, state_of, value_of};
ghost use Rattle.signal_graph.specs.Legal.{finals};
ghost use Rattle.flow_model.specs.Machine.Histories.{last_values};
ghost use Rattle.interleave_core.specs.Ending.{HasLastValue, HaveLastValues, last_value};

use crate::core_state::Core;
use call_log::Log;
use flow_model::laws::last_values_are_final;
use node_versions::NodeList;
use script_tree::items::Items;
use script_tree::value::Value;
use signal_graph::call::ValueList;

impl Core<'_> {
    /// The log of all calls, and for each node the value of the last Done of its list: the values after the log. No call is live
    /// any more. Takes no memory: its room was made with the core.
    pub fn finish(self) -> (Log, ValueList)
        requires { self.state.calls ≡ [] }
        ensures log { result.0.entries ≡ self.entry.state.log }
        ensures values { result.1 ≡ last_values self.entry.state }
        ensures finals { result.1 ≡ finals self.entry.graph self.entry.state.log }
    {
        last_values_are_final();
        let Core {
            graph: _,
            book,
            lists,
            finals,
        } = self;
        let values = values_of(lists.as_slice(), finals);
        (book.finish(), Items::from_vec(values))
    }
}

// The last values of lists, in the room that there is.
fn values_of(lists: &[NodeList], room: Vec<Value>) -> Vec<Value>
    requires empty { room.items ≡ [] }
    requires room { length lists.now ≤ vec_capacity room }
    requires last { HaveLastValues lists.now }
    ensures { result.items ≡ map last_value lists.now }
{
    let mut values = room;
    for list in lists {
        values.push_reserved(value_of(list));
    }
    values
}

// The value of the last Done of a list: what the call of its last entry finds there.
fn value_of(list: &NodeList) -> Value
    requires { HasLastValue list.now }
    ensures { result ≡ last_value list.now }
{
    let last = list.get(list.len() - 1);
    list.value_for(last.version)
}
