// The report as JSON, written item by item: only one item of a list is a JSON value at a time, because the value of a
// whole report would take many times the memory of its text.

ghost use Rattle.std.specs.Prelude.{◌≡◌, ◌++◌, length, map, false, IfOk, OnOk};
ghost use Rattle.std.specs.List.{zip};
ghost use Rattle.serde_json.specs.View.{view};
ghost use Rattle.serde_json.specs.Written.{has_float, comma_if, compact_text};
ghost use Rattle.report_text.specs.Report.{line_of, AreAnswered};
ghost use Rattle.report_text.specs.Json.{look_data, list_data, call_data, refused_data, json_of};

use crate::json_values::{call_json, look_json, refused_json};
use call_log::{Finished, Logged, Refused};
use script_tree::items::Text;
use script_tree::memory::OutOfMemory;
use script_tree::print::print_number;
use script_tree::value::Value;
use serde_json::Value as Json;
use signal_graph::graph::Graph;
use std::alloc::Global;

// An item of a list, behind a comma where another item stands before. Its value is gone when this returns.
fn push_item(alloc: Global, out: &mut Text, later: bool, item: Json) -> Result<(), OutOfMemory>
    requires { has_float (view item) ≡ false }
    ensures { OnOk result (out.new ≡ out.old ++ (comma_if later ++ compact_text (view item))) }
{
    if later {
        out.extend_from_slice(b",")?;
    }
    let text = item.to_vec(alloc)?;
    out.extend_from_slice(text.as_slice())
}

// The list of the calls that were made.
fn push_calls(alloc: Global, out: &mut Text, log: &[Logged]) -> Result<(), OutOfMemory>
    requires { AreAnswered log.now }
    ensures { OnOk result (out.new ≡ out.old ++ compact_text (list_data call_data (map line_of log.now))) }
{
    out.extend_from_slice(b"[")?;
    let mut later = false;
    for entry in log {
        let call = call_json(alloc, entry)?;
        push_item(alloc, out, later, call)?;
        later = true;
    }
    out.extend_from_slice(b"]")
}

// The list of the nodes' last values.
fn push_finals(
    alloc: Global,
    out: &mut Text,
    graph: &Graph,
    finals: &[Value],
) -> Result<(), OutOfMemory>
    requires { length finals.now ≡ length graph.now.nodes }
    ensures { OnOk result (out.new ≡ out.old ++ compact_text (list_data look_data (zip graph.now.names finals.now))) }
{
    out.extend_from_slice(b"[")?;
    let mut later = false;
    for node in 0..graph.len() {
        let last = look_json(alloc, graph.name(node), finals[node as usize])?;
        push_item(alloc, out, later, last)?;
        later = true;
    }
    out.extend_from_slice(b"]")
}

// The list of the calls that were not made.
fn push_all_refused(alloc: Global, out: &mut Text, refused: &[Refused]) -> Result<(), OutOfMemory>
    ensures { OnOk result (out.new ≡ out.old ++ compact_text (list_data refused_data refused.now)) }
{
    out.extend_from_slice(b"[")?;
    let mut later = false;
    for one in refused {
        let json = refused_json(alloc, *one)?;
        push_item(alloc, out, later, json)?;
        later = true;
    }
    out.extend_from_slice(b"]")
}

/// The report of a finished run as one line of JSON, without spaces, that ends with LF. Takes memory.
///
/// The object has the number of accepted calls and three lists: the calls that were made, in the order of their effect,
/// the last value of each node, in the order of declaration, and the calls that were not made, by thread and number.
/// The keys of each object are in the order of their bytes.
///
/// There are as many final values as nodes, and each reply in the log is of its call's kind, with a value for each look
/// of its call.
pub fn report_json(alloc: Global, graph: &Graph, finished: &Finished) -> Result<Text, OutOfMemory>
    requires finals { length finished.now.finals ≡ length graph.now.nodes }
    requires replies { AreAnswered finished.now.log.entries }
    ensures { IfOk result (λ text.
        text ≡ json_of finished.now.log.entries finished.now.refused graph.now.names finished.now.finals) }
{
    let mut out = Text::new(alloc);
    out.extend_from_slice(b"{\"accepted\":")?;
    print_number(&mut out, finished.log.len())?;
    out.extend_from_slice(b",\"calls\":")?;
    push_calls(alloc, &mut out, finished.log.as_slice())?;
    out.extend_from_slice(b",\"finals\":")?;
    push_finals(alloc, &mut out, graph, finished.finals.as_slice())?;
    out.extend_from_slice(b",\"refused\":")?;
    push_all_refused(alloc, &mut out, finished.refused.as_slice())?;
    out.extend_from_slice(b"}\n")?;
    Ok(out)
}
