// A whole report.

ghost use Rattle.std.specs.Prelude.{◌≡◌, ◌≢◌, ◌<◌, ◌^◌, ◌++◌, List, length, map, Result, IfOk, OnOk};
ghost use Rattle.std.specs.List.{flat_map, zip};
ghost use Rattle.report_text.specs.declared.data.Report.{Report};
ghost use Rattle.report_text.specs.Printed.{data_of, AreLines, AreRefusals, AreLooks, IsReport};
ghost use Rattle.report_text.specs.Reading.{IsReadAs};
ghost use Rattle.report_text.specs.Report.{AreAnswered, line_of, call_line, refused_line, final_line, report_of};

use crate::lines::{print_call, print_done, print_final, print_refused};
use crate::reading::ReportFault;
use call_log::{Finished, Logged, Refused};
use script_tree::items::Text;
use script_tree::memory::OutOfMemory;
use script_tree::value::Value;
use signal_graph::graph::Graph;
use std::alloc::Global;

// The lines of the calls that were made.
fn print_calls(out: &mut Text, log: &[Logged]) -> Result<(), OutOfMemory>
    requires { AreAnswered log.now }
    ensures text { OnOk result (out.new ≡ out.old ++ flat_map call_line (map line_of log.now)) }
    ensures lines { OnOk result (AreLines (map line_of log.now)) }
{
    for entry in log {
        print_call(out, entry)?;
    }
    Ok(())
}

// The lines of the calls that were not made.
fn print_all_refused(out: &mut Text, refused: &[Refused]) -> Result<(), OutOfMemory>
    ensures text { OnOk result (out.new ≡ out.old ++ flat_map refused_line refused.now) }
    ensures refusals { OnOk result (AreRefusals refused.now) }
{
    for one in refused {
        print_refused(out, *one)?;
    }
    Ok(())
}

// The lines of the nodes' last values.
fn print_finals(out: &mut Text, graph: &Graph, finals: &[Value]) -> Result<(), OutOfMemory>
    requires { length finals.now ≡ length graph.now.nodes }
    ensures text { OnOk result (out.new ≡ out.old ++ flat_map final_line (zip graph.now.names finals.now)) }
    ensures looks { OnOk result (AreLooks (zip graph.now.names finals.now)) }
{
    for node in 0..graph.len() {
        print_final(out, graph.name(node), finals[node as usize])?;
    }
    Ok(())
}

/// The report of a finished run. Takes memory.
///
/// There are as many final values as nodes, and each reply in the log is of its call's kind, with a value for each look
/// of its call. Where the number of refusals has 32 bits, as it must in a report that is read, `read_report` answers
/// exactly the data of this run for the report, want of memory aside.
pub fn report(alloc: Global, graph: &Graph, finished: &Finished) -> Result<Text, OutOfMemory>
    requires finals { length finished.now.finals ≡ length graph.now.nodes }
    requires replies { AreAnswered finished.now.log.entries }
    ensures text { IfOk result (λ text.
        text ≡ report_of finished.now.log.entries finished.now.refused graph.now.names finished.now.finals) }
    ensures data { OnOk result (length finished.now.refused < 2 ^ 32
        → IsReport (data_of finished.now.log.entries finished.now.refused graph.now.names finished.now.finals)) }
    ensures back { IfOk result (λ text. length finished.now.refused < 2 ^ 32
        → (answer : Result Report ReportFault) → IsReadAs text answer → answer ≢ Err ReportFault.Memory
        → answer ≡ Ok (data_of finished.now.log.entries finished.now.refused graph.now.names finished.now.finals)) }
{
    let mut out = Text::new(alloc);
    print_calls(&mut out, finished.log.as_slice())?;
    print_all_refused(&mut out, finished.refused.as_slice())?;
    print_finals(&mut out, graph, finished.finals.as_slice())?;
    print_done(
        &mut out,
        finished.log.len() as usize,
        finished.refused.len(),
    )?;
    Ok(out)
}
