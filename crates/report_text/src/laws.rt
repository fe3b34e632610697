// Laws of reports.

ghost use Rattle.std.specs.Prelude.{◌≡◌, ◌≢◌, ℕ, List, Result};
ghost use Rattle.script_tree.specs.declared.value.Value.{Value};
ghost use Rattle.signal_graph.specs.declared.log.Logged.{Logged};
ghost use Rattle.signal_graph.specs.declared.log.Refused.{Refused};
ghost use Rattle.signal_graph.specs.declared.call.Call.{Call};
ghost use Rattle.signal_graph.specs.Graph.{Graph};
ghost use Rattle.report_text.specs.declared.data.Report.{Report};
ghost use Rattle.report_text.specs.Report.{report_of};
ghost use Rattle.report_text.specs.Printed.{printed, data_of, IsReport, Stops};
ghost use Rattle.report_text.specs.Reading.{IsReadAs};
ghost use Rattle.report_text.specs.Runs.{Run, IsRun, text_of, json_text_of};

use crate::reading::ReportFault;

/// Bytes are the report of one data alone, and the bytes of a report stop at no line to be one. So of bytes that are a
/// report no line is named as a fault.
pub fn reports_are_told_apart()
    ensures one { (a b : Report) → IsReport a → IsReport b → printed a ≡ printed b → a ≡ b }
    ensures whole { (report : Report) (line : ℕ) → IsReport report → ¬ Stops (printed report) line }
{}

/// The report of a finished run is that of its data: its calls with the names that they look at, its refusals, its last
/// values with their names, and the two counts. So what is read from it is this data: each answer that `read_report` may
/// give for it, want of memory aside, is `Ok` of exactly that. `report` says that the data of a run is such that a report
/// can have it.
pub fn runs_are_read_back()
    ensures printed { (log : List Logged) (refused : List Refused) (names : List (List ℕ)) (finals : List Value)
        → report_of log refused names finals ≡ printed (data_of log refused names finals) }
    ensures read { (log : List Logged) (refused : List Refused) (names : List (List ℕ)) (finals : List Value)
        → IsReport (data_of log refused names finals)
        → (report : Report) → IsReport report → report_of log refused names finals ≡ printed report
        → report ≡ data_of log refused names finals }
    ensures back { (log : List Logged) (refused : List Refused) (names : List (List ℕ)) (finals : List Value)
        → IsReport (data_of log refused names finals)
        → (answer : Result Report ReportFault) → IsReadAs (report_of log refused names finals) answer → answer ≢ Err ReportFault.Memory
        → answer ≡ Ok (data_of log refused names finals) }
{}

/// The bytes of a report and the deck determine the run, as text and as JSON: two runs of one deck's scripts, each for
/// some limit of versions, that have the same report are the same. A report prints of a call only its thread, its version,
/// the names that it looks at and its reply; which call of its thread it is follows from how many of them stand before it.
pub fn reports_determine_runs()
    ensures text { (graph : Graph) (scripts : List (List Call)) (limit other : ℕ) (a b : Run)
        → IsRun graph scripts limit a → IsRun graph scripts other b → text_of graph a ≡ text_of graph b → a ≡ b }
    ensures json { (graph : Graph) (scripts : List (List Call)) (limit other : ℕ) (a b : Run)
        → IsRun graph scripts limit a → IsRun graph scripts other b → json_text_of graph a ≡ json_text_of graph b → a ≡ b }
{}
