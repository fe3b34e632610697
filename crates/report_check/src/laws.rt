// Laws of right reports.

ghost use Rattle.std.specs.Prelude.{◌≡◌, ◌↔◌, ◌≤◌, ℕ, List, length};
ghost use Rattle.signal_graph.specs.declared.call.Call.{Call};
ghost use Rattle.signal_graph.specs.declared.log.Logged.{Logged};
ghost use Rattle.signal_graph.specs.Graph.{Graph};
ghost use Rattle.report_text.specs.declared.data.Report.{Report};
ghost use Rattle.report_text.specs.Printed.{printed, IsReport};
ghost use Rattle.report_check.specs.declared.verdict.Verdict.{Verdict};
ghost use Rattle.report_check.specs.Lines.{lines_of};
ghost use Rattle.report_check.specs.Right.{log_of, AreRight};
ghost use Rattle.report_check.specs.Runs.{IsOfRun, IsReportOfRun, AreReportOfRun};
ghost use Rattle.report_check.specs.Verdicts.{IsVerdict};

use report_text::{reports_are_told_apart, runs_are_read_back};

/// Every line of a report is right exactly where the report is that of a run of the scripts, and then the log of the run
/// is the one that its lines stand for.
pub fn right_reports_are_those_of_runs()
    ensures right { (graph : Graph) (scripts : List (List Call)) (limit : ℕ) (report : Report)
        → AreRight graph scripts limit report ↔ IsReportOfRun graph scripts limit report }
    ensures one { (graph : Graph) (scripts : List (List Call)) (limit : ℕ) (report : Report) (log : List Logged)
        → IsOfRun graph scripts limit report log → log ≡ log_of graph scripts report.calls }
{}

/// A report has one verdict: not both are all lines right and one of them the first wrong one, and no two are the first.
pub fn reports_have_one_verdict()
    ensures { (graph : Graph) (scripts : List (List Call)) (limit : ℕ) (report : Report) (a b : Verdict)
        → IsVerdict graph scripts limit report a → IsVerdict graph scripts limit report b → a ≡ b }
{}

/// A report that was read is that of a run exactly where its bytes are, and it has at most as many lines as bytes.
pub fn reports_of_runs_by_their_bytes()
    ensures bytes { (graph : Graph) (scripts : List (List Call)) (limit : ℕ) (report : Report) → IsReport report
        → IsReportOfRun graph scripts limit report ↔ AreReportOfRun graph scripts limit (printed report) }
    ensures lines { (report : Report) → length (lines_of report) ≤ length (printed report) }
{
    reports_are_told_apart();
    runs_are_read_back();
}
