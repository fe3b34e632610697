// The check of a report.

ghost use Rattle.std.specs.Prelude.{◌≡◌, ◌↔◌, ◌<◌, ◌-◌, ◌^◌, IsTrue, IfOk, length};
ghost use Rattle.report_check.specs.Lines.{lines_of};
ghost use Rattle.report_check.specs.Right.{count_made, log_of};
ghost use Rattle.report_check.specs.Runs.{IsReportOfRun};
ghost use Rattle.report_check.specs.Stopping.{IsThrough};
ghost use Rattle.report_check.specs.Standing.{Stands};
ghost use Rattle.report_check.specs.Verdicts.{IsVerdict};

use crate::count::count_made;
use crate::finals::first_other_final;
use crate::pass::Pass;
use crate::refused::{first_other_refused, left_out};
use crate::verdict::Verdict;
use deck_text::Deck;
use report_text::data::Report;
use script_tree::memory::OutOfMemory;
use std::alloc::Global;

/// Whether a report is that of a run of a deck with at most so many versions: `Yes` exactly where there is such a run, in
/// whatever order of the threads' calls, and else `Wrong` with the first line that isn't right by its place. Makes the
/// calls once, in the order of their lines. Takes memory.
pub fn check(
    alloc: Global,
    deck: &Deck,
    report: &Report,
    versions: u32,
) -> Result<Verdict, OutOfMemory>
    requires { length (lines_of report.now) < 2 ^ 32 - 1 }
    ensures yes { IfOk result (λ verdict. verdict ≡ Verdict.Yes ↔ IsReportOfRun deck.now.graph deck.now.scripts versions report.now) }
    ensures line { IfOk result (IsVerdict deck.now.graph deck.now.scripts versions report.now) }
{
    check_lines(alloc, deck, report, versions)
}

// The check line by line.
fn check_lines(
    alloc: Global,
    deck: &Deck,
    report: &Report,
    versions: u32,
) -> Result<Verdict, OutOfMemory>
    requires { length (lines_of report.now) < 2 ^ 32 - 1 }
    ensures { IfOk result (IsVerdict deck.now.graph deck.now.scripts versions report.now) }
{
    let made = count_made(deck.graph(), deck.scripts(), versions);
    let mut pass = Pass::new(alloc, deck, made)?;
    let lines = report.calls.as_slice();
    for place in 0..made as usize {
        if place >= lines.len() {
            return Ok(Verdict::Wrong(place as u32 + 1));
        }
        if !pass.take(deck, lines, place)? {
            return Ok(Verdict::Wrong(place as u32 + 1));
        }
    }
    if lines.len() > made as usize {
        return Ok(Verdict::Wrong(made + 1));
    }
    check_behind(alloc, deck, report, versions, pass)
}

// The check of the lines behind those of calls, which are all right.
fn check_behind(
    alloc: Global,
    deck: &Deck,
    report: &Report,
    versions: u32,
    pass: Pass,
) -> Result<Verdict, OutOfMemory>
    requires few { length (lines_of report.now) < 2 ^ 32 - 1 }
    requires made { pass.made ≡ count_made deck.now.graph deck.now.scripts versions }
    requires size { length report.now.calls ≡ pass.made }
    requires through { IsThrough deck.now.graph deck.now.scripts pass.made report.now.calls }
    requires stands { Stands deck.now.graph deck.now.scripts pass.made pass.machine pass.seats.items pass.marks.items
        (log_of deck.now.graph deck.now.scripts report.now.calls) }
    ensures { IfOk result (IsVerdict deck.now.graph deck.now.scripts versions report.now) }
{
    let Pass {
        made,
        machine,
        seats,
        ..
    } = pass;
    let graph = deck.graph();
    let due = left_out(alloc, graph, deck.scripts(), seats.as_slice(), versions)?;
    if let Some(place) = first_other_refused(due.as_slice(), report.refused.as_slice()) {
        return Ok(Verdict::Wrong(made + place as u32 + 1));
    }
    let values = machine.into_values();
    if let Some(place) = first_other_final(graph, values.as_slice(), report.finals.as_slice()) {
        return Ok(Verdict::Wrong(made + (report.refused.len() + place) as u32 + 1));
    }
    if !has_counts(report, made, due.len()) {
        let behind = report.refused.len() + report.finals.len();
        return Ok(Verdict::Wrong(made + behind as u32 + 1));
    }
    Ok(Verdict::Yes)
}

// Whether the last line has these counts.
fn has_counts(report: &Report, accepted: u32, refusals: usize) -> bool
    ensures { IsTrue result ↔ ((report.now.accepted ≡ accepted) × (report.now.refusals ≡ refusals)) }
{
    report.accepted == accepted && report.refusals as usize == refusals
}
