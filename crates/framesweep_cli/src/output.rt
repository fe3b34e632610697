// What each command writes for its input.

ghost use Rattle.std.specs.Prelude.{◌≡◌, ◌≤◌, length, Some, IfSome, IfOk, IfErr, OnOk};
ghost use Rattle.script_tree.specs.declared.limits.TheConstants.{VERSIONS as MOST};
ghost use Rattle.report_text.specs.Report.{AreAnswered};
ghost use Rattle.replay_run.specs.Faults.{place_of};
ghost use Rattle.replay_run.specs.Schedule.{first_unnamed};
ghost use Rattle.framesweep_cli.specs.Inputs.{reading_of, HasReport, Suits};
ghost use Rattle.framesweep_cli.specs.declared.reading.Reading.TheVariants.{Scheduled};
ghost use Rattle.framesweep_cli.specs.Endings.{report_bytes, verdict_line, IsAlone, IsAnyRun, IsCheck, IsOutput};
ghost use Rattle.framesweep_cli.specs.Endings.{IsReplay, IsReport, IsSerial, IsSummary};
ghost use Rattle.framesweep_cli.specs.Stops.{IsNamed, IsUnnamed};

use crate::fault::InputFault;
use crate::input::Input;
use crate::stop::Stop;
use call_log::Finished;
use command_words::Command;
use deck_maker::{make, summary};
use deck_text::{Deck, print_deck};
use replay_run::{ReplayFault, replay_owned};
use report_check::{Verdict, check, reports_of_runs_by_their_bytes};
use report_text::data::Report;
use report_text::{report, report_json};
use script_tree::items::Text;
use script_tree::limits::VERSIONS;
use script_tree::memory::OutOfMemory;
use script_tree::print::print_number;
use separate_decks::laws::{workload_ends_alike, workload_is_separate};
use serial_machine::serial_owned;
use signal_graph::graph::Graph;
use std::alloc::Global;
use std::sync::Wait;
use std::thread::Threads;
use worker_gate::{Gate, run_scripts};

// The report of a run, as text or as JSON.
fn report_of(
    alloc: Global,
    graph: &Graph,
    finished: &Finished,
    json: bool,
) -> Result<Text, OutOfMemory>
    requires finals { length finished.now.finals ≡ length graph.now.nodes }
    requires replies { AreAnswered finished.now.log.entries }
    ensures { IfOk result (λ text.
        text ≡ report_bytes json finished.now.log.entries finished.now.refused graph.now.names finished.now.finals) }
{
    if json {
        return report_json(alloc, graph, finished);
    }
    report(alloc, graph, finished)
}

/// The report of a run of a deck's threads, each in a thread of its own; all have ended when this returns. Takes memory. Locks, and
/// may wait.
#[tactic(auto, using(crate::proofs::Threads::run_laws))]
pub fn run_report<G: Gate, R: Threads + Wait + Sync>(
    rt: &R,
    alloc: Global,
    deck: Deck,
    versions: u32,
    json: bool,
    gate: &G,
) -> Result<Text, OutOfMemory>
    requires { versions ≤ MOST }
    ensures { IfOk result (IsReport deck versions json IsAnyRun) }
{
    let (graph, scripts) = deck.into_parts();
    let finished = run_scripts(rt, alloc, &graph, &scripts, versions, gate)?;
    report_of(alloc, &graph, &finished, json)
}

/// The summary of a run of the workload's deck of a number, each thread's calls in a thread of its own; all have ended when this
/// returns. Takes memory. Locks, and may wait.
#[tactic(auto, using(crate::proofs::Threads::run_laws))]
pub fn workload_summary<G: Gate, R: Threads + Wait + Sync>(
    rt: &R,
    alloc: Global,
    number: u64,
    gate: &G,
) -> Result<Text, OutOfMemory>
    ensures { IfOk result (IsSummary number) }
{
    workload_is_separate();
    workload_ends_alike();
    let deck = make(alloc, number)?;
    let (graph, scripts) = deck.into_parts();
    let finished = run_scripts(rt, alloc, &graph, &scripts, VERSIONS, gate)?;
    summary(alloc, number, &graph, &finished)
}

// The report of the run of a deck, thread after thread.
#[tactic(auto, using(crate::proofs::Answered::report_laws))]
fn serial_report(alloc: Global, deck: Deck, versions: u32, json: bool) -> Result<Text, OutOfMemory>
    ensures { IfOk result (IsReport deck versions json (IsSerial deck versions)) }
{
    let (graph, scripts) = deck.into_parts();
    let finished = serial_owned(alloc, &graph, scripts, versions)?;
    report_of(alloc, &graph, &finished, json)
}

// Why a schedule is not replayed.
fn unplayed(fault: ReplayFault) -> Stop
    ensures { (input : Input) → place_of fault ≡ first_unnamed (length input.deck.scripts) input.schedule → IsUnnamed input result }
{
    match fault {
        ReplayFault::ScheduleNumber(place) => Stop::Input(InputFault::ScheduleNumber(place)),
        ReplayFault::Memory => Stop::Memory,
    }
}

// The report of the run that a schedule makes of a deck.
#[tactic(auto, using(crate::proofs::Threads::replay_laws))]
fn replay_report(alloc: Global, input: Input, versions: u32, json: bool) -> Result<Text, Stop>
    requires few_versions { versions ≤ MOST }
    requires suits { Suits Scheduled input }
    ensures ok { IfOk result (IsReport input.deck versions json (IsReplay input versions)) }
    ensures named { OnOk result (IsNamed input) }
    ensures err { IfErr result (IsUnnamed input) }
{
    let Input { deck, schedule, .. } = input;
    let (graph, scripts) = deck.into_parts();
    let finished = match replay_owned(alloc, &graph, scripts, &schedule, versions) {
        Ok(finished) => finished,
        Err(fault) => return Err(unplayed(fault)),
    };
    match report_of(alloc, &graph, &finished, json) {
        Ok(text) => Ok(text),
        Err(_) => Err(Stop::Memory),
    }
}

// The line of a verdict.
fn verdict_line(alloc: Global, verdict: Verdict) -> Result<Text, OutOfMemory>
    ensures { IfOk result (λ text. text ≡ verdict_line verdict) }
{
    match verdict {
        Verdict::Yes => Text::from_slice(alloc, b"yes\n"),
        Verdict::Wrong(line) => {
            let mut text = Text::from_slice(alloc, b"no: line ")?;
            print_number(&mut text, line)?;
            text.extend_from_slice(b"\n")?;
            Ok(text)
        }
    }
}

// The verdict on a report of a deck.
#[tactic(auto, using(crate::proofs::Checking::few_lines))]
fn check_report(
    alloc: Global,
    deck: &Deck,
    report: &Report,
    versions: u32,
) -> Result<Text, OutOfMemory>
    requires { HasReport (Some report.now) }
    ensures { IfOk result (IsCheck deck.now versions report.now) }
{
    reports_of_runs_by_their_bytes();
    let verdict = check(alloc, deck, report, versions)?;
    verdict_line(alloc, verdict)
}

// The verdict on the report of an input.
#[tactic(auto, using(crate::proofs::Checking::check_output))]
fn check_input(alloc: Global, input: &Input, versions: u32) -> Result<Text, OutOfMemory>
    requires { HasReport input.now.report }
    ensures { IfOk result (IsOutput (Command.Check versions) input.now) }
{
    match &input.report {
        Some(report) => check_report(alloc, &input.deck, report, versions),
        None => unreachable!(),
    }
}

/// What a command that waits for nobody writes for its input. The calls of the deck move into the log of its run. Takes
/// memory.
pub fn output(alloc: Global, command: &Command, input: Input) -> Result<Text, Stop>
    requires alone { IsAlone command.now }
    requires suits { IfSome (reading_of command.now) (λ reading. Suits reading input) }
    ensures ok { IfOk result (IsOutput command.now input) }
    ensures named { OnOk result (IsNamed input) }
    ensures err { IfErr result (IsUnnamed input) }
{
    match command {
        Command::Run { .. } | Command::Make { .. } => unreachable!(),
        Command::Replay { versions, json } => replay_report(alloc, input, *versions, *json),
        Command::Serial { versions, json } => {
            let Input { deck, .. } = input;
            Ok(serial_report(alloc, deck, *versions, *json)?)
        }
        Command::Print => Ok(print_deck(alloc, &input.deck)?),
        Command::Check { versions } => Ok(check_input(alloc, &input, *versions)?),
    }
}
