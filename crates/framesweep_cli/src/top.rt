// The top call. The order of work: the words, reading to the end of input, judging the input, the run, the whole output,
// writing it.

ghost use Rattle.std.specs.Prelude.{◌≡◌, ◌≤◌, IfOk, IfErr};
ghost use Rattle.script_tree.specs.declared.limits.TheConstants.{VERSIONS};
ghost use Rattle.command_words.specs.Words.{HasFewVersions};
ghost use Rattle.fs_io.specs.States.{SourceState};
ghost use Rattle.framesweep_cli.specs.Endings.{IsAlone};
ghost use Rattle.framesweep_cli.specs.Lines.{line_of};
ghost use Rattle.framesweep_cli.specs.Statuses.{Says, Tells, Ends, Obeys};
ghost use Rattle.framesweep_cli.specs.Stops.{IsMade, IsWritten, EndsAs, Finishes};

use crate::ending::Ending;
use crate::input::{Input, input_of};
use crate::lines::{MEMORY_LINE, READ_LINE, WORDS_LINE, WRITE_LINE, input_line};
use crate::output::{output, run_report, workload_summary};
use crate::reading::Reading;
use crate::stop::Stop;
use command_words::laws::versions_are_few;
use command_words::{Command, WordsFault, read_words};
use fs_io::sink::Sink;
use fs_io::source::Source;
use fs_io::whole::write_all;
use script_tree::items::Text;
use std::alloc::Global;
use std::sync::Wait;
use std::thread::Threads;
use worker_gate::Gate;

// What a command that waits for nobody makes of what it reads.
#[tactic(auto, using(crate::proofs::Making::made_laws))]
fn make_alone<S: Source>(alloc: Global, command: &Command, source: &mut S) -> Result<Text, Stop>
    requires { IsAlone command.now }
    ensures { IsMade command.now (S.state source.old) (S.state source.new) result }
{
    let Some(reading) = Reading::of(command) else {
        unreachable!()
    };
    let input = match input_of(alloc, reading, source) {
        Ok(input) => input,
        Err(stop) => return Err(stop),
    };
    output(alloc, command, input)
}

// What `run` makes of what it reads.
#[tactic(auto, using(crate::proofs::Making::made_laws))]
fn make_run<S: Source, G: Gate, R: Threads + Wait + Sync>(
    rt: &R,
    alloc: Global,
    versions: u32,
    json: bool,
    source: &mut S,
    gate: &G,
) -> Result<Text, Stop>
    requires { versions ≤ VERSIONS }
    ensures { IsMade (Command.Run versions json) (S.state source.old) (S.state source.new) result }
{
    let Input { deck, .. } = match input_of(alloc, Reading::Deck, source) {
        Ok(input) => input,
        Err(stop) => return Err(stop),
    };
    Ok(run_report(rt, alloc, deck, versions, json, gate)?)
}

// What `make` makes. It reads nothing.
fn make_workload<G: Gate, R: Threads + Wait + Sync>(
    rt: &R,
    alloc: Global,
    number: u64,
    gate: &G,
) -> Result<Text, Stop>
    ensures { (source : SourceState) → IsMade (Command.Make number) source source result }
{
    Ok(workload_summary(rt, alloc, number, gate)?)
}

// Gives standard error a line.
fn say<E: Sink>(err: &mut E, line: &[u8])
    ensures { Says (E.state err.old) (E.state err.new) line.now }
{
    let _ = write_all(err, line);
}

// Ends where there is no output.
fn stopped<E: Sink>(alloc: Global, stop: Stop, err: &mut E) -> Ending
    ensures ending { EndsAs stop result }
    ensures told { Tells (E.state err.old) (E.state err.new) (line_of result) }
{
    match stop {
        Stop::Read => {
            say(err, READ_LINE);
            Ending::ReadFailed
        }
        Stop::Memory => {
            say(err, MEMORY_LINE);
            Ending::OutOfMemory
        }
        Stop::Input(fault) => match input_line(alloc, fault) {
            Ok(line) => {
                say(err, line.as_slice());
                Ending::Refused(fault)
            }
            Err(_) => {
                say(err, MEMORY_LINE);
                Ending::OutOfMemory
            }
        },
    }
}

// Ends where there is an output.
fn write<O: Sink, E: Sink>(text: &[u8], out: &mut O, err: &mut E) -> Ending
    ensures written { IsWritten text.now (O.state out.old) (O.state out.new) result }
    ensures told { Tells (E.state err.old) (E.state err.new) (line_of result) }
{
    if write_all(out, text) {
        return Ending::Done;
    }
    say(err, WRITE_LINE);
    Ending::WriteFailed
}

// Ends with what was made.
fn finish<O: Sink, E: Sink>(
    alloc: Global,
    made: Result<Text, Stop>,
    out: &mut O,
    err: &mut E,
) -> Ending
    ensures finished { Finishes made (O.state out.old) (O.state out.new) result }
    ensures told { Tells (E.state err.old) (E.state err.new) (line_of result) }
{
    match made {
        Ok(text) => write(text.as_slice(), out, err),
        Err(stop) => stopped(alloc, stop, err),
    }
}

/// Does what a command asks for, one of `replay`, `serial`, `print` and `check`: reads its input to the end, judges it, makes the
/// run and the whole output, and writes it. Answers the status. Condition: the command is one of these, and its limit of
/// versions is at most 4,000,000. It waits for nobody and always returns. Takes memory.
///
/// 0: the output was written whole and flushed. 2: the input is refused, and standard error has the line of its fault.
/// 3: a read failed. 4: a write or the flush failed, and a part of the output may be there. 5: there was no memory.
/// With 2, 3 and 5 nothing was done with `out`, no flush either, and with 0 nothing with `err`. With each other status
/// `err` was given the status's one line and was flushed, or a part of the line where that failed, which changes no status.
#[tactic(auto, using(crate::proofs::Stopping::made_ends))]
pub fn framesweep_alone<S: Source, O: Sink, E: Sink>(
    alloc: Global,
    command: &Command,
    source: &mut S,
    out: &mut O,
    err: &mut E,
) -> u8
    requires { IsAlone command.now }
    ensures { Ends command.now
        (record { source = S.state source.old; out = O.state out.old; err = E.state err.old })
        (record { source = S.state source.new; out = O.state out.new; err = E.state err.new })
        result }
{
    let made = make_alone(alloc, command, source);
    finish(alloc, made, out, err).status()
}

// Does what `run` asks for.
#[tactic(auto, using(crate::proofs::Stopping::made_ends))]
fn serve_run<S: Source, O: Sink, E: Sink, G: Gate, R: Threads + Wait + Sync>(
    rt: &R,
    alloc: Global,
    versions: u32,
    json: bool,
    source: &mut S,
    out: &mut O,
    err: &mut E,
    gate: &G,
) -> u8
    requires { versions ≤ VERSIONS }
    ensures { Ends (Command.Run versions json)
        (record { source = S.state source.old; out = O.state out.old; err = E.state err.old })
        (record { source = S.state source.new; out = O.state out.new; err = E.state err.new })
        result }
{
    let made = make_run(rt, alloc, versions, json, source, gate);
    finish(alloc, made, out, err).status()
}

// Does what `make` asks for.
#[tactic(auto, using(crate::proofs::Stopping::made_ends))]
fn serve_make<O: Sink, E: Sink, G: Gate, R: Threads + Wait + Sync>(
    rt: &R,
    alloc: Global,
    number: u64,
    out: &mut O,
    err: &mut E,
    gate: &G,
) -> u8
    ensures { (source : SourceState) → Ends (Command.Make number)
        (record { source = source; out = O.state out.old; err = E.state err.old })
        (record { source = source; out = O.state out.new; err = E.state err.new })
        result }
{
    let made = make_workload(rt, alloc, number, gate);
    finish(alloc, made, out, err).status()
}

// Does what a command asks for.
fn serve<S: Source, O: Sink, E: Sink, G: Gate, R: Threads + Wait + Sync>(
    rt: &R,
    alloc: Global,
    command: &Command,
    source: &mut S,
    out: &mut O,
    err: &mut E,
    gate: &G,
) -> u8
    requires { HasFewVersions command.now }
    ensures { Ends command.now
        (record { source = S.state source.old; out = O.state out.old; err = E.state err.old })
        (record { source = S.state source.new; out = O.state out.new; err = E.state err.new })
        result }
{
    match command {
        Command::Run { versions, json } => serve_run(
            rt, alloc, *versions, *json, source, out, err, gate,
        ),
        Command::Make { number } => serve_make(rt, alloc, *number, out, err, gate),
        Command::Replay { .. } | Command::Serial { .. } | Command::Print | Command::Check { .. } =>
            framesweep_alone(alloc, command, source, out, err),
    }
}

/// Does what the words behind the program's name ask for, and answers the status. Takes memory, and for `run` and `make`
/// locks and may wait.
///
/// `run` makes the calls of each of the deck's threads in a thread of its own, all at once, and writes the report of one order of
/// all accepted calls, each once and each thread's as it made them, in which every reply and final value is the one-thread
/// machine's. Which of these orders it is rests on how the threads ran. It waits for all its threads; a thread that can't be
/// started has its calls made by its caller. Before each evaluation a thread passes the gate.
///
/// `make` runs the workload's deck of a number in the same way and writes the summary of the run, which all orders of its calls
/// share, so also that of one thread after the other. Nothing is done with `source`, whatever the status is.
///
/// 1: the words are no command line; standard error says so, and nothing was done with `source` and `out`. So it is with 5
/// where there was no memory to read the words. The other statuses are those of `framesweep_alone`: where memory is refused in
/// the middle of a run the status is 5, standard error has its line, and `out` nothing of that run.
pub fn framesweep<S: Source, O: Sink, E: Sink, G: Gate, R: Threads + Wait + Sync>(
    rt: &R,
    alloc: Global,
    words: &[Text],
    source: &mut S,
    out: &mut O,
    err: &mut E,
    gate: &G,
) -> u8
    ensures { Obeys words.now
        (record { source = S.state source.old; out = O.state out.old; err = E.state err.old })
        (record { source = S.state source.new; out = O.state out.new; err = E.state err.new })
        result }
{
    match read_words(alloc, words) {
        Ok(command) => {
            versions_are_few();
            serve(rt, alloc, &command, source, out, err, gate)
        }
        Err(WordsFault::Refused) => {
            say(err, WORDS_LINE);
            1
        }
        Err(WordsFault::Memory) => {
            say(err, MEMORY_LINE);
            5
        }
    }
}
