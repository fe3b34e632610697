// The lines on standard error.

ghost use Rattle.std.specs.Prelude.{◌≡◌, ◌++◌, IfOk, OnOk};
ghost use Rattle.framesweep_cli.specs.Lines.{what_text, at_line, fault_line, input_line};

use crate::fault::InputFault;
use deck_text::{DeckFault, What};
use script_tree::items::Text;
use script_tree::memory::OutOfMemory;
use script_tree::print::print_number;
use std::alloc::Global;

pub const WORDS_LINE: &[u8] = b"framesweep: words refused\n";

pub const READ_LINE: &[u8] = b"framesweep: read fault\n";

pub const WRITE_LINE: &[u8] = b"framesweep: write fault\n";

/// What standard error has with status 5.
pub const MEMORY_LINE: &[u8] = b"framesweep: want of memory\n";

fn what_text(what: What) -> &'static [u8]
    ensures { result.now ≡ what_text what }
{
    match what {
        What::Bytes => b"bytes",
        What::Nodes => b"nodes",
        What::Threads => b"threads",
        What::Levels => b"levels",
        What::Inputs => b"inputs",
        What::Candidates => b"candidates",
        What::Selectors => b"selectors",
        What::Sets => b"sets",
        What::Looks => b"looks",
    }
}

// A reason for a line of the deck.
fn at_line(alloc: Global, line: u32, reason: &[u8]) -> Result<Text, OutOfMemory>
    ensures { IfOk result (λ text. text ≡ at_line line reason.now) }
{
    let mut text = Text::from_slice(alloc, b"framesweep: line ")?;
    print_number(&mut text, line)?;
    text.extend_from_slice(reason)?;
    Ok(text)
}

fn too_many(alloc: Global, line: u32, what: What) -> Result<Text, OutOfMemory>
    ensures { IfOk result (λ text. text ≡ fault_line (DeckFault.TooMany line what)) }
{
    let mut text = at_line(alloc, line, b": too many ")?;
    text.extend_from_slice(what_text(what))?;
    text.extend_from_slice(b"\n")?;
    Ok(text)
}

// Why a deck is refused.
fn fault_line(alloc: Global, fault: DeckFault) -> Result<Text, OutOfMemory>
    ensures { IfOk result (λ text. text ≡ fault_line fault) }
{
    match fault {
        DeckFault::Syntax(line) => at_line(alloc, line, b": syntax\n"),
        DeckFault::DoubleName(line) => at_line(alloc, line, b": double name\n"),
        DeckFault::UnknownInput(line) => at_line(alloc, line, b": unknown input\n"),
        DeckFault::TooMany(line, what) => too_many(alloc, line, what),
        DeckFault::LineTooLong(line) => at_line(alloc, line, b": line too long\n"),
        DeckFault::NoThread => Text::from_slice(alloc, b"framesweep: no thread\n"),
        DeckFault::Memory => Text::from_slice(alloc, MEMORY_LINE),
    }
}

// The place of a number in a schedule.
fn schedule_number(alloc: Global, place: u32) -> Result<Text, OutOfMemory>
    ensures { IfOk result (λ text. text ≡ input_line (InputFault.ScheduleNumber place)) }
{
    let mut text = Text::from_slice(alloc, b"framesweep: schedule number ")?;
    print_number(&mut text, place)?;
    text.extend_from_slice(b"\n")?;
    Ok(text)
}

// The line of a report at which it stops to be one.
fn report_line(alloc: Global, line: u32) -> Result<Text, OutOfMemory>
    ensures { IfOk result (λ text. text ≡ input_line (InputFault.ReportLine line)) }
{
    let mut text = Text::from_slice(alloc, b"framesweep: report line ")?;
    print_number(&mut text, line)?;
    text.extend_from_slice(b": syntax\n")?;
    Ok(text)
}

/// The line that names why input is refused. Takes memory.
pub fn input_line(alloc: Global, fault: InputFault) -> Result<Text, OutOfMemory>
    ensures { IfOk result (λ text. text ≡ input_line fault) }
{
    match fault {
        InputFault::TooLong => Text::from_slice(alloc, b"framesweep: input too long\n"),
        InputFault::Deck(fault) => fault_line(alloc, fault),
        InputFault::ScheduleNumber(place) => schedule_number(alloc, place),
        InputFault::ReportLine(line) => report_line(alloc, line),
    }
}
