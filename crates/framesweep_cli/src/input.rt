// From a source to what its bytes say.

ghost use Rattle.std.specs.Prelude.{◌≡◌, ◌+◌, ◌≤◌, length, Some, IfOk, IfErr, Ok};
ghost use Rattle.fs_io.specs.Bytes.{Ends};
ghost use Rattle.deck_text.specs.declared.fault.DeckFault.TheVariants.{Memory as NoMemory};
ghost use Rattle.deck_text.specs.Reasons.{ReadsDeck};
ghost use Rattle.framesweep_cli.specs.declared.reading.Reading.TheVariants as reading;
ghost use Rattle.framesweep_cli.specs.Inputs.{most_bytes, IsInput};
ghost use Rattle.framesweep_cli.specs.Stops.{Holds, HoldsInput, IsRefused, IsUnread, IsStopped, IsBadDeck, IsBadReport};
ghost use Rattle.framesweep_cli.specs.declared.limits.TheConstants.{REPORTED_BYTES};
ghost use Rattle.report_text.specs.Printed.{printed, IsReport};

use crate::fault::InputFault;
use crate::limits::{REPORTED_BYTES, SCHEDULED_BYTES};
use crate::reading::Reading;
use crate::stop::Stop;
use deck_text::{Deck, DeckFault, read_deck};
use fs_io::fault::ReadFault;
use fs_io::source::Source;
use fs_io::whole::read_all;
use replay_run::{ScheduleList, read_schedule, split_input};
use report_text::data::Report;
use report_text::{ReportFault, read_report};
use script_tree::items::Text;
use std::alloc::Global;

/// What an input says: a deck, and what is read behind it, the numbers of a schedule or a report. Where no schedule is read
/// there are no numbers.
#[derive(Drop)]
pub struct Input {
    pub deck: Deck,
    pub schedule: ScheduleList,
    pub report: Option<Report>,
}

// All bytes of a source to the end of input, or one more than there may be.
#[tactic(auto, using(crate::proofs::FirstBytes::given_first))]
fn read_input<S: Source>(alloc: Global, reading: Reading, source: &mut S) -> Result<Text, Stop>
    ensures ok { IfOk result (IsInput reading (S.state source.old).left) }
    ensures end { IfOk result (λ bytes. length bytes ≤ most_bytes reading
        → Ends (S.state source.old).left (S.state source.new).left) }
    ensures err { IfErr result (IsUnread (S.state source.old).faults (S.state source.new).faults) }
{
    match read_all(alloc, source, reading.most_bytes()) {
        Ok(bytes) => Ok(bytes),
        Err(ReadFault::Source) => Err(Stop::Read),
        Err(ReadFault::Memory) => Err(Stop::Memory),
    }
}

// The deck that bytes are read as.
fn judge_deck(alloc: Global, bytes: &[u8]) -> Result<Deck, Stop>
    ensures ok { IfOk result (λ deck. ReadsDeck bytes.now (Ok deck)) }
    ensures err { IfErr result (IsBadDeck bytes.now) }
{
    match read_deck(alloc, bytes) {
        Ok(deck) => Ok(deck),
        Err(DeckFault::Memory) => Err(Stop::Memory),
        Err(fault) => Err(Stop::Input(InputFault::Deck(fault))),
    }
}

// A deck alone.
#[tactic(auto, using(crate::proofs::Judging::alone_refused))]
fn judge_alone(alloc: Global, bytes: &[u8]) -> Result<Input, Stop>
    ensures ok { IfOk result (Holds reading.Deck bytes.now) }
    ensures err { IfErr result (IsRefused reading.Deck bytes.now) }
{
    match judge_deck(alloc, bytes) {
        Ok(deck) => Ok(Input {
            deck,
            schedule: ScheduleList::new(alloc),
            report: None,
        }),
        Err(stop) => Err(stop),
    }
}

// A deck, and a schedule behind it.
#[tactic(auto, using(crate::proofs::Judging::scheduled_laws))]
fn judge_scheduled(alloc: Global, bytes: &[u8]) -> Result<Input, Stop>
    ensures ok { IfOk result (Holds reading.Scheduled bytes.now) }
    ensures err { IfErr result (IsRefused reading.Scheduled bytes.now) }
{
    if bytes.len() as u64 > SCHEDULED_BYTES {
        return Err(Stop::Input(InputFault::TooLong));
    }
    let (deck_bytes, schedule_bytes) = split_input(bytes);
    let deck = match judge_deck(alloc, deck_bytes) {
        Ok(deck) => deck,
        Err(stop) => return Err(stop),
    };
    match read_schedule(alloc, schedule_bytes) {
        Ok(schedule) => Ok(Input {
            deck,
            schedule,
            report: None,
        }),
        Err(_) => Err(Stop::Memory),
    }
}

// The report that the bytes behind a deck are read as.
fn judge_report(alloc: Global, bytes: &[u8]) -> Result<Report, Stop>
    requires { length bytes.now ≤ REPORTED_BYTES }
    ensures ok { IfOk result (λ report. (bytes.now ≡ printed report) × IsReport report) }
    ensures err { IfErr result (IsBadReport bytes.now) }
{
    match read_report(alloc, bytes) {
        Ok(report) => Ok(report),
        Err(ReportFault::Memory) => Err(Stop::Memory),
        Err(ReportFault::Syntax(line)) => Err(Stop::Input(InputFault::ReportLine(line))),
    }
}

// A deck, and a report behind it.
#[tactic(auto, using(crate::proofs::Judging::reported_laws))]
fn judge_reported(alloc: Global, bytes: &[u8]) -> Result<Input, Stop>
    ensures ok { IfOk result (Holds reading.Reported bytes.now) }
    ensures err { IfErr result (IsRefused reading.Reported bytes.now) }
{
    if bytes.len() as u64 > REPORTED_BYTES {
        return Err(Stop::Input(InputFault::TooLong));
    }
    let (deck_bytes, report_bytes) = split_input(bytes);
    let deck = match judge_deck(alloc, deck_bytes) {
        Ok(deck) => deck,
        Err(stop) => return Err(stop),
    };
    match judge_report(alloc, report_bytes) {
        Ok(report) => Ok(Input {
            deck,
            schedule: ScheduleList::new(alloc),
            report: Some(report),
        }),
        Err(stop) => Err(stop),
    }
}

// What bytes say.
fn judge(alloc: Global, reading: Reading, bytes: &[u8]) -> Result<Input, Stop>
    ensures ok { IfOk result (Holds reading bytes.now) }
    ensures err { IfErr result (IsRefused reading bytes.now) }
{
    match reading {
        Reading::Deck => judge_alone(alloc, bytes),
        Reading::Scheduled => judge_scheduled(alloc, bytes),
        Reading::Reported => judge_reported(alloc, bytes),
    }
}

/// What a source's bytes say, with a schedule that may name threads that the deck has not. Takes memory. The bytes that
/// were read are gone when this returns, so what is done with the input doesn't hold them.
#[tactic(auto, using(crate::proofs::Judging::input_laws))]
pub fn input_of<S: Source>(alloc: Global, reading: Reading, source: &mut S) -> Result<Input, Stop>
    ensures ok { IfOk result (HoldsInput reading (S.state source.old).left) }
    ensures emptied { IfOk result (λ input. Ends (S.state source.old).left (S.state source.new).left) }
    ensures err { IfErr result (IsStopped (Some reading) (S.state source.old) (S.state source.new)) }
{
    let bytes = match read_input(alloc, reading, source) {
        Ok(bytes) => bytes,
        Err(stop) => return Err(stop),
    };
    judge(alloc, reading, bytes.as_slice())
}
