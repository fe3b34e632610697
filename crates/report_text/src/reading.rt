// Reading a report.

ghost use Rattle.std.specs.Prelude.{◌≡◌, ◌++◌, ◌+◌, ◌-◌, ◌<◌, ◌≤◌, ◌^◌, [], length, IfOk};
ghost use Rattle.std.specs.List.{flat_map};
ghost use Rattle.report_text.specs.Printed.{AreLines, AreRefusals, AreLooks, NoCall, NoRefusal, NoFinal};
ghost use Rattle.report_text.specs.Reading.{IsReadAs};
ghost use Rattle.report_text.specs.Report.{call_line, refused_line, final_line};

use crate::data::{CallLine, Report};
use crate::entries::{Stop, call, done, last, refusal};
use script_tree::items::Items;
use script_tree::memory::OutOfMemory;
use script_tree::name::Name;
use script_tree::value::Value;
use signal_graph::log::Refused;
use std::alloc::Global;
use thiserror::Error;

/// Why bytes are no report.
#[derive(Clone, Copy, PartialEq, Eq, Debug, Error)]
pub enum ReportFault {
    /// The first line that stands in no report behind the lines before it, or the one behind the last line where the
    /// report is cut. Lines count from 1.
    #[error("line {0}: syntax")]
    Syntax(u32),
    /// There was no memory.
    #[error("want of memory")]
    Memory,
}

impl From<OutOfMemory> for ReportFault {
    ghost use Rattle.std.specs.Prelude.{◌≡◌};
    ghost use Rattle.report_text.specs.declared.reading.ReportFault.TheVariants.{Memory};

    ghost from_gives = { λ _ e. e ≡ Memory };

    fn from(_: OutOfMemory) -> ReportFault {
        ReportFault::Memory
    }
}

// The lines of calls that a text begins with, as many as there are. Gives what stands behind them.
fn read_calls<'a>(
    text: &'a [u8],
    alloc: Global,
    lines: &mut Vec<CallLine>,
) -> Result<&'a [u8], OutOfMemory>
    requires { lines.old.items ≡ [] }
    ensures text { IfOk result (λ rest. text.now ≡ flat_map call_line lines.new.items ++ rest.now) }
    ensures lines { IfOk result (λ rest. AreLines lines.new.items) }
    ensures all { IfOk result (λ rest. NoCall rest.now) }
    ensures few { IfOk result (λ rest. length lines.new.items + length rest.now ≤ length text.now) }
{
    let mut rest = text;
    while !rest.is_empty() {
        match call(alloc, rest) {
            Ok((line, after)) => {
                lines.push(line)?;
                rest = after;
            }
            Err(Stop::Syntax) => return Ok(rest),
            Err(Stop::Memory) => return Err(OutOfMemory),
        }
    }
    Ok(rest)
}

// The same of calls that were not made.
fn read_refused<'a>(text: &'a [u8], lines: &mut Vec<Refused>) -> Result<&'a [u8], OutOfMemory>
    requires { lines.old.items ≡ [] }
    ensures text { IfOk result (λ rest. text.now ≡ flat_map refused_line lines.new.items ++ rest.now) }
    ensures lines { IfOk result (λ rest. AreRefusals lines.new.items) }
    ensures all { IfOk result (λ rest. NoRefusal rest.now) }
    ensures few { IfOk result (λ rest. length lines.new.items + length rest.now ≤ length text.now) }
{
    let mut rest = text;
    while !rest.is_empty() {
        match refusal(rest) {
            Some((line, after)) => {
                lines.push(line)?;
                rest = after;
            }
            None => return Ok(rest),
        }
    }
    Ok(rest)
}

// The same of last values.
fn read_finals<'a>(text: &'a [u8], lines: &mut Vec<(Name, Value)>) -> Result<&'a [u8], OutOfMemory>
    requires { lines.old.items ≡ [] }
    ensures text { IfOk result (λ rest. text.now ≡ flat_map final_line lines.new.items ++ rest.now) }
    ensures lines { IfOk result (λ rest. AreLooks lines.new.items) }
    ensures all { IfOk result (λ rest. NoFinal rest.now) }
    ensures few { IfOk result (λ rest. length lines.new.items + length rest.now ≤ length text.now) }
{
    let mut rest = text;
    while !rest.is_empty() {
        match last(rest) {
            Some((name, value, after)) => {
                lines.push((name, value))?;
                rest = after;
            }
            None => return Ok(rest),
        }
    }
    Ok(rest)
}

/// The report that bytes are: its lines as data, and the counts of its last line. Takes memory.
///
/// Where they are none, `Syntax` names the first line that stands in no report behind the lines before it, or the one
/// behind the last line where the report is cut. `Memory` says nothing of the bytes.
pub fn read_report(alloc: Global, bytes: &[u8]) -> Result<Report, ReportFault>
    requires { length bytes.now < 2 ^ 32 - 1 }
    ensures { IsReadAs bytes.now result }
{
    let mut calls = Vec::new(alloc);
    let mut refused = Vec::new(alloc);
    let mut finals = Vec::new(alloc);
    let rest = read_calls(bytes, alloc, &mut calls)?;
    let rest = read_refused(rest, &mut refused)?;
    let rest = read_finals(rest, &mut finals)?;
    let before = (calls.len() + refused.len() + finals.len()) as u32;
    let Some((accepted, refusals, rest)) = done(rest) else {
        return Err(ReportFault::Syntax(before + 1));
    };
    if !rest.is_empty() {
        return Err(ReportFault::Syntax(before + 2));
    }
    Ok(Report {
        calls: Items::from_vec(calls),
        refused: Items::from_vec(refused),
        finals: Items::from_vec(finals),
        accepted,
        refusals,
    })
}
