// The summary of a run of the workload's deck.

ghost use Rattle.std.specs.Prelude.{◌≡◌, ◌+ℤ◌, ◌∷◌, ◌++◌, length, decimal, count_by, IfOk, OnOk};
ghost use Rattle.std.specs.Fmt.{signed_decimal};
ghost use Rattle.deck_maker.specs.Summary.{is_fault, added, sum_of_numbers, line, summary_of};
ghost use Rattle.separate_decks.specs.Workload.{workload_graph};

use call_log::Finished;
use itoa::Buffer;
use script_tree::items::Text;
use script_tree::memory::OutOfMemory;
use script_tree::value::Value;
use signal_graph::graph::Graph;
use std::alloc::Global;

// A line with an amount.
fn print_line(out: &mut Text, label: &[u8], amount: &[u8]) -> Result<(), OutOfMemory>
    ensures { OnOk result (out.new ≡ out.old ++ line label.now amount.now) }
{
    out.extend_from_slice(label)?;
    out.extend_from_slice(amount)?;
    out.extend_from_slice(b"\n")
}

fn print_count(out: &mut Text, label: &[u8], count: u64) -> Result<(), OutOfMemory>
    ensures { OnOk result (out.new ≡ out.old ++ line label.now (decimal count)) }
{
    let mut buffer = Buffer::new();
    print_line(out, label, buffer.format(count).as_bytes())
}

fn print_sum(out: &mut Text, label: &[u8], sum: i128) -> Result<(), OutOfMemory>
    ensures { OnOk result (out.new ≡ out.old ++ line label.now (signed_decimal sum)) }
{
    let mut buffer = Buffer::new();
    print_line(out, label, buffer.format(sum).as_bytes())
}

fn is_fault(value: Value) -> bool
    ensures { result ≡ is_fault value }
{
    match value {
        Value::Int(_) | Value::Bool(_) => false,
        Value::Fault(_) => true,
    }
}

// How many values are faults.
fn count_faults(finals: &[Value]) -> usize
    ensures { result ≡ count_by is_fault finals.now }
{
    finals.iter().filter(|value| is_fault(**value)).count()
}

// What a value adds to the sum.
fn added(value: Value) -> i64
    ensures { result ≡ added value }
{
    match value {
        Value::Int(number) => number,
        Value::Bool(_) | Value::Fault(_) => 0,
    }
}

// The sum of all numbers. Fewer than 2^64 numbers of 64 bits never leave 128 bits.
fn sum_of_numbers(finals: &[Value]) -> i128
    ensures { result ≡ sum_of_numbers finals.now }
{
    let mut sum: i128 = 0;
    for value in finals {
        sum += added(*value) as i128;
    }
    sum
}

/// The summary of a run of the workload's deck of a number, six lines, each with a line feed: `number` with the number,
/// `threads 8`, `nodes` with how many nodes the graph has, which are 216 at the workload's, `calls` with how many calls
/// were made, `faults` with how many final values are faults, and `sum` with the sum of the final values that are
/// numbers, to which truths and faults add nothing. The sum is exact whatever the values are. Takes memory.
pub fn summary(
    alloc: Global,
    number: u64,
    graph: &Graph,
    finished: &Finished,
) -> Result<Text, OutOfMemory>
    ensures text { IfOk result (λ text. text
        ≡ summary_of number (length graph.now.nodes) (length finished.now.log.entries) finished.now.finals) }
    ensures workload { graph.now ≡ workload_graph number
        → IfOk result (λ text. text ≡ summary_of number 216 (length finished.now.log.entries) finished.now.finals) }
{
    let finals = finished.finals.as_slice();
    let mut out = Text::new(alloc);
    print_count(&mut out, b"number ", number)?;
    print_count(&mut out, b"threads ", 8)?;
    print_count(&mut out, b"nodes ", graph.len() as u64)?;
    print_count(&mut out, b"calls ", finished.log.len() as u64)?;
    print_count(&mut out, b"faults ", count_faults(finals) as u64)?;
    print_sum(&mut out, b"sum ", sum_of_numbers(finals))?;
    separate_decks::laws::workload_has_sizes();
    Ok(out)
}
