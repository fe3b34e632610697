// The lines of a report. What is printed is what the data of a report can hold, and each function says so: a name is a
// name, and a number has its room.

ghost use Rattle.std.specs.Prelude.{◌≡◌, ◌<◌, ◌^◌, ◌++◌, length, OnOk, decimal};
ghost use Rattle.std.specs.List.{zip};
ghost use Rattle.signal_graph.specs.Machine.{looks_of_reply};
ghost use Rattle.report_text.specs.Printed.{IsLook, AreLooks, IsReply, IsLine, IsWhy, IsRefusal};
ghost use Rattle.report_text.specs.Report.{named_value, more_looks, looks_text, fire_looks, fire_text, reply_text};
ghost use Rattle.report_text.specs.Report.{line_of, call_line, why_text, refused_line, final_line, done_line, Answers};

use itoa::Buffer;
use script_tree::items::Text;
use script_tree::memory::OutOfMemory;
use script_tree::name::Name;
use script_tree::print::{print_number, print_value};
use script_tree::value::Value;
use signal_graph::call::Reply;
use signal_graph::log::{Logged, Refused, Why};

// A name with a value.
fn print_named(out: &mut Text, name: &Name, value: Value) -> Result<(), OutOfMemory>
    ensures text { OnOk result (out.new ≡ out.old ++ named_value (name.now, value)) }
    ensures look { IsLook (name.now, value) }
{
    // With the length comes that the bytes are a name's.
    let _ = name.len();
    out.extend_from_slice(name.as_slice())?;
    out.extend_from_slice(b"=")?;
    print_value(out, value)
}

// A label with a number behind it.
fn print_count(out: &mut Text, label: &[u8], number: u32) -> Result<(), OutOfMemory>
    ensures text { OnOk result (out.new ≡ out.old ++ (label.now ++ decimal number)) }
    ensures fits { number < 2 ^ 32 }
{
    out.extend_from_slice(label)?;
    print_number(out, number)
}

// Looks, each behind a comma and a space.
fn print_more_looks(out: &mut Text, names: &[Name], values: &[Value]) -> Result<(), OutOfMemory>
    requires { length values.now ≡ length names.now }
    ensures text { OnOk result (out.new ≡ out.old ++ more_looks (zip names.now values.now)) }
    ensures looks { OnOk result (AreLooks (zip names.now values.now)) }
{
    for (index, name) in names.iter().enumerate() {
        out.extend_from_slice(b", ")?;
        print_named(out, name, values[index])?;
    }
    Ok(())
}

// Looks, joined by a comma and a space.
fn print_looks(out: &mut Text, names: &[Name], values: &[Value]) -> Result<(), OutOfMemory>
    requires { length values.now ≡ length names.now }
    ensures text { OnOk result (out.new ≡ out.old ++ looks_text (zip names.now values.now)) }
    ensures looks { OnOk result (AreLooks (zip names.now values.now)) }
{
    match names {
        [] => Ok(()),
        [first, rest @ ..] => {
            print_named(out, first, values[0])?;
            print_more_looks(out, rest, &values[1..])
        }
    }
}

// What a fire looked at, if it looked at anything.
fn print_fire_looks(out: &mut Text, names: &[Name], values: &[Value]) -> Result<(), OutOfMemory>
    requires { length values.now ≡ length names.now }
    ensures text { OnOk result (out.new ≡ out.old ++ fire_looks (zip names.now values.now)) }
    ensures looks { OnOk result (AreLooks (zip names.now values.now)) }
{
    match names {
        [] => Ok(()),
        [first, rest @ ..] => {
            out.extend_from_slice(b" look ")?;
            print_named(out, first, values[0])?;
            print_more_looks(out, rest, &values[1..])
        }
    }
}

// What a fire did and saw.
fn print_fire(
    out: &mut Text,
    changed: u32,
    evaluated: u32,
    names: &[Name],
    values: &[Value],
) -> Result<(), OutOfMemory>
    requires { length values.now ≡ length names.now }
    ensures text { OnOk result (out.new ≡ out.old ++ fire_text changed evaluated (zip names.now values.now)) }
    ensures reply { OnOk result (IsReply names.now (Reply.Fire changed evaluated values.now)) }
{
    print_count(out, b" fire changed ", changed)?;
    print_count(out, b" evaluated ", evaluated)?;
    print_fire_looks(out, names, values)?;
    Ok(())
}

// What a call did and saw.
fn print_reply(out: &mut Text, names: &[Name], reply: &Reply) -> Result<(), OutOfMemory>
    requires { length (looks_of_reply reply.now) ≡ length names.now }
    ensures text { OnOk result (out.new ≡ out.old ++ reply_text names.now reply.now) }
    ensures reply { OnOk result (IsReply names.now reply.now) }
{
    match reply {
        Reply::Fire {
            changed,
            evaluated,
            looks,
        } => print_fire(out, *changed, *evaluated, names, looks.as_slice()),
        Reply::Read { looks } => {
            out.extend_from_slice(b" read ")?;
            print_looks(out, names, looks.as_slice())
        }
    }
}

/// Adds the line of a call that was made.
pub fn print_call(out: &mut Text, entry: &Logged) -> Result<(), OutOfMemory>
    requires { Answers entry.now.call entry.now.reply }
    ensures text { OnOk result (out.new ≡ out.old ++ call_line (line_of entry.now)) }
    ensures line { OnOk result (IsLine (line_of entry.now)) }
{
    print_count(out, b"call ", entry.version)?;
    print_count(out, b" thread ", entry.caller)?;
    print_reply(out, entry.call.looks(), &entry.reply)?;
    out.extend_from_slice(b"\n")
}

// Why a call was not made.
fn print_why(out: &mut Text, why: Why) -> Result<(), OutOfMemory>
    ensures text { OnOk result (out.new ≡ out.old ++ why_text why) }
    ensures why { IsWhy why }
{
    match why {
        Why::UnknownName(place) => print_count(out, b" unknown name ", place),
        Why::VersionsUsedUp(limit) => print_count(out, b" versions used up ", limit),
    }
}

/// Adds the line of a call that was not made.
pub fn print_refused(out: &mut Text, refused: Refused) -> Result<(), OutOfMemory>
    ensures text { OnOk result (out.new ≡ out.old ++ refused_line refused) }
    ensures refusal { IsRefusal refused }
{
    print_count(out, b"refused thread ", refused.caller)?;
    print_count(out, b" call ", refused.number)?;
    print_why(out, refused.why)?;
    out.extend_from_slice(b"\n")?;
    Ok(())
}

/// Adds the line of a node's last value.
pub fn print_final(out: &mut Text, name: &Name, value: Value) -> Result<(), OutOfMemory>
    ensures text { OnOk result (out.new ≡ out.old ++ final_line (name.now, value)) }
    ensures look { OnOk result (IsLook (name.now, value)) }
{
    out.extend_from_slice(b"final ")?;
    print_named(out, name, value)?;
    out.extend_from_slice(b"\n")
}

// A label with a length behind it.
fn print_length(out: &mut Text, label: &[u8], length: usize) -> Result<(), OutOfMemory>
    ensures { OnOk result (out.new ≡ out.old ++ (label.now ++ decimal length)) }
{
    let mut buffer = Buffer::new();
    out.extend_from_slice(label)?;
    out.extend_from_slice(buffer.format(length).as_bytes())
}

/// Adds the last line.
pub fn print_done(out: &mut Text, accepted: usize, refused: usize) -> Result<(), OutOfMemory>
    ensures { OnOk result (out.new ≡ out.old ++ done_line accepted refused) }
{
    print_length(out, b"done ", accepted)?;
    print_length(out, b" accepted ", refused)?;
    out.extend_from_slice(b" refused\n")
}
