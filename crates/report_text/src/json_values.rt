// The JSON values that a report's lists hold: a call, a look or a last value, and a refusal.

ghost use Rattle.std.specs.Prelude.{◌≡◌, length, IfOk};
ghost use Rattle.std.specs.List.{zip};
ghost use Rattle.serde_json.specs.View.{view};
ghost use Rattle.script_tree.specs.Printed.{fault_text};
ghost use Rattle.signal_graph.specs.Machine.{looks_of_reply};
ghost use Rattle.report_text.specs.Report.{line_of, Answers};
ghost use Rattle.report_text.specs.Json.{value_data, look_data, list_data, fire_data, read_data};
ghost use Rattle.report_text.specs.Json.{reply_data, call_data, why_data, refused_data};

use call_log::{Logged, Refused, Why};
use script_tree::memory::OutOfMemory;
use script_tree::name::Name;
use script_tree::value::{Fault, Value};
use serde_json::{Map, Value as Json, json, put};
use signal_graph::call::Reply;
use std::alloc::Global;

fn fault_word(fault: Fault) -> &'static str
    ensures { result.now ≡ fault_text fault }
{
    match fault {
        Fault::Overflow => "overflow",
        Fault::ZeroDivisor => "zero-divisor",
        Fault::Kind => "kind",
        Fault::NoChoice => "no-choice",
    }
}

fn fault_json(alloc: Global, fault: Fault) -> Result<Json, OutOfMemory>
    ensures { IfOk result (λ json. view json ≡ value_data (Value.Fault fault)) }
{
    let json = json!(in alloc; {"fault": fault_word(fault)})?;
    Ok(json)
}

fn value_json(alloc: Global, value: Value) -> Result<Json, OutOfMemory>
    ensures { IfOk result (λ json. view json ≡ value_data value) }
{
    match value {
        Value::Int(number) => Ok(Json::from(number)),
        Value::Bool(truth) => Ok(Json::from(truth)),
        Value::Fault(fault) => fault_json(alloc, fault),
    }
}

// A name with a value.
pub fn look_json(alloc: Global, name: &Name, value: Value) -> Result<Json, OutOfMemory>
    ensures { IfOk result (λ json. view json ≡ look_data (name.now, value)) }
{
    let value = value_json(alloc, value)?;
    let json = json!(in alloc; {"name": name.as_str(), "value": value})?;
    Ok(json)
}

fn looks_json(alloc: Global, names: &[Name], values: &[Value]) -> Result<Json, OutOfMemory>
    requires { length values.now ≡ length names.now }
    ensures { IfOk result (λ json. view json ≡ list_data look_data (zip names.now values.now)) }
{
    let mut looks = Vec::new(alloc);
    for (index, name) in names.iter().enumerate() {
        let look = look_json(alloc, name, values[index])?;
        looks.push(look)?;
    }
    Ok(Json::Array(looks))
}

fn fire_json(
    alloc: Global,
    caller: u32,
    version: u32,
    changed: u32,
    evaluated: u32,
    looks: Json,
) -> Result<Json, OutOfMemory>
    ensures { IfOk result (λ json. view json ≡ fire_data caller version changed evaluated (view looks)) }
{
    let mut members = Map::new(alloc);
    put(&mut members, alloc, "changed", Json::from(changed))?;
    put(&mut members, alloc, "evaluated", Json::from(evaluated))?;
    put(
        &mut members,
        alloc,
        "kind",
        Json::try_from_str(alloc, "fire")?,
    )?;
    put(&mut members, alloc, "looks", looks)?;
    put(&mut members, alloc, "thread", Json::from(caller))?;
    put(&mut members, alloc, "version", Json::from(version))?;
    Ok(Json::Object(members))
}

fn read_json(alloc: Global, caller: u32, version: u32, looks: Json) -> Result<Json, OutOfMemory>
    ensures { IfOk result (λ json. view json ≡ read_data caller version (view looks)) }
{
    let json = json!(in alloc; {
        "kind": "read",
        "looks": looks,
        "thread": caller,
        "version": version,
    })?;
    Ok(json)
}

fn reply_json(
    alloc: Global,
    caller: u32,
    version: u32,
    names: &[Name],
    reply: &Reply,
) -> Result<Json, OutOfMemory>
    requires { length (looks_of_reply reply.now) ≡ length names.now }
    ensures { IfOk result (λ json. view json ≡ reply_data caller version names.now reply.now) }
{
    match reply {
        Reply::Fire {
            changed,
            evaluated,
            looks,
        } => {
            let looks = looks_json(alloc, names, looks.as_slice())?;
            fire_json(alloc, caller, version, *changed, *evaluated, looks)
        }
        Reply::Read { looks } => {
            let looks = looks_json(alloc, names, looks.as_slice())?;
            read_json(alloc, caller, version, looks)
        }
    }
}

// A call that was made.
pub fn call_json(alloc: Global, entry: &Logged) -> Result<Json, OutOfMemory>
    requires { Answers entry.now.call entry.now.reply }
    ensures { IfOk result (λ json. view json ≡ call_data (line_of entry.now)) }
{
    reply_json(
        alloc,
        entry.caller,
        entry.version,
        entry.call.looks(),
        &entry.reply,
    )
}

fn unknown_json(alloc: Global, caller: u32, number: u32, place: u32) -> Result<Json, OutOfMemory>
    ensures { IfOk result (λ json. view json ≡ why_data caller number (Why.UnknownName place)) }
{
    let json = json!(in alloc; {
        "call": number,
        "place": place,
        "reason": "unknown name",
        "thread": caller,
    })?;
    Ok(json)
}

fn used_up_json(alloc: Global, caller: u32, number: u32, limit: u32) -> Result<Json, OutOfMemory>
    ensures { IfOk result (λ json. view json ≡ why_data caller number (Why.VersionsUsedUp limit)) }
{
    let json = json!(in alloc; {
        "call": number,
        "limit": limit,
        "reason": "versions used up",
        "thread": caller,
    })?;
    Ok(json)
}

// A call that was not made.
pub fn refused_json(alloc: Global, refused: Refused) -> Result<Json, OutOfMemory>
    ensures { IfOk result (λ json. view json ≡ refused_data refused) }
{
    match refused.why {
        Why::UnknownName(place) => unknown_json(alloc, refused.caller, refused.number, place),
        Why::VersionsUsedUp(limit) => used_up_json(alloc, refused.caller, refused.number, limit),
    }
}
