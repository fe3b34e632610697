// What is printed.

use crate::counting::{Counts, KINDS};
use call_log::Log;
use interleave_core::Core;
use script_tree::items::Text;
use script_tree::memory::OutOfMemory;
use script_tree::print::{print_number, print_value};
use script_tree::value::Value;
use signal_graph::call::Reply;
use signal_graph::log::Logged;
use std::alloc::Global;

fn values(out: &mut Text, word: &[u8], values: &[Value]) -> Result<(), OutOfMemory> {
    for value in values {
        out.extend_from_slice(word)?;
        print_value(out, *value)?;
    }
    out.push(b'\n')
}

fn number(out: &mut Text, word: &[u8], number: u32) -> Result<(), OutOfMemory> {
    out.extend_from_slice(word)?;
    print_number(out, number)
}

fn reply(out: &mut Text, reply: &Reply) -> Result<(), OutOfMemory> {
    match reply {
        Reply::Fire {
            changed,
            evaluated,
            looks,
        } => {
            number(out, b" fire changed ", *changed)?;
            number(out, b" evaluated ", *evaluated)?;
            values(out, b" look ", looks.as_slice())
        }
        Reply::Read { looks } => {
            out.extend_from_slice(b" read")?;
            values(out, b" look ", looks.as_slice())
        }
    }
}

fn line(out: &mut Text, logged: &Logged) -> Result<(), OutOfMemory> {
    number(out, b"call ", logged.version)?;
    number(out, b" thread ", logged.caller)?;
    reply(out, &logged.reply)
}

fn whole(alloc: Global, log: &Log, finals: &[Value]) -> Result<Text, OutOfMemory> {
    let mut out = Text::new(alloc);
    for logged in log.as_slice() {
        line(&mut out, logged)?;
    }
    out.extend_from_slice(b"finals")?;
    values(&mut out, b" ", finals)?;
    Ok(out)
}

/// The log, a line for each call, and the final values in one line. None where a call is live or there is no memory.
pub fn log_text(alloc: Global, core: Core) -> Option<Text> {
    if core.book().live_len() > 0 {
        return None;
    }
    let (log, finals) = core.finish();
    match whole(alloc, &log, finals.as_slice()) {
        Ok(text) => Some(text),
        Err(_) => None,
    }
}

fn counted(alloc: Global, counts: &Counts) -> Result<Text, OutOfMemory> {
    let mut out = Text::new(alloc);
    for (kind, name) in KINDS.iter().enumerate() {
        out.extend_from_slice(name.as_bytes())?;
        out.push(b' ')?;
        number(
            &mut out,
            b"",
            counts.of_kind[kind].min(u32::MAX as u64) as u32,
        )?;
        out.push(b'\n')?;
    }
    number(&mut out, b"idle ", counts.idle.min(u32::MAX as u64) as u32)?;
    out.push(b'\n')?;
    Ok(out)
}

/// How many steps of each kind there were, a line for each, and how many turns made none. None where there is no memory.
pub fn steps_text(alloc: Global, counts: &Counts) -> Option<Text> {
    match counted(alloc, counts) {
        Ok(text) => Some(text),
        Err(_) => None,
    }
}
