// The board, and what is asked of it.

ghost use Rattle.std.specs.Prelude.{◌≡◌, length, All, IfOk};
ghost use Rattle.signal_graph.specs.Declarations.{IsDeclaration};
ghost use Rattle.flow_model.specs.Follows.Callers.{IsWithin};

use anyhow::{Context, Result, ensure};
use expr_script::parse_script;
use script_tree::name::{Name, NameList};
use script_tree::value::Value;
use signal_graph::builder::{DeclKind, GraphBuilder};
use signal_graph::call::{Call, CallList, SetList};
use signal_graph::graph::Graph;
use std::alloc::Global;

// The name that a text is.
fn named(text: &str) -> Result<Name> {
    Name::of(text).context("a text that is no name")
}

// Adds a node behind those that are there.
fn add(board: &mut GraphBuilder, name: &str, kind: DeclKind) -> Result<()>
    requires { IsDeclaration kind }
{
    ensure!(
        board.add(named(name)?, kind).is_ok(),
        "a declaration is refused"
    );
    Ok(())
}

/// The temperatures of two rooms, their mean, and how often one of them has changed. A fold steps in each fire that changes an
/// input of its script, so one that counts has to name what it counts.
pub fn two_rooms(alloc: Global) -> Result<Graph> {
    let mut board = GraphBuilder::new(alloc);
    let start = Value::Int(19);
    add(&mut board, "hall", DeclKind::Source { start })?;
    let start = Value::Int(23);
    add(&mut board, "lab", DeclKind::Source { start })?;
    let script = parse_script(alloc, "(hall + lab) / 2", false)?;
    add(&mut board, "mean", DeclKind::Signal { script })?;
    let start = Value::Int(0);
    let script = parse_script(alloc, "acc + 1 + 0 * (hall + lab)", true)?;
    add(&mut board, "changes", DeclKind::Fold { start, script })?;
    Ok(board.build()?)
}

// A fire that sets one room's temperature, and looks at the mean.
fn reading(alloc: Global, room: &str, value: i64) -> Result<Call>
    ensures { IfOk result IsWithin }
{
    let mut sets = SetList::new(alloc);
    let mut looks = NameList::new(alloc);
    sets.push((named(room)?, Value::Int(value)))?;
    looks.push(named("mean")?)?;
    Ok(Call::Fire { sets, looks })
}

/// The calls of a thread that brings a room's readings, a fire for each.
pub fn readings(alloc: Global, room: &str, values: &[i64]) -> Result<CallList>
    ensures within { IfOk result (λ calls. All IsWithin calls) }
    ensures as_many { IfOk result (λ calls. length calls ≡ length values.now) }
{
    let mut calls = CallList::new(alloc);
    for value in values {
        calls.push(reading(alloc, room, *value)?)?;
    }
    Ok(calls)
}
