// From the names of a declaration to the numbers of nodes.

ghost use Rattle.std.specs.Prelude.{◌≡◌, ◌∷◌, ◌++◌, [], if◌then◌else◌, map, find, length, IfOk, OnOk, OnErr};
ghost use Rattle.script_tree.specs.Names.{place_in};
ghost use Rattle.signal_graph.specs.Graph.{is_in, different, inputs_of_all};
ghost use Rattle.signal_graph.specs.Declarations.{names_of, names_of_part, names_of_parts, is_undeclared, selector_of, node_of};

use crate::builder::{DeclKind, SelectList};
use crate::names::NameTable;
use crate::node::{Node, Selector};
use script_tree::items::Items;
use script_tree::memory::OutOfMemory;
use script_tree::name::{Name, NameList};
use script_tree::script::Script;
use std::alloc::Global;

fn first_undeclared_of(table: &NameTable, names: &NameList) -> Option<Name>
    ensures { result ≡ find (is_undeclared table.now) names.now }
{
    for name in names.as_slice() {
        if !table.contains(name) {
            return Some(name.copy());
        }
    }
    None
}

fn first_undeclared_of_part(table: &NameTable, part: &(Script, NameList)) -> Option<Name>
    ensures { result ≡ find (is_undeclared table.now) (names_of_part part.now) }
{
    let unknown = first_undeclared_of(table, part.0.inputs());
    if unknown.is_some() {
        return unknown;
    }
    first_undeclared_of(table, &part.1)
}

fn first_undeclared_of_parts(table: &NameTable, parts: &SelectList) -> Option<Name>
    ensures { result ≡ find (is_undeclared table.now) (names_of_parts parts.now) }
{
    for part in parts.as_slice() {
        let unknown = first_undeclared_of_part(table, part);
        if unknown.is_some() {
            return unknown;
        }
    }
    None
}

/// The first name that a declaration uses and that is not in a table, or none. Takes no memory.
pub(crate) fn first_undeclared(table: &NameTable, kind: &DeclKind) -> Option<Name>
    ensures { result ≡ find (is_undeclared table.now) (names_of kind.now) }
{
    match kind {
        DeclKind::Source { .. } => None,
        DeclKind::Signal { script } => first_undeclared_of(table, script.inputs()),
        DeclKind::Fold { script, .. } => first_undeclared_of(table, script.inputs()),
        DeclKind::Choose { selectors, .. } => first_undeclared_of_parts(table, selectors),
    }
}

fn numbers(alloc: Global, table: &NameTable, names: &NameList) -> Result<Items<u32>, OutOfMemory>
    ensures { IfOk result (λ numbers. numbers ≡ map (place_in table.now) names.now) }
{
    let mut numbers = Items::new(alloc);
    for name in names.as_slice() {
        numbers.push(table.place(name))?;
    }
    Ok(numbers)
}

fn selector(
    alloc: Global,
    table: &NameTable,
    part: (Script, NameList),
) -> Result<Selector, OutOfMemory>
    ensures { IfOk result (λ selector. selector ≡ selector_of table.now part) }
{
    let (script, candidates) = part;
    let inputs = numbers(alloc, table, script.inputs())?;
    let candidates = numbers(alloc, table, &candidates)?;
    Ok(Selector {
        script,
        inputs,
        candidates,
    })
}

fn selectors(
    alloc: Global,
    table: &NameTable,
    parts: SelectList,
) -> Result<Items<Selector>, OutOfMemory>
    ensures { IfOk result (λ selectors. selectors ≡ map (selector_of table.now) parts) }
{
    let mut selectors = Items::new(alloc);
    for part in parts.into_vec() {
        selectors.push(selector(alloc, table, part)?)?;
    }
    Ok(selectors)
}

fn inputs_of_all(alloc: Global, selectors: &[Selector]) -> Result<Items<u32>, OutOfMemory>
    ensures { IfOk result (λ inputs. inputs ≡ inputs_of_all selectors.now) }
{
    let mut inputs = Items::new(alloc);
    for selector in selectors {
        inputs.extend_from_slice(selector.inputs.as_slice())?;
    }
    Ok(inputs)
}

fn different(alloc: Global, inputs: &[u32]) -> Result<Items<u32>, OutOfMemory>
    ensures { IfOk result (λ found. found ≡ different inputs.now) }
{
    let mut found = Items::new(alloc);
    for input in inputs {
        add_new(&mut found, *input)?;
    }
    Ok(found)
}

fn add_new(found: &mut Items<u32>, input: u32) -> Result<(), OutOfMemory>
    ensures { OnOk result (found.new ≡ (if is_in input found.old then found.old else found.old ++ input ∷ [])) }
{
    if found.as_slice().contains(&input) {
        return Ok(());
    }
    found.push(input)
}

/// The node that a declaration is, with the numbers of the names that it uses. Takes memory.
pub(crate) fn resolve(alloc: Global, table: &NameTable, kind: DeclKind) -> Result<Node, OutOfMemory>
    ensures { IfOk result (λ node. node ≡ node_of table.now kind) }
{
    match kind {
        DeclKind::Source { start } => Ok(Node::Source { start }),
        DeclKind::Signal { script } => {
            let inputs = numbers(alloc, table, script.inputs())?;
            Ok(Node::Signal { script, inputs })
        }
        DeclKind::Fold { start, script } => {
            let inputs = numbers(alloc, table, script.inputs())?;
            Ok(Node::Fold {
                start,
                script,
                inputs,
            })
        }
        DeclKind::Choose {
            selectors: declared,
            body,
        } => {
            let selectors = selectors(alloc, table, declared)?;
            let all = inputs_of_all(alloc, selectors.as_slice())?;
            let inputs = different(alloc, all.as_slice())?;
            Ok(Node::Choose {
                selectors,
                body,
                inputs,
            })
        }
    }
}
