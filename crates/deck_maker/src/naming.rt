// The names of the workload's nodes.

ghost use Rattle.std.specs.Prelude.{◌≡◌, ◌<◌, ◌∷◌, ◌++◌, [], IsTrue, decimal, map, IfOk, OnOk};
ghost use Rattle.script_tree.specs.Names.{is_name};
ghost use Rattle.separate_decks.specs.Workload.{name_of, numbered, two};

use script_tree::items::Text;
use script_tree::memory::OutOfMemory;
use script_tree::name::{Name, NameList};
use script_tree::print::print_number;
use std::alloc::Global;

// A letter with a number behind it.
fn numbered(alloc: Global, letter: &[u8], number: u32) -> Result<Name, OutOfMemory>
    requires { IsTrue (is_name (numbered letter.now number)) }
    ensures { IfOk result (λ name. name ≡ numbered letter.now number) }
{
    let mut text = Text::new(alloc);
    text.extend_from_slice(letter)?;
    print_number(&mut text, number)?;
    match Name::of_bytes(text.as_slice()) {
        Some(name) => Ok(name),
        None => unreachable!(),
    }
}

/// The name of the node with a number. Takes memory.
pub fn node_name(alloc: Global, node: u32) -> Result<Name, OutOfMemory>
    requires { node < 216 }
    ensures { IfOk result (λ name. name ≡ name_of node) }
{
    if node < 64 {
        return numbered(alloc, b"s", node);
    }
    if node < 72 {
        return numbered(alloc, b"f", node - 64);
    }
    let row = (node - 72) / 6;
    let place = (node - 72) % 6;
    if place < 5 {
        return numbered(alloc, b"g", 5 * row + place);
    }
    numbered(alloc, b"c", row)
}

/// Adds the name of a node. Takes memory.
pub fn push_name(alloc: Global, names: &mut NameList, node: u32) -> Result<(), OutOfMemory>
    requires { node < 216 }
    ensures { OnOk result (names.new ≡ names.old ++ name_of node ∷ []) }
{
    names.push(node_name(alloc, node)?)
}

/// The name of a node alone. Takes memory.
pub fn one_name(alloc: Global, node: u32) -> Result<NameList, OutOfMemory>
    requires { node < 216 }
    ensures { IfOk result (λ names. names ≡ map name_of (node ∷ [])) }
{
    let mut names = NameList::new(alloc);
    push_name(alloc, &mut names, node)?;
    Ok(names)
}

/// The different names of two nodes. Takes memory.
pub fn two_names(alloc: Global, first: u32, second: u32) -> Result<NameList, OutOfMemory>
    requires first { first < 216 }
    requires second { second < 216 }
    ensures { IfOk result (λ names. names ≡ map name_of (two first second)) }
{
    let mut names = one_name(alloc, first)?;
    if first == second {
        return Ok(names);
    }
    push_name(alloc, &mut names, second)?;
    Ok(names)
}
