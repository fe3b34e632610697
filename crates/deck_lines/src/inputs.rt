// The different names of several scripts.

ghost use Rattle.std.specs.Prelude.{◌≡◌, ◌+◌, ◌++◌, length, reverse, IfOk, OnOk};
ghost use Rattle.std.specs.List.{list_any};
ghost use Rattle.std.specs.Str.{bytes_eq};
ghost use Rattle.signal_graph.specs.Declarations.{script_names, different_names};
ghost use Rattle.deck_lines.specs.Inputs.{seen_after};

use script_tree::bytes::is_same;
use script_tree::name::{Name, NameList};
use script_tree::script::Script;
use std::alloc::{AllocError, Global};

fn is_seen(seen: &[Name], name: &Name) -> bool
    ensures { result ≡ list_any (bytes_eq name.now) seen.now }
{
    seen.iter()
        .any(|other| is_same(name.as_slice(), other.as_slice()))
}

// Adds those of the names that are not there yet.
#[tactic(auto, using(crate::proofs::InputLaws::input_laws))]
fn see(seen: &mut Vec<Name>, names: &[Name]) -> Result<(), AllocError>
    ensures { OnOk result (seen.new.items ≡ seen_after seen.old.items names.now) }
{
    for name in names {
        if !is_seen(seen.as_slice(), name) {
            seen.push(name.copy())?;
        }
    }
    Ok(())
}

/// How many different names the scripts of selectors have.
#[tactic(auto, using(crate::proofs::InputLaws::input_laws))]
pub fn different_inputs(
    alloc: Global,
    selectors: &[(Script, NameList)],
) -> Result<usize, AllocError>
    ensures { IfOk result (λ n. n ≡ length (different_names (script_names selectors.now))) }
{
    let mut seen = Vec::new(alloc);
    for selector in selectors {
        see(&mut seen, selector.0.inputs().as_slice())?;
    }
    Ok(seen.len())
}
