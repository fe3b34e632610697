// The lines that call.

ghost use Rattle.std.specs.Prelude.{◌≡◌, ◌≤◌, List, length, Some, None, All, IfOk, IfSome, IfNone};
ghost use Rattle.std.specs.List.{AllZip};
ghost use Rattle.expr_script.specs.Pieces.{words_among};
ghost use Rattle.deck_lines.specs.Answers.{Reads};
ghost use Rattle.deck_lines.specs.Cuts.{ArePiecesOf};
ghost use Rattle.deck_lines.specs.Forms as form;
ghost use Rattle.deck_lines.specs.Forms.{SetForm};
ghost use Rattle.deck_lines.specs.Kept.{IsKept, SetsWell};
ghost use Rattle.deck_lines.specs.Lines.{IsRead, IsReadAs, SaysSet};
ghost use Rattle.deck_lines.specs.Reading.{set_said, sets_said, fire_of, read_of};

use crate::cut::{cut, parts};
use crate::fault::{Limit, LineFault};
use crate::line::Line;
use crate::names::{head, names};
use crate::value::value;
use expr_script::pieces::Piece;
use script_tree::items::Items;
use script_tree::limits::{LOOKS, SETS};
use script_tree::name::{Name, NameList};
use script_tree::value::Value;
use signal_graph::call::{Call, SetList};
use std::alloc::Global;

// A name, `=` and a value.
#[tactic(auto, using(crate::proofs::Calling::call_laws))]
fn set(text: &[u8], pieces: &[Piece]) -> Option<(Name, Value)>
    requires { ArePiecesOf text.now pieces.now }
    ensures some { IfSome result (λ s. set_said (words_among text.now pieces.now) ≡ Some s) }
    ensures well { IfSome result SetsWell }
    ensures none { IfNone result (set_said (words_among text.now pieces.now) ≡ None) }
{
    let (name, rest) = head(text, pieces)?;
    let value = value(text, rest)?;
    Some((name, value))
}

// Such pairs, with commas between them. Room for them is made once.
#[tactic(auto, using(crate::proofs::Going::going_laws))]
fn sets(alloc: Global, text: &[u8], pieces: &[Piece]) -> Result<SetList, LineFault>
    requires { ArePiecesOf text.now pieces.now }
    ensures read { Reads (sets_said (words_among text.now pieces.now)) result }
    ensures some { IfOk result (λ sets. 1 ≤ length sets) }
    ensures well { IfOk result (λ sets. All SetsWell sets) }
{
    let mut sets = Vec::with_capacity(alloc, parts(text, pieces, b","))?;
    let mut rest = pieces;
    while let Some((before, after)) = cut(text, rest, b",") {
        let Some(one) = set(text, before) else {
            return Err(LineFault::Syntax);
        };
        sets.push(one)?;
        rest = after;
    }
    let Some(last) = set(text, rest) else {
        return Err(LineFault::Syntax);
    };
    sets.push(last)?;
    Ok(Items::from_vec(sets))
}

// The fire of these sets and looks, unless there are too many of either.
#[tactic(auto, using(crate::proofs::Calling::call_laws))]
fn fire_with(sets: SetList, looks: NameList) -> Result<Line, LineFault>
    requires some { 1 ≤ length sets }
    requires well { All SetsWell sets }
    ensures read { (forms : List SetForm) → AllZip SaysSet forms sets → IsReadAs (form.Fire forms looks) result }
    ensures kept { IfOk result IsKept }
{
    if sets.len() > SETS {
        return Err(LineFault::TooMany(Limit::Sets));
    }
    if looks.len() > LOOKS {
        return Err(LineFault::TooMany(Limit::Looks));
    }
    Ok(Line::Calls(Call::Fire { sets, looks }))
}

/// A fire, from what stands behind its first word.
#[tactic(auto, using(crate::proofs::Calling::call_laws))]
pub fn fire(alloc: Global, text: &[u8], pieces: &[Piece]) -> Result<Line, LineFault>
    requires { ArePiecesOf text.now pieces.now }
    ensures read { IsRead (fire_of (words_among text.now pieces.now)) result }
    ensures kept { IfOk result IsKept }
{
    let Some((before, behind)) = cut(text, pieces, b"look") else {
        return match sets(alloc, text, pieces) {
            Ok(sets) => fire_with(sets, Items::new(alloc)),
            Err(fault) => Err(fault),
        };
    };
    let sets = match sets(alloc, text, before) {
        Ok(sets) => sets,
        Err(fault) => return Err(fault),
    };
    match names(alloc, text, behind) {
        Ok(looks) => fire_with(sets, looks),
        Err(fault) => Err(fault),
    }
}

// The read of these looks, unless there are too many.
fn read_with(looks: NameList) -> Result<Line, LineFault>
    requires { 1 ≤ length looks }
    ensures read { IsReadAs (form.Read looks) result }
    ensures kept { IfOk result IsKept }
{
    if looks.len() > LOOKS {
        return Err(LineFault::TooMany(Limit::Looks));
    }
    Ok(Line::Calls(Call::Read { looks }))
}

/// A read, from what stands behind its first word.
#[tactic(auto, using(crate::proofs::Calling::call_laws))]
pub fn read(alloc: Global, text: &[u8], pieces: &[Piece]) -> Result<Line, LineFault>
    requires { ArePiecesOf text.now pieces.now }
    ensures read { IsRead (read_of (words_among text.now pieces.now)) result }
    ensures kept { IfOk result IsKept }
{
    match names(alloc, text, pieces) {
        Ok(looks) => read_with(looks),
        Err(fault) => Err(fault),
    }
}
