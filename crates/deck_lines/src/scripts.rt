// The scripts of a line.

ghost use Rattle.std.specs.Prelude.{◌≡◌, ◌≤◌, false, length, IfOk};
ghost use Rattle.script_tree.specs.Scripts.{HasNoPicks, HasNoAcc, IsBody};
ghost use Rattle.expr_script.specs.Pieces.{words_among};
ghost use Rattle.deck_lines.specs.Cuts.{ArePiecesOf};
ghost use Rattle.deck_lines.specs.Scripts.{IsScriptRead, IsBodyRead, line_fault};

use crate::fault::{Limit, LineFault};
use expr_script::pieces::Piece;
use expr_script::{ScriptFault, parse_body_pieces, parse_script_pieces};
use script_tree::limits::{LINE_BYTES, SELECTORS};
use script_tree::script::Script;
use std::alloc::Global;

fn fault_of(fault: ScriptFault) -> LineFault
    ensures { result ≡ line_fault fault }
{
    match fault {
        ScriptFault::Syntax(_) => LineFault::Syntax,
        ScriptFault::TooDeep(_) => LineFault::TooMany(Limit::Levels),
        ScriptFault::TooManyInputs => LineFault::TooMany(Limit::Inputs),
        ScriptFault::Memory => LineFault::Memory,
    }
}

/// The script that pieces are, in which `acc` may stand or not.
#[tactic(auto, using(crate::proofs::Scripting::script_laws))]
pub fn script(alloc: Global, text: &[u8], pieces: &[Piece], acc: bool) -> Result<Script, LineFault>
    requires short { length text.now ≤ LINE_BYTES }
    requires whole { ArePiecesOf text.now pieces.now }
    ensures read { IsScriptRead acc (words_among text.now pieces.now) result }
    ensures picks { IfOk result HasNoPicks }
    ensures acc { acc ≡ false → IfOk result HasNoAcc }
{
    match parse_script_pieces(alloc, text, pieces, acc) {
        Ok(script) => Ok(script),
        Err(fault) => Err(fault_of(fault)),
    }
}

/// The body that pieces are, over so many picks.
#[tactic(auto, using(crate::proofs::Scripting::script_laws))]
pub fn body(alloc: Global, text: &[u8], pieces: &[Piece], picks: u32) -> Result<Script, LineFault>
    requires short { length text.now ≤ LINE_BYTES }
    requires whole { ArePiecesOf text.now pieces.now }
    requires some { 1 ≤ picks }
    requires few { picks ≤ SELECTORS }
    ensures read { IsBodyRead picks (words_among text.now pieces.now) result }
    ensures body { IfOk result (IsBody picks) }
{
    match parse_body_pieces(alloc, text, pieces, picks) {
        Ok(body) => Ok(body),
        Err(fault) => Err(fault_of(fault)),
    }
}
