// The line of a choose. It is cut at its colons: each part with `among` is a selector, and the last part is the body
// where it has none. One selector may stand without a body.

ghost use Rattle.std.specs.Prelude.{◌≡◌, ◌≤◌, [], ◌∷◌, min, List, length, codes, Option, Some, None, IfOk};
ghost use Rattle.std.specs.Option.{option_map};
ghost use Rattle.expr_script.specs.Pieces.{words_among};
ghost use Rattle.signal_graph.specs.Graph.{BodyFits};
ghost use Rattle.deck_lines.specs.Cuts.{ArePiecesOf};
ghost use Rattle.deck_lines.specs.Forms as form;
ghost use Rattle.deck_lines.specs.Forms.{Words, PartForm};
ghost use Rattle.deck_lines.specs.Kept.{IsKept};
ghost use Rattle.deck_lines.specs.Lines.{IsRead, IsReadAs, SaysBody};
ghost use Rattle.deck_lines.specs.Reading.{cut as split, part_of, last_of, parts_of, prepended, choose_by};
ghost use Rattle.deck_lines.specs.Selectors.{Gathers, HasGathered};

use crate::cut::cut;
use crate::fault::{Limit, LineFault};
use crate::inputs::different_inputs;
use crate::line::Line;
use crate::scripts::body;
use crate::selectors::Selectors;
use expr_script::pieces::Piece;
use script_tree::items::Items;
use script_tree::limits::{INPUTS, LINE_BYTES, SELECTORS};
use script_tree::name::Name;
use script_tree::script::Script;
use signal_graph::builder::DeclKind;
use std::alloc::Global;

// The choose of these selectors and this body, unless it goes beyond a limit.
#[tactic(auto, using(crate::proofs::Judging::judge_laws))]
fn judge(
    alloc: Global,
    name: Name,
    selectors: Selectors,
    over: Option<Script>,
) -> Result<Line, LineFault>
    ensures read { (parts : List PartForm) (words : Option Words) → Gathers parts selectors → SaysBody (length parts) words over
        → IsReadAs (form.Choose name parts words) result }
    ensures kept { (parts : List PartForm) → Gathers parts selectors → 1 ≤ length parts → BodyFits (min (length parts) SELECTORS) over
        → IfOk result IsKept }
{
    if selectors.deep {
        return Err(LineFault::TooMany(Limit::Levels));
    }
    if selectors.many {
        return Err(LineFault::TooMany(Limit::Inputs));
    }
    if different_inputs(alloc, selectors.within.as_slice())? > INPUTS {
        return Err(LineFault::TooMany(Limit::Inputs));
    }
    if selectors.crowded {
        return Err(LineFault::TooMany(Limit::Candidates));
    }
    if selectors.count > SELECTORS {
        return Err(LineFault::TooMany(Limit::Selectors));
    }
    let Selectors {
        count: _,
        deep: _,
        many: _,
        crowded: _,
        within,
    } = selectors;
    Ok(Line::Declares(
        name,
        DeclKind::Choose {
            selectors: Items::from_vec(within),
            body: over,
        },
    ))
}

// The one selector of a choose without a body.
fn only(
    alloc: Global,
    text: &[u8],
    name: Name,
    selectors: Selectors,
    pieces: &[Piece],
) -> Result<Line, LineFault>
    requires short { length text.now ≤ LINE_BYTES }
    requires whole { ArePiecesOf text.now pieces.now }
    requires none { Gathers [] selectors }
    ensures read { (words : Words) → choose_by (name, words)
        ≡ option_map (λ part. form.Choose name (part ∷ []) None) (part_of (words_among text.now pieces.now))
        → IsRead (choose_by (name, words)) result }
    ensures kept { IfOk result IsKept }
{
    let mut selectors = selectors;
    match selectors.add(alloc, text, pieces) {
        Ok(()) => judge(alloc, name, selectors, None),
        Err(fault) => Err(fault),
    }
}

// The selectors of a choose with a body, which these pieces are.
fn over(
    alloc: Global,
    text: &[u8],
    name: Name,
    selectors: Selectors,
    pieces: &[Piece],
) -> Result<Line, LineFault>
    requires short { length text.now ≤ LINE_BYTES }
    requires whole { ArePiecesOf text.now pieces.now }
    requires some { 1 ≤ selectors.count }
    ensures read { (done : List PartForm) → Gathers done selectors
        → IsReadAs (form.Choose name done (Some (words_among text.now pieces.now))) result }
    ensures kept { (done : List PartForm) → Gathers done selectors → IfOk result IsKept }
{
    let picks = selectors.count.min(SELECTORS) as u32;
    match body(alloc, text, pieces, picks) {
        Ok(body) => judge(alloc, name, selectors, Some(body)),
        Err(fault) => Err(fault),
    }
}

// What stands behind the last colon: the one selector, or a body behind selectors.
fn last(
    alloc: Global,
    text: &[u8],
    name: Name,
    selectors: Selectors,
    pieces: &[Piece],
) -> Result<Line, LineFault>
    requires short { length text.now ≤ LINE_BYTES }
    requires whole { ArePiecesOf text.now pieces.now }
    requires gathered { HasGathered selectors }
    ensures read { (words : Words) (done : List PartForm) → Gathers done selectors
        → parts_of (split (codes ":") words) ≡ option_map (prepended done) (last_of (words_among text.now pieces.now))
        → IsRead (choose_by (name, words)) result }
    ensures kept { IfOk result IsKept }
{
    let alone = selectors.count == 0;
    let Some(_) = cut(text, pieces, b"among") else {
        if alone {
            return Err(LineFault::Syntax);
        }
        return over(alloc, text, name, selectors, pieces);
    };
    if alone {
        return only(alloc, text, name, selectors, pieces);
    }
    Err(LineFault::Syntax)
}

/// A choose with this name, from what stands behind its `=`.
pub fn choose(alloc: Global, text: &[u8], name: Name, pieces: &[Piece]) -> Result<Line, LineFault>
    requires short { length text.now ≤ LINE_BYTES }
    requires whole { ArePiecesOf text.now pieces.now }
    ensures read { IsRead (choose_by (name, words_among text.now pieces.now)) result }
    ensures kept { IfOk result IsKept }
{
    let mut selectors = Selectors::new(alloc);
    let mut rest = pieces;
    while let Some((before, after)) = cut(text, rest, b":") {
        if let Err(fault) = selectors.add(alloc, text, before) {
            return Err(fault);
        }
        rest = after;
    }
    last(alloc, text, name, selectors, rest)
}
