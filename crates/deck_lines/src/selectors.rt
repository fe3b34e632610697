// The selectors of a choose.

ghost use Rattle.std.specs.Prelude.{◌≡◌, ◌+◌, ◌≤◌, false, Some, if◌then◌else◌, ◌∷◌, ◌++◌, [], ◌||◌, nat_lt, List, length, IfOk, OnOk};
ghost use Rattle.expr_script.specs.Pieces.{words_among};
ghost use Rattle.expr_script.specs.Spelled.{SpellsScript, SpellsTooMany};
ghost use Rattle.expr_script.specs.declared.atoms.Atoms.TheVariants as atoms;
ghost use Rattle.deck_lines.specs.Scripts.{IsScriptRead};
ghost use Rattle.deck_lines.specs.declared.fault.LineFault.TheVariants.{TooMany};
ghost use Rattle.script_tree.specs.Scripts.{HasNoPicks, HasNoAcc};
ghost use Rattle.deck_lines.specs.Cuts.{ArePiecesOf};
ghost use Rattle.deck_lines.specs.Forms.{PartForm};
ghost use Rattle.deck_lines.specs.Limits.{selector_script, IsTooDeep};
ghost use Rattle.deck_lines.specs.Selectors.{Gathers, Adds};
ghost use Rattle.deck_lines.specs.Reading.{part_of};

use crate::cut::cut;
use crate::fault::{Limit, LineFault};
use crate::names::names;
use crate::scripts::script;
use expr_script::pieces::Piece;
use script_tree::limits::{CANDIDATES, LINE_BYTES, SELECTORS};
use script_tree::memory::OutOfMemory;
use script_tree::name::NameList;
use script_tree::script::Script;
use std::alloc::Global;

/// The selectors of a line so far: how many there are, up to the first too many; whether the script of one is too deep;
/// whether one has too many names; whether one has too many candidates; and those whose scripts are there.
#[derive(Drop)]
pub struct Selectors {
    pub count: usize,
    pub deep: bool,
    pub many: bool,
    pub crowded: bool,
    pub within: Vec<(Script, NameList)>,
}

impl Selectors {
    pub fn new(alloc: Global) -> Selectors
        ensures { Gathers [] result }
    {
        Selectors {
            count: 0,
            deep: false,
            many: false,
            crowded: false,
            within: Vec::new(alloc),
        }
    }

    // Counts one more with these candidates.
    fn count_one(&mut self, candidates: &NameList)
        ensures count { self.new.count ≡ (if nat_lt SELECTORS self.old.count then self.old.count else self.old.count + 1) }
        ensures crowded { self.new.crowded ≡ (self.old.crowded || nat_lt CANDIDATES (length candidates.now)) }
        ensures deep { self.new.deep ≡ self.old.deep }
        ensures many { self.new.many ≡ self.old.many }
        ensures within { self.new.within ≡ self.old.within }
    {
        if self.count <= SELECTORS {
            self.count += 1;
        }
        self.crowded = self.crowded || candidates.len() > CANDIDATES;
    }

    // Adds one whose script is there.
    fn add_script(&mut self, script: Script, candidates: NameList) -> Result<(), OutOfMemory>
        requires some { 1 ≤ length candidates }
        requires picks { HasNoPicks script }
        requires acc { HasNoAcc script }
        ensures { OnOk result ((form : PartForm) (forms : List PartForm) → SpellsScript false form.0 script → form.1 ≡ candidates
            → Gathers forms self.old → Gathers (forms ++ form ∷ []) self.new) }
    {
        self.count_one(&candidates);
        self.within.push((script, candidates))?;
        Ok(())
    }

    // Adds one whose script is too deep.
    fn add_deep(&mut self, candidates: &NameList)
        ensures { (form : PartForm) (forms : List PartForm) → IsTooDeep (selector_script form) → form.1 ≡ candidates.now
            → Gathers forms self.old → Gathers (forms ++ form ∷ []) self.new }
    {
        self.count_one(candidates);
        self.deep = true;
    }

    // Adds one whose script has too many names.
    fn add_many(&mut self, candidates: &NameList)
        ensures { (form : PartForm) (forms : List PartForm) → SpellsTooMany (atoms.Script false) form.0 → form.1 ≡ candidates.now
            → Gathers forms self.old → Gathers (forms ++ form ∷ []) self.new }
    {
        self.count_one(candidates);
        self.many = true;
    }

    // Adds one whose script goes beyond a limit.
    fn add_beyond(&mut self, limit: Limit, candidates: &NameList)
        ensures { (form : PartForm) (forms : List PartForm) → IsScriptRead false form.0 (Err (TooMany limit)) → form.1 ≡ candidates.now
            → Gathers forms self.old → Gathers (forms ++ form ∷ []) self.new }
    {
        match limit {
            Limit::Levels => self.add_deep(candidates),
            _ => self.add_many(candidates),
        }
    }

    // Adds one whose script is at fault, if it is a script.
    fn add_fault(&mut self, fault: LineFault, candidates: &NameList) -> Result<(), LineFault>
        ensures { (form : PartForm) → IsScriptRead false form.0 (Err fault) → form.1 ≡ candidates.now
            → Adds (Some form) self.old self.new result }
    {
        match fault {
            LineFault::TooMany(limit) => {
                self.add_beyond(limit, candidates);
                Ok(())
            }
            fault => Err(fault),
        }
    }

    // Adds one by what its script is read as.
    fn add_read(
        &mut self,
        script: Result<Script, LineFault>,
        candidates: NameList,
    ) -> Result<(), LineFault>
        requires some { 1 ≤ length candidates }
        requires picks { IfOk script HasNoPicks }
        requires acc { IfOk script HasNoAcc }
        ensures { (form : PartForm) → IsScriptRead false form.0 script → form.1 ≡ candidates → Adds (Some form) self.old self.new result }
    {
        match script {
            Ok(script) => {
                self.add_script(script, candidates)?;
                Ok(())
            }
            Err(fault) => self.add_fault(fault, &candidates),
        }
    }

    /// Adds the selector that pieces are: a script, `among` and its candidates.
    pub fn add(&mut self, alloc: Global, text: &[u8], pieces: &[Piece]) -> Result<(), LineFault>
        requires short { length text.now ≤ LINE_BYTES }
        requires whole { ArePiecesOf text.now pieces.now }
        ensures { Adds (part_of (words_among text.now pieces.now)) self.old self.new result }
    {
        let Some((before, behind)) = cut(text, pieces, b"among") else {
            return Err(LineFault::Syntax);
        };
        match names(alloc, text, behind) {
            Ok(candidates) => self.add_read(script(alloc, text, before, false), candidates),
            Err(fault) => Err(fault),
        }
    }
}
