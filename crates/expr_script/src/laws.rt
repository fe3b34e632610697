//! Laws of scripts as text.

ghost use Rattle.std.specs.Prelude.{◌≡◌, ◌≢◌, ◌≤◌, ◌<◌, ◌+◌, ◌++◌, ℕ, Bool, List, [], Result, Ok, Err, length, All};
ghost use Rattle.script_tree.specs.Scripts.{Scripted};
ghost use Rattle.script_tree.specs.declared.limits.TheConstants.{SELECTORS};
ghost use Rattle.expr_script.specs.declared.faults.ScriptFault.{ScriptFault};
ghost use Rattle.expr_script.specs.declared.faults.ScriptFault.TheVariants.{Memory};
ghost use Rattle.expr_script.specs.declared.pieces.Piece.{Piece};
ghost use Rattle.expr_script.specs.Cut.{IsPiece, IsCut};
ghost use Rattle.expr_script.specs.Joined.{behind, joined, StandApart};
ghost use Rattle.expr_script.specs.Pieces.{pieces, words, IsPieceOf};
ghost use Rattle.expr_script.specs.Printed.{printed, printed_words};
ghost use Rattle.expr_script.specs.Spelled.{FormedScript, FormedBody, IsShallow, SpellsScript, SpellsBody, IsScriptAnswer, IsBodyAnswer};

/// A text has one cut into words and signs, and its pieces are it. Each of its pieces is a whole word or sign, has bytes
/// and lies in the text.
pub fn one_cut()
    ensures cut { (text : List ℕ) → IsCut text (pieces text) }
    ensures one { (text : List ℕ) (found other : List Piece) → IsCut text found → IsCut text other → found ≡ other }
    ensures whole { (text : List ℕ) (piece : Piece) → IsPieceOf text piece → IsPiece text piece }
    ensures some { (text : List ℕ) (piece : Piece) → IsPieceOf text piece → 0 < piece.len }
    ensures within { (text : List ℕ) (piece : Piece) → IsPieceOf text piece → piece.from + piece.len ≤ length text }
{}

/// Words have one answer, want of memory aside. So each answer comes exactly where what it says holds: a script where the
/// words spell it, and each fault where its cause is there, at its place.
pub fn one_answer()
    ensures script { (acc : Bool) (words : List (List ℕ)) (places : ℕ → ℕ) (a b : Result Scripted ScriptFault)
        → IsScriptAnswer acc words places a → IsScriptAnswer acc words places b → a ≢ Err Memory → b ≢ Err Memory → a ≡ b }
    ensures body { (picks : ℕ) (words : List (List ℕ)) (places : ℕ → ℕ) (a b : Result Scripted ScriptFault)
        → IsBodyAnswer picks words places a → IsBodyAnswer picks words places b → a ≢ Err Memory → b ≢ Err Memory → a ≡ b }
{
    script_grammar::laws::one_tree();
    script_grammar::laws::one_answer();
}

/// Words that stand apart are cut again as they were written. The words of a text are never empty, and are written in no
/// more bytes than the text has.
pub fn joined_words()
    ensures back { (list : List (List ℕ)) → StandApart [] list → words (joined list) ≡ list }
    ensures some { (text : List ℕ) → All (λ word. 0 < length word) (words text) }
    ensures short { (text : List ℕ) → length (joined (words text)) ≤ length text }
{}

/// The canonical text of a well-formed script, which is one of `Script`'s type, spells that script, as long as it is
/// nested within the limit; so it is read as the same script. The scripts that words spell are such scripts, and no words
/// that spell one are fewer than the canonical ones. Wherever such words stand in a text, the canonical ones in their
/// place are no longer, and stand apart from what is before and behind them. So a canonical text has no more bytes than
/// one that it was read from.
pub fn canonical_script()
    ensures formed { (acc : Bool) (list : List (List ℕ)) (script : Scripted) → SpellsScript acc list script
        → FormedScript acc script × IsShallow script }
    ensures spells { (acc : Bool) (script : Scripted) → FormedScript acc script → IsShallow script
        → SpellsScript acc (words (printed script)) script }
    ensures again { (acc : Bool) (script : Scripted) (places : ℕ → ℕ) (answer : Result Scripted ScriptFault) → FormedScript acc script
        → IsShallow script → IsScriptAnswer acc (words (printed script)) places answer → answer ≢ Err Memory → answer ≡ Ok script }
    ensures words { (acc : Bool) (script : Scripted) → FormedScript acc script → words (printed script) ≡ printed_words script }
    ensures fewest { (acc : Bool) (list : List (List ℕ)) (script : Scripted) → SpellsScript acc list script
        → length (printed_words script) ≤ length list }
    ensures apart { (acc : Bool) (script : Scripted) (last : List ℕ) (more : List (List ℕ)) → FormedScript acc script → StandApart [] more
        → StandApart last (printed_words script ++ more) }
    ensures within { (acc : Bool) (list : List (List ℕ)) (script : Scripted) (last : List ℕ) (more : List (List ℕ))
        → SpellsScript acc list script → length (behind last (printed_words script ++ more)) ≤ length (behind last (list ++ more)) }
    ensures short { (acc : Bool) (text : List ℕ) (script : Scripted) → SpellsScript acc (words text) script
        → length (printed script) ≤ length text }
{
    script_grammar::laws::canonical_spells();
    script_grammar::laws::leaves_are_words();
    one_answer();
}

/// The same of a body over at most four picks.
pub fn canonical_body()
    ensures formed { (picks : ℕ) (list : List (List ℕ)) (script : Scripted) → SpellsBody picks list script
        → FormedBody picks script × IsShallow script }
    ensures spells { (picks : ℕ) (script : Scripted) → picks ≤ SELECTORS → FormedBody picks script → IsShallow script
        → SpellsBody picks (words (printed script)) script }
    ensures again { (picks : ℕ) (script : Scripted) (places : ℕ → ℕ) (answer : Result Scripted ScriptFault) → picks ≤ SELECTORS
        → FormedBody picks script → IsShallow script → IsBodyAnswer picks (words (printed script)) places answer → answer ≢ Err Memory
        → answer ≡ Ok script }
    ensures words { (picks : ℕ) (script : Scripted) → picks ≤ SELECTORS → FormedBody picks script
        → words (printed script) ≡ printed_words script }
    ensures fewest { (picks : ℕ) (list : List (List ℕ)) (script : Scripted) → SpellsBody picks list script
        → length (printed_words script) ≤ length list }
    ensures apart { (picks : ℕ) (script : Scripted) (last : List ℕ) (more : List (List ℕ)) → picks ≤ SELECTORS → FormedBody picks script
        → StandApart [] more → StandApart last (printed_words script ++ more) }
    ensures within { (picks : ℕ) (list : List (List ℕ)) (script : Scripted) (last : List ℕ) (more : List (List ℕ))
        → SpellsBody picks list script → length (behind last (printed_words script ++ more)) ≤ length (behind last (list ++ more)) }
    ensures short { (picks : ℕ) (text : List ℕ) (script : Scripted) → SpellsBody picks (words text) script
        → length (printed script) ≤ length text }
{
    script_grammar::laws::canonical_spells();
    script_grammar::laws::leaves_are_words();
    one_answer();
}
