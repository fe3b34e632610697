//! Laws of the grammar.

ghost use Rattle.std.specs.Prelude.{◌≡◌, ◌++◌, ℕ, ◌<◌, ◌≤◌, Bool, List, length, slice_index};
ghost use Rattle.script_tree.specs.Tree.{Tree};
ghost use Rattle.script_tree.specs.Scripts.{all_leaves};
ghost use Rattle.script_grammar.specs.declared.token.Token.{Token};
ghost use Rattle.script_grammar.specs.Grammar.{BeginsWithin, IsSyntaxAt, IsTooDeepAt, nested};
ghost use Rattle.script_grammar.specs.Grammar.{Spells, Written, IsScript, tokens, tree, word_tree};
ghost use Rattle.script_grammar.specs.Canonical.{canonical};
ghost use Rattle.script_grammar.specs.Refusals.{IsFirstFaultAt};
ghost use Rattle.script_grammar.specs.Words.{all_words};

/// No text spells two trees.
pub fn one_tree()
    ensures { (text : List Token) (t u : Tree) → Spells text t → Spells text u → t ≡ u }
{}

/// The canonical text of a tree spells it, and no text that spells it is shorter or nests less deep.
pub fn canonical_spells()
    ensures spells { (t : Tree) → Spells (tokens (canonical t)) t }
    ensures shortest { (text : List Token) (t : Tree) → Spells text t → length (tokens (canonical t)) ≤ length text }
    ensures shallowest { (limit : ℕ) (text : List Token) (t : Tree) → Spells text t → BeginsWithin limit text
        → BeginsWithin limit (tokens (canonical t)) }
{}

/// The leaves of a tree are the words of each text that spells it, so a test holds of all leaves exactly where it holds
/// of all words.
pub fn leaves_are_words()
    ensures { (test : Tree → Bool) (text : List Token) (t : Tree) → Spells text t
        → all_leaves test t ≡ all_words (λ word. test (word_tree word)) text }
{}

/// The nesting of a token depends on no later token: two scripts that begin with the same tokens nest them alike.
pub fn one_nesting()
    ensures { (w v : Written) (text a b : List Token) (j : ℕ) → IsScript w → IsScript v → tokens w ≡ text ++ a → tokens v ≡ text ++ b
        → j < length text → slice_index (nested 0 w) j ≡ slice_index (nested 0 v) j }
{}

/// At most one answer fits a text, and with at most one place.
pub fn one_answer()
    ensures shallow { (limit : ℕ) (text : List Token) (k : ℕ) → BeginsWithin limit text → IsTooDeepAt limit text k → ⊥ }
    ensures apart { (limit : ℕ) (text : List Token) (k j : ℕ) → IsFirstFaultAt limit text k → IsTooDeepAt limit text j → ⊥ }
    ensures one_fault { (text : List Token) (k j : ℕ) → IsSyntaxAt text k → IsSyntaxAt text j → k ≡ j }
    ensures one_depth { (limit : ℕ) (text : List Token) (k j : ℕ) → IsTooDeepAt limit text k → IsTooDeepAt limit text j → k ≡ j }
{}
