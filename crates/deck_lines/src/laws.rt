//! Laws of lines.

ghost use Rattle.std.specs.Prelude.{◌≡◌, ◌≢◌, ℕ, ◌≤◌, false, List, [], length};
ghost use Rattle.std.specs.List.{list_any};
ghost use Rattle.script_tree.specs.declared.value.Value.{Value};
ghost use Rattle.script_tree.specs.Printed.{value_text};
ghost use Rattle.expr_script.specs.Joined.{joined, StandApart};
ghost use Rattle.deck_lines.specs.declared.fault.LineFault.{LineFault};
ghost use Rattle.deck_lines.specs.declared.fault.LineFault.TheVariants.{Memory};
ghost use Rattle.deck_lines.specs.declared.line.Line.{Line};
ghost use Rattle.deck_lines.specs.Canonical.{value_words, canonical_words, line_text};
ghost use Rattle.deck_lines.specs.Forms.{Words, Form, Fits};
ghost use Rattle.deck_lines.specs.Lines.{IsLine, IsLineFault};
ghost use Rattle.deck_lines.specs.Texts.{is_end, line_words};

/// No words have two forms.
pub fn one_form()
    ensures { (words : Words) (a b : Form) → Fits words a → Fits words b → a ≡ b }
{}

/// Want of memory aside, words that say something have no fault, and words that say nothing have one. So each answer
/// comes exactly where its cause is there.
pub fn one_answer()
    ensures apart { (words : Words) (line : Line) (fault : LineFault) → IsLine words line → IsLineFault words fault → fault ≡ Memory }
    ensures fault { (words : Words) (a b : LineFault) → IsLineFault words a → IsLineFault words b → a ≢ Memory → b ≢ Memory → a ≡ b }
{
    script_grammar::laws::one_answer();
}

/// Words say one line. So where a line is read, no other line is what its words say.
pub fn one_line()
    ensures { (words : Words) (a b : Line) → IsLine words a → IsLine words b → a ≡ b }
{
    expr_script::laws::one_answer();
}

/// The canonical text of a line that some words say: its words stand apart, so it is cut into the line's canonical words,
/// which say the same line. So it is read as the same line again. It is one line, and no longer than a line that it was
/// read from.
pub fn canonical_line()
    ensures says { (words : Words) (line : Line) → IsLine words line → IsLine (canonical_words line) line }
    ensures apart { (words : Words) (line : Line) → IsLine words line → StandApart [] (canonical_words line) }
    ensures cut { (words : Words) (line : Line) → IsLine words line → line_words (line_text line) ≡ canonical_words line }
    ensures back { (words : Words) (line : Line) → IsLine words line → IsLine (line_words (line_text line)) line }
    ensures whole { (words : Words) (line : Line) → IsLine words line → list_any is_end (line_text line) ≡ false }
    ensures short { (text : List ℕ) (line : Line) → IsLine (line_words text) line → length (line_text line) ≤ length text }
{
    expr_script::laws::canonical_script();
    expr_script::laws::canonical_body();
    expr_script::laws::joined_words();
}

/// The words of a value, one after the other, are the value as it is printed.
pub fn written_value()
    ensures { (value : Value) → joined (value_words value) ≡ value_text value }
{}
