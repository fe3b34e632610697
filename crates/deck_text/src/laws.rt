//! Laws of decks as text.

ghost use Rattle.std.specs.Prelude.{◌≡◌, ◌≢◌, ◌≤◌, ◌+◌, ℕ, List, length, map, All, Result, Ok, Err};
ghost use Rattle.script_tree.specs.declared.limits.TheConstants.{DECK_BYTES};
ghost use Rattle.deck_lines.specs.Canonical.{line_text};
ghost use Rattle.deck_text.specs.declared.fault.DeckFault.{DeckFault};
ghost use Rattle.deck_text.specs.declared.fault.DeckFault.TheVariants.{Memory};
ghost use Rattle.deck_text.specs.Decks.{Decked};
ghost use Rattle.deck_text.specs.Kept.{IsCanonical};
ghost use Rattle.deck_text.specs.Lines.{lines};
ghost use Rattle.deck_text.specs.Printed.{canonical, lines_of};
ghost use Rattle.deck_text.specs.Reasons.{IsDeckFault, ReadsDeck};
ghost use Rattle.deck_text.specs.Spelled.{Spell, SpellsDeck};

/// Bytes have one answer, want of memory aside: they spell at most one deck; bytes that spell a deck have no fault; and
/// bytes have at most one fault, so none but the first faulty line is named, and it with no reason but its first.
pub fn one_answer()
    ensures deck { (bytes : List ℕ) (a b : Decked) → SpellsDeck bytes a → SpellsDeck bytes b → a ≡ b }
    ensures apart { (bytes : List ℕ) (deck : Decked) (fault : DeckFault) → SpellsDeck bytes deck → IsDeckFault bytes fault
        → fault ≡ Memory }
    ensures fault { (bytes : List ℕ) (a b : DeckFault) → IsDeckFault bytes a → IsDeckFault bytes b → a ≢ Memory → b ≢ Memory → a ≡ b }
{
    deck_lines::laws::one_form();
    deck_lines::laws::one_answer();
    deck_lines::laws::one_line();
}

/// The canonical text of a deck that some lines spell, as every `Deck` is: it is cut into the deck's canonical lines, each
/// of which says its line within all limits of a line, and is not too long. Where the text is within the bytes of a deck
/// it spells the same deck, so it is read as that deck, want of memory aside. It has at most one byte more than a text
/// that the deck was read from: a last line feed.
pub fn canonical_deck()
    ensures lines { (text : List (List ℕ)) (deck : Decked) → Spell text deck → lines (canonical deck) ≡ map line_text (lines_of deck) }
    ensures each { (text : List (List ℕ)) (deck : Decked) → Spell text deck → All IsCanonical (lines_of deck) }
    ensures back { (text : List (List ℕ)) (deck : Decked) → Spell text deck → length (canonical deck) ≤ DECK_BYTES
        → SpellsDeck (canonical deck) deck }
    ensures again { (text : List (List ℕ)) (deck : Decked) (answer : Result Decked DeckFault) → Spell text deck
        → length (canonical deck) ≤ DECK_BYTES → ReadsDeck (canonical deck) answer → answer ≢ Err Memory → answer ≡ Ok deck }
    ensures short { (bytes : List ℕ) (deck : Decked) → SpellsDeck bytes deck → length (canonical deck) ≤ length bytes + 1 }
{
    deck_lines::laws::canonical_line();
    one_answer();
}
