// The number behind a command's word, which must be plain digits: reading it as a number would also take a sign.

ghost use Rattle.std.specs.Prelude.{◌≡◌, IfSome, IfNone};
ghost use Rattle.std.specs.Str.Parse.{digits_value};
ghost use Rattle.command_words.specs.Words.{IsNumber};

use crate::options::are_digits;

/// How many digits a number has at most.
const DIGITS: usize = 20;

/// The number of 64 bits that a text of 1 to 20 decimal digits writes.
#[tactic(auto, using(crate::proofs::Numbers::number_laws))]
pub fn number_of(text: &str) -> Option<u64>
    ensures some { IfSome result (λ number. IsNumber text.now × (number ≡ digits_value 10 text.now)) }
    ensures none { IfNone result (IsNumber text.now → ⊥) }
{
    if text.is_empty() || text.len() > DIGITS {
        return None;
    }
    if !are_digits(text.as_bytes()) {
        return None;
    }
    text.parse::<u64>().ok()
}
