// Bits of words.

ghost use Rattle.std.specs.Prelude.{◌≡◌, ◌<◌, ◌≤◌, ◌/◌, true, length, IfSome, IfNone};
ghost use Rattle.script_tree.specs.Bits.{is_set, HasNoBit, IsLowestBit};
ghost use Rattle.node_set.specs.Bits.{IsLowestFrom, HasNoneFrom, Summarizes, with_bit, without_bit};

pub(crate) const WORD_BITS: u32 = 64;

// Whether the bit is set.
pub(crate) fn is_set(words: &[u64], bit: u32) -> bool
    requires { bit / 64 < length words.now }
    ensures { result ≡ is_set words.now bit }
{
    words[(bit / WORD_BITS) as usize] & (1 << (bit % WORD_BITS)) != 0
}

// Sets the bit.
pub(crate) fn set(words: &mut [u64], bit: u32)
    requires { bit / 64 < length words.old }
    ensures { words.new ≡ with_bit words.old bit }
{
    words[(bit / WORD_BITS) as usize] |= 1 << (bit % WORD_BITS);
}

// Clears the bit.
pub(crate) fn clear(words: &mut [u64], bit: u32)
    requires { bit / 64 < length words.old }
    ensures { words.new ≡ without_bit words.old bit }
{
    words[(bit / WORD_BITS) as usize] &= !(1 << (bit % WORD_BITS));
}

// Sets the bit, and the summary's bit of its word.
pub(crate) fn put_in(words: &mut [u64], summary: &mut [u64], bit: u32)
    requires inside { bit / 64 < length words.old }
    requires few { length words.old ≤ 256 }
    requires summary { length summary.old ≡ 4 }
    requires summarizes { Summarizes summary.old words.old }
    ensures words { words.new ≡ with_bit words.old bit }
    ensures summarizes { Summarizes summary.new words.new }
{
    set(words, bit);
    set(summary, bit / WORD_BITS);
}

// Clears the bit, and the summary's bit of its word where no other bit of the word is set.
pub(crate) fn take_out(words: &mut [u64], summary: &mut [u64], bit: u32)
    requires there { is_set words.old bit ≡ true }
    requires inside { bit / 64 < length words.old }
    requires few { length words.old ≤ 256 }
    requires summary { length summary.old ≡ 4 }
    requires summarizes { Summarizes summary.old words.old }
    ensures words { words.new ≡ without_bit words.old bit }
    ensures summarizes { Summarizes summary.new words.new }
{
    clear(words, bit);
    if words[(bit / WORD_BITS) as usize] != 0 {
        return;
    }
    clear(summary, bit / WORD_BITS);
}

// The lowest bit that is set from `from` on, found a word at a time.
#[inline(always)]
pub(crate) fn lowest_from(words: &[u64], from: u32) -> Option<u32>
    requires { length words.now < 1024 }
    ensures some { IfSome result (IsLowestFrom words.now from) }
    ensures none { IfNone result (HasNoneFrom words.now from) }
{
    let mut low = from % WORD_BITS;
    for index in from / WORD_BITS..words.len() as u32 {
        if let Some(bit) = lowest_bit(words[index as usize], low) {
            return Some(index * WORD_BITS + bit);
        }
        low = 0;
    }
    None
}

// The same where the summary says which words are not 0.
#[inline(always)]
pub(crate) fn next_set(words: &[u64], summary: &[u64], from: u32) -> Option<u32>
    requires inside { from / 64 < length words.now }
    requires few { length words.now ≤ 256 }
    requires summary { length summary.now ≡ 4 }
    requires summarizes { Summarizes summary.now words.now }
    ensures some { IfSome result (IsLowestFrom words.now from) }
    ensures none { IfNone result (HasNoneFrom words.now from) }
{
    let here = from / WORD_BITS;
    if let Some(bit) = lowest_bit(words[here as usize], from % WORD_BITS) {
        return Some(here * WORD_BITS + bit);
    }
    match lowest_from(summary, here + 1) {
        None => None,
        Some(later) => Some(later * WORD_BITS + words[later as usize].trailing_zeros()),
    }
}

// The lowest bit that is 1 from bit `from` on.
#[inline(always)]
pub(crate) fn lowest_bit(word: u64, from: u32) -> Option<u32>
    requires { from < 64 }
    ensures some { IfSome result (IsLowestBit word from) }
    ensures none { IfNone result (HasNoBit word from) }
{
    let rest = word & (u64::MAX << from);
    if rest == 0 {
        None
    } else {
        Some(rest.trailing_zeros())
    }
}
