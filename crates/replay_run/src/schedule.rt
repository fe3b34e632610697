// From a schedule's bytes to the numbers of threads.

ghost use Rattle.std.specs.Prelude.{◌≡◌, ◌<◌, ◌≤◌, ◌^◌, true, length, IfOk};
ghost use Rattle.std.specs.List.{list_all, position_or_len};
ghost use Rattle.std.specs.Char.{is_ascii_digit};
ghost use Rattle.expr_script.specs.Words.{is_digits, value};
ghost use Rattle.replay_run.specs.Schedule.{is_cut, number_of, with_word, schedule_of, names_thread, first_unnamed};

use script_tree::items::Items;
use script_tree::memory::OutOfMemory;
use std::alloc::Global;

/// The turns of a schedule: numbers of threads, which count from 1, in their order. A number that names no thread may stand in it.
pub type ScheduleList = Items<u32>;

// How many digits a number may have.
const DIGITS: usize = 9;

/// The schedule that a text says: its words, cut at blanks, carriage returns and line feeds, as numbers in their order. A word that is
/// not 1 to 9 decimal digits is 0 there, which names no thread. Takes memory.
pub fn read_schedule(alloc: Global, bytes: &[u8]) -> Result<ScheduleList, OutOfMemory>
    ensures { IfOk result (λ schedule. schedule ≡ schedule_of bytes.now) }
{
    let mut schedule = Items::new(alloc);
    let mut rest = bytes;
    while !rest.is_empty() {
        let (word, behind) = first_word(rest);
        if !word.is_empty() {
            schedule.push(number_of(word))?;
        }
        rest = behind;
    }
    Ok(schedule)
}

/// The place of the first number that names no thread, counted from 1, where there are so many threads. None where each number names
/// one. Takes no memory.
pub fn first_unnamed(threads: u32, schedule: &[u32]) -> Option<u32>
    requires { length schedule.now < 2 ^ 32 }
    ensures { result ≡ first_unnamed threads schedule.now }
{
    for index in 0..schedule.len() {
        if !names_thread(threads, schedule[index]) {
            return Some(index as u32 + 1);
        }
    }
    None
}

fn names_thread(threads: u32, number: u32) -> bool
    ensures { result ≡ names_thread threads number }
{
    1 <= number && number <= threads
}

// What stands before the first byte at which words are cut, and what stands behind that byte.
fn first_word(text: &[u8]) -> (&[u8], &[u8])
    requires { 0 < length text.now }
    ensures first { schedule_of text.now ≡ with_word result.0.now (schedule_of result.1.now) }
    ensures shorter { length result.1.now < length text.now }
{
    let at = cut_place(text);
    if at == text.len() {
        return (text, &[]);
    }
    (&text[..at], &text[at + 1..])
}

// The place of the first byte at which words are cut, or the length where there is none.
#[tactic(auto, using(deck_lines::proofs::CutLaws::cut_laws))]
fn cut_place(text: &[u8]) -> usize
    ensures value { result ≡ position_or_len is_cut text.now }
    ensures within { result ≤ length text.now }
{
    text.iter().take_while(|byte| !is_cut(**byte)).count()
}

// Whether words are cut at a byte.
fn is_cut(byte: u8) -> bool
    ensures { result ≡ is_cut byte }
{
    (byte == b' ' || byte == b'\t') || (byte == b'\r' || byte == b'\n')
}

// The number that a word is, and 0 where it is none.
fn number_of(word: &[u8]) -> u32
    ensures { result ≡ number_of word.now }
{
    if is_digits(word) && word.len() <= DIGITS {
        return value(word);
    }
    0
}

fn is_digits(word: &[u8]) -> bool
    ensures { result ≡ is_digits word.now }
{
    !word.is_empty() && all_digits(word)
}

fn all_digits(word: &[u8]) -> bool
    ensures { result ≡ list_all is_ascii_digit word.now }
{
    word.iter().all(|byte| byte.is_ascii_digit())
}

// The number that digits spell.
fn value(digits: &[u8]) -> u32
    requires few { length digits.now ≤ 9 }
    requires digits { list_all is_ascii_digit digits.now ≡ true }
    ensures { result ≡ value 0 digits.now }
{
    let mut total: u32 = 0;
    for digit in digits {
        total = total * 10 + u32::from(digit.saturating_sub(b'0'));
    }
    total
}
