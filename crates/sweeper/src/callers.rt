// Sets of callers, and what each caller sleeps on.

ghost use Rattle.std.specs.Prelude.{◌<◌, vec_len};

use script_tree::memory::OutOfMemory;
use std::alloc::Global;
use std::sync::Condvar;

const WORD_BITS: u32 = 64;

const WORDS: u32 = 4;

/// A set of callers, 1 to 256: a bit each, where the bit of caller 256 is that of 0, which is no caller's number. It is filled under
/// the lock and read outside.
#[derive(Clone, Copy, Drop)]
pub(crate) struct CallerSet {
    words: [u64; 4],
}

impl CallerSet {
    /// The set without any caller.
    pub(crate) fn new() -> CallerSet {
        CallerSet { words: [0; 4] }
    }

    /// Adds a caller.
    pub(crate) fn insert(&mut self, caller: u32) {
        self.words[(caller / WORD_BITS % WORDS) as usize] |= 1 << (caller % WORD_BITS);
    }
}

/// What each caller sleeps on: one Condvar a caller, so that a move wakes those alone whom it concerns.
#[derive(Drop)]
pub(crate) struct Beds {
    beds: Vec<Condvar>,
    ghost some: { 0 < vec_len beds },
}

impl Beds {
    /// The beds of so many callers. Takes all memory that they will need.
    pub(crate) fn new(alloc: Global, callers: u32) -> Result<Beds, OutOfMemory>
        requires { 0 < callers }
    {
        let mut beds = Vec::with_capacity(alloc, callers as usize)?;
        for _ in 0..callers {
            beds.push_reserved(Condvar::new());
        }
        Ok(Beds { beds })
    }

    /// What a caller sleeps on.
    pub(crate) fn of(&self, caller: u32) -> &Condvar {
        &self.beds[caller as usize % self.beds.len()]
    }

    /// Wakes callers, each of which looks again under the lock whether it may go on.
    pub(crate) fn wake(&self, callers: &CallerSet) {
        let [first, second, third, fourth] = callers.words;
        self.wake_word(first, 0);
        self.wake_word(second, WORD_BITS);
        self.wake_word(third, 2 * WORD_BITS);
        self.wake_word(fourth, 3 * WORD_BITS);
    }

    // Wakes the callers of a word, whose first bit is that of a caller.
    fn wake_word(&self, word: u64, first: u32)
        requires { first < 256 }
    {
        let mut rest = word;
        while rest != 0 {
            self.of(first + rest.trailing_zeros()).notify_all();
            rest &= rest - 1;
        }
    }
}
