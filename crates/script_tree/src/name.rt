// Names.

ghost use Rattle.std.specs.Prelude.{◌≡◌, ◌<◌, ◌↔◌, length, slice_get, Some, IsTrue, IfSome, IfNone, false};
ghost use Rattle.script_tree.specs.Names.{is_word, reserved_a_to_f, reserved_i_to_p, reserved_r_to_t, is_reserved, is_name, starts_well};
ghost use Rattle.std.specs.Str.{bytes_eq};
ghost use Rattle.std.specs.List.{list_all, list_any};

use crate::bytes::{is_same, is_word};
use crate::items::Items;
use crate::limits::NAME_BYTES;
use arrayvec::ArrayVec;
use std::marker::Model;
use std::str;

/// A name: a word of 1 to 32 bytes of ASCII letters, digits and `_` that begins with no digit and is not reserved.
/// Contracts see its bytes. It is held without allocation.
#[derive(Debug, Drop)]
pub struct Name {
    bytes: ArrayVec<u8, NAME_BYTES>,
}

impl Model for Name {
    ghost use Rattle.std.specs.Prelude.{List, ℕ, IsTrue};
    ghost use Rattle.script_tree.specs.Names.{is_name};

    ghost Value = { List ℕ };

    ghost view = { λ n. n.bytes.items };

    ghost invariant = { λ n. IsTrue (is_name n.bytes.items) };
}

fn is_reserved_a_to_f(text: &[u8]) -> bool
    ensures { result ≡ list_any (bytes_eq text.now) reserved_a_to_f }
{
    is_same(text, b"acc")
        || is_same(text, b"among")
        || is_same(text, b"choose")
        || is_same(text, b"else")
        || is_same(text, b"false")
        || is_same(text, b"fire")
        || is_same(text, b"fold")
}

fn is_reserved_i_to_p(text: &[u8]) -> bool
    ensures { result ≡ list_any (bytes_eq text.now) reserved_i_to_p }
{
    is_same(text, b"if")
        || is_same(text, b"look")
        || is_same(text, b"pick1")
        || is_same(text, b"pick2")
        || is_same(text, b"pick3")
        || is_same(text, b"pick4")
}

fn is_reserved_r_to_t(text: &[u8]) -> bool
    ensures { result ≡ list_any (bytes_eq text.now) reserved_r_to_t }
{
    is_same(text, b"read")
        || is_same(text, b"signal")
        || is_same(text, b"source")
        || is_same(text, b"then")
        || is_same(text, b"thread")
        || is_same(text, b"true")
}

fn is_reserved(text: &[u8]) -> bool
    ensures { result ≡ is_reserved text.now }
{
    is_reserved_a_to_f(text) || is_reserved_i_to_p(text) || is_reserved_r_to_t(text)
}

fn starts_well(text: &[u8]) -> bool
    ensures { result ≡ starts_well text.now }
{
    match text {
        [] => false,
        [first, ..] => !first.is_ascii_digit(),
    }
}

fn is_all_word(text: &[u8]) -> bool
    ensures { result ≡ list_all is_word text.now }
{
    text.iter().all(|byte| is_word(*byte))
}

impl Name {
    /// The name that bytes spell, or none where they are no name. Takes no memory.
    pub fn of_bytes(text: &[u8]) -> Option<Name>
        ensures some { IfSome result (λ n. (n ≡ text.now) × IsTrue (is_name text.now)) }
        ensures none { IfNone result (is_name text.now ≡ false) }
    {
        if !starts_well(text) {
            return None;
        }
        if !is_all_word(text) {
            return None;
        }
        if text.len() > NAME_BYTES {
            return None;
        }
        if is_reserved(text) {
            return None;
        }
        let mut name = ArrayVec::new();
        let _ = name.try_extend_from_slice(text);
        Some(Name { bytes: name })
    }

    /// The name that a text spells, or none where it is no name. Takes no memory.
    pub fn of(text: &str) -> Option<Name>
        ensures some { IfSome result (λ n. (n ≡ text.now) × IsTrue (is_name text.now)) }
        ensures none { IfNone result (is_name text.now ≡ false) }
    {
        Name::of_bytes(text.as_bytes())
    }

    /// How many bytes it has. With it comes what every name keeps.
    pub fn len(&self) -> usize
        ensures value { result ≡ length self.now }
        ensures kept { IsTrue (is_name self.now) }
    {
        self.bytes.len()
    }

    /// Its byte at an index, counted from 0.
    pub fn get(&self, index: usize) -> &u8
        requires { index < length self.now }
        ensures { slice_get self.now index ≡ Some result.now }
    {
        &self.bytes[index]
    }

    /// Its bytes.
    pub fn as_slice(&self) -> &[u8]
        ensures { result.now ≡ self.now }
    {
        self.bytes.as_slice()
    }

    /// Its text. Takes no memory.
    pub fn as_str(&self) -> &str
        ensures text { result.now ≡ self.now }
        ensures name { IsTrue (is_name self.now) }
    {
        match str::from_utf8(self.bytes.as_slice()) {
            Ok(text) => text,
            // Letters, digits and `_` are ASCII.
            Err(_) => unreachable!(),
        }
    }

    /// Whether the two are the same name.
    pub fn same(&self, other: &Name) -> bool
        ensures { IsTrue result ↔ (self.now ≡ other.now) }
    {
        self.as_slice() == other.as_slice()
    }

    /// An equal name. Takes no memory.
    pub fn copy(&self) -> Name
        ensures { result ≡ self.now }
    {
        let mut bytes = ArrayVec::new();
        let _ = bytes.try_extend_from_slice(self.bytes.as_slice());
        Name { bytes }
    }
}

/// A growing list of names.
pub type NameList = Items<Name>;
