// The record of a run. `call_log` has the calls on it.

use crate::call::{Call, Reply, ValueList};
use script_tree::items::Items;

/// A call that was made: whose it was, counted from 1, its version, counted from 1, the call and its reply.
#[derive(Debug, Drop)]
pub struct Logged {
    pub caller: u32,
    pub version: u32,
    pub call: Call,
    pub reply: Reply,
}

/// Why a call was not made.
#[derive(Clone, Copy, PartialEq, Eq, Debug)]
pub enum Why {
    /// The place of the first name, sets first and then looks, counted from 1, that is none of a source (in a set) or
    /// of a node (in a look).
    UnknownName(u32),
    /// The limit of versions, which the calls before had used up.
    VersionsUsedUp(u32),
}

/// A call that was not made: whose it was, which of its caller's calls, both counted from 1, and why.
#[derive(Clone, Copy, PartialEq, Eq, Debug)]
pub struct Refused {
    pub caller: u32,
    pub number: u32,
    pub why: Why,
}

/// The calls that were not made, by caller and then number.
pub type RefusedList = Items<Refused>;
