// What a node holds.

/// Why a value is missing. A fault is itself a value: it is stored, compared by its kind and printed.
#[derive(Clone, Copy, PartialEq, Eq, Debug)]
pub enum Fault {
    /// A result out of the range of `i64`.
    Overflow,
    /// A division by 0, or the remainder of one.
    ZeroDivisor,
    /// An operand of the wrong kind.
    Kind,
    /// A selector's number that names no candidate.
    NoChoice,
}

/// What a node holds: a number, a truth, or the fault in place of either.
#[derive(Clone, Copy, PartialEq, Eq, Debug)]
pub enum Value {
    Int(i64),
    Bool(bool),
    Fault(Fault),
}
