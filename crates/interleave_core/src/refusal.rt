// Why a call is not admitted.

/// Why a call can't begin now, whoever its caller is.
#[derive(Clone, Copy, PartialEq, Eq, Debug)]
pub enum Refusal {
    /// The place of the first name, sets first and then looks, counted from 1, that is none of a source (in a set) or of a node
    /// (in a look).
    UnknownName(u32),
    /// The limit of versions, which the calls before have used up.
    VersionsUsedUp(u32),
    /// There is no memory for what the call will need. The call itself may begin.
    Memory,
}
