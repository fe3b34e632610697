// Where a thread stands.

/// Where a thread stands behind some lines: the call from which on its next well-named one is to be found, counted from
/// 0, how many of its calls were made, and the greatest version of these.
#[derive(Clone, Copy, PartialEq, Eq, Debug)]
pub struct Seat {
    pub next: u32,
    pub made: u32,
    pub last: u32,
}
