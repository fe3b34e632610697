// Which words may stand for values.

/// Which words may stand for a value, besides numbers and truths.
#[derive(Clone, Copy, Debug)]
pub enum Atoms {
    /// Names, and `acc` where it is allowed.
    Script(bool),
    /// The first so many of `pick1` to `pick4`.
    Body(u32),
}
