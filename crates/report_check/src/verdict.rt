// What the check of a report answers.

/// Whether a report is that of a run.
#[derive(Clone, Copy, PartialEq, Eq, Debug)]
pub enum Verdict {
    /// Every line is right.
    Yes,
    /// The first line that isn't right, counted from 1.
    Wrong(u32),
}
