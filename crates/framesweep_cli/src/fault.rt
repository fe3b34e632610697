// Why input is refused.

use deck_text::DeckFault;

/// Why input is refused.
#[derive(Clone, Copy, Debug)]
pub enum InputFault {
    /// A deck and what stands behind it have too many bytes.
    TooLong,
    /// The deck has this fault, which is not want of memory.
    Deck(DeckFault),
    /// The place of the first number of the schedule, counted from 1, that names no thread.
    ScheduleNumber(u32),
    /// The first line of the report, counted from 1, that stands in no report behind the lines before it.
    ReportLine(u32),
}
