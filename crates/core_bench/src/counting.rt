// How many steps of each kind were made.

ghost use Rattle.std.specs.Prelude.{◌<◌};

use flow_model::Step;

/// The kinds of steps, by their names.
pub const KINDS: [&str; 14] = [
    "begin", "frame", "start", "skip", "gather", "evaluate", "body", "resolve", "discover", "drop",
    "mark", "look", "end", "collect",
];

/// How many steps of each kind were made, in the order of `KINDS`.
#[derive(Clone, Copy)]
pub struct Counts {
    pub of_kind: [u64; 14],
    /// How many turns of live calls made no step, since another call was in the way.
    pub idle: u64,
}

// The place of a step's kind.
fn kind_of(step: Step) -> usize
    ensures { result < 14 }
{
    match step {
        Step::Frame { .. } => 1,
        Step::Start { .. } => 2,
        Step::Skip { .. } => 3,
        Step::Gather { .. } => 4,
        Step::Evaluate { .. } => 5,
        Step::Body { .. } => 6,
        Step::Resolve { .. } => 7,
        Step::Discover { .. } => 8,
        Step::Drop { .. } => 9,
        Step::Mark { .. } => 10,
        Step::Look { .. } => 11,
        Step::End { .. } => 12,
        Step::Collect { .. } => 13,
    }
}

impl Counts {
    pub fn new() -> Counts {
        Counts {
            of_kind: [0; 14],
            idle: 0,
        }
    }

    /// One beginning more.
    pub fn begin(&mut self) {
        self.of_kind[0] = self.of_kind[0].saturating_add(1);
    }

    /// One step more.
    pub fn step(&mut self, step: Step) {
        let kind = kind_of(step);
        self.of_kind[kind] = self.of_kind[kind].saturating_add(1);
    }

    /// One turn more that made no step.
    pub fn idle(&mut self) {
        self.idle = self.idle.saturating_add(1);
    }
}
