// What a caller waits for.

use flow_model::Step;

/// What a call comes to with one of its moves, as far as other calls wait for it.
#[derive(Clone, Copy)]
pub(crate) enum Moment {
    /// It moves, whatever the move is.
    Move,
    /// It starts: it has framed all that it reaches.
    Start,
    /// It has finished at this node.
    Done(u32),
    /// It ends.
    End,
}

impl Moment {
    /// What a call comes to with a step.
    pub(crate) fn of(step: Step) -> Moment {
        match step {
            Step::Start { .. } => Moment::Start,
            Step::Skip { node, .. } => Moment::Done(node),
            Step::Resolve { node, .. } => Moment::Done(node),
            Step::End { .. } => Moment::End,
            _ => Moment::Move,
        }
    }

    /// Whether what was waited for is over, now that this has come. With its end a call is in nobody's way.
    pub(crate) fn is_over(self, come: Moment) -> bool {
        match self {
            Moment::Move => true,
            Moment::Start => come.is_start() || come.is_end(),
            Moment::Done(node) => come.is_done(node) || come.is_end(),
            Moment::End => come.is_end(),
        }
    }

    fn is_start(self) -> bool {
        match self {
            Moment::Start => true,
            _ => false,
        }
    }

    fn is_done(self, at: u32) -> bool {
        match self {
            Moment::Done(node) => node == at,
            _ => false,
        }
    }

    fn is_end(self) -> bool {
        match self {
            Moment::End => true,
            _ => false,
        }
    }
}
