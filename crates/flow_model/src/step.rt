// The steps of live calls, and what comes next for one.

ghost use Rattle.std.specs.Prelude.{◌≡◌};
ghost use Rattle.flow_model.specs.Machine.Keys.{version_of_step, is_own_step, list_of_step};

/// A step of a live call, which is named by its version, or of a node's list. A call's beginning is no such step, since
/// it brings the call with it.
#[derive(Clone, Copy, PartialEq, Eq, Debug)]
pub enum Step {
    /// The call's Frame enters the node's list, or the call's Mark there becomes a Frame.
    Frame {
        version: u32,
        node: u32,
    },
    /// The call has framed all that it reaches and executes from now on.
    Start {
        version: u32,
    },
    /// The node stays as it was before the call.
    Skip {
        version: u32,
        node: u32,
    },
    /// The value of an input is kept for the node.
    Gather {
        version: u32,
        node: u32,
        input: u32,
    },
    /// The node's script is evaluated, or the scripts of its selectors are.
    Evaluate {
        version: u32,
        node: u32,
    },
    /// The node's body is evaluated.
    Body {
        version: u32,
        node: u32,
    },
    /// The node's new value stands.
    Resolve {
        version: u32,
        node: u32,
    },
    /// The node comes to depend on a candidate.
    Discover {
        version: u32,
        node: u32,
        candidate: u32,
    },
    /// The node depends on a candidate no more.
    Drop {
        version: u32,
        node: u32,
        candidate: u32,
    },
    /// The call's Mark enters the node's list.
    Mark {
        version: u32,
        node: u32,
    },
    /// The value of the call's next look is taken.
    Look {
        version: u32,
    },
    /// The call joins the log.
    End {
        version: u32,
    },
    /// Entries of ended calls that nobody reads any more go from the node's list.
    Collect {
        node: u32,
    },
}

/// Why a call has no step now.
#[derive(Clone, Copy, PartialEq, Eq, Debug)]
pub enum Cause {
    /// This call, a direct predecessor, has not started.
    FramingBefore(u32),
    /// This call's Frame is the node's first and stands before the call's entry.
    OpenBefore { node: u32, version: u32 },
    /// The call itself has not finished at this node, which the asked one depends on.
    InputOpen { node: u32 },
    /// The asked node is not open for the call.
    NotOpen { node: u32 },
    /// The node's scripts are being evaluated.
    JobOut { node: u32 },
    /// This call, a direct predecessor, has not ended.
    Before(u32),
    /// The call has not finished at this node.
    Unfinished { node: u32 },
}

/// What comes next for a call.
#[derive(Clone, Copy, PartialEq, Eq, Debug)]
pub enum Turn {
    /// This step.
    Step(Step),
    /// Nothing, for this reason.
    NotYet(Cause),
    /// Nothing but its end.
    Ready,
}

impl Step {
    /// The version of the call that the step is of. Collect is of none. Takes no memory.
    pub fn version(self) -> Option<u32>
        ensures { result ≡ version_of_step self }
    {
        match self {
            Step::Frame { version, .. }
            | Step::Start { version }
            | Step::Skip { version, .. }
            | Step::Gather { version, .. }
            | Step::Evaluate { version, .. }
            | Step::Body { version, .. }
            | Step::Resolve { version, .. }
            | Step::Discover { version, .. }
            | Step::Drop { version, .. }
            | Step::Mark { version, .. }
            | Step::Look { version }
            | Step::End { version } => Some(version),
            Step::Collect { .. } => None,
        }
    }

    /// Whether only the call's own caller makes the step. Frame may be made for another call, and Collect is of none.
    /// Takes no memory.
    pub fn is_own(self) -> bool
        ensures { result ≡ is_own_step self }
    {
        match self {
            Step::Frame { .. } | Step::Collect { .. } => false,
            _ => true,
        }
    }

    /// The node whose list or out-edges the step changes, where it changes one. Takes no memory.
    pub fn list(self) -> Option<u32>
        ensures { result ≡ list_of_step self }
    {
        match self {
            Step::Frame { node, .. } | Step::Skip { node, .. } | Step::Resolve { node, .. } => Some(
                node,
            ),
            Step::Mark { node, .. } | Step::Collect { node } => Some(node),
            Step::Discover { candidate, .. } | Step::Drop { candidate, .. } => Some(candidate),
            _ => None,
        }
    }
}
