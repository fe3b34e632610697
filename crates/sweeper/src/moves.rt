// What a sweeper's history is made of.

use flow_model::Step;
use flow_state::Answer;
use signal_graph::call::Call;
use std::marker::Model;
use std::snapshot::Snapshot;

/// What stands in a sweeper's history: a call begins, or a step is made. Contracts see the move. A program needs no value of this
/// type.
pub struct Move {
    kind: MoveKind,
}

/// A beginning, or a step.
pub(crate) enum MoveKind {
    Begin { caller: u32, call: Call },
    Make(Step),
}

impl Model for Move {
    ghost use Rattle.flow_model.specs.Machine.Histories.{Move};
    ghost use Rattle.sweeper.specs.Moves.{move_of};

    ghost Value = { Move };

    ghost view = { λ m. move_of m.kind };
}

/// Names the entry of a beginning, which stands under its caller's key. It takes no room, and the call may go on.
#[derive(Drop)]
pub(crate) struct Beginning {
    pub(crate) caller: Snapshot<u32>,
    pub(crate) call: Snapshot<Call>,
}

impl chronicle::Names<Move> for Beginning {
    ghost use Rattle.flow_model.specs.Machine.Histories.{Begin};

    ghost entry_of = { λ b. record { event = Begin b.caller.value b.call.value; first_key = b.caller.value; second_key = 0 } };
}

/// Names the entry of a step that a caller makes, which stands under the caller's key where only the caller may make it.
#[derive(Drop)]
pub(crate) struct Made {
    pub(crate) caller: Snapshot<u32>,
    pub(crate) step: Snapshot<Step>,
}

impl chronicle::Names<Move> for Made {
    ghost use Rattle.flow_model.specs.Machine.Histories.{Make};
    ghost use Rattle.caller_fronts.specs.Keys.{key_for};

    ghost entry_of = { λ m. record { event = Make m.step.value; first_key = key_for m.caller.value m.step.value; second_key = 0 } };
}

/// Names the entry of an answer's step, which stands under its caller's key.
#[derive(Drop)]
pub(crate) struct Answered {
    pub(crate) caller: Snapshot<u32>,
    pub(crate) answer: Snapshot<Answer>,
}

impl chronicle::Names<Move> for Answered {
    ghost use Rattle.flow_model.specs.Machine.Histories.{Make};
    ghost use Rattle.flow_state.specs.Answers.{step_of};

    ghost entry_of = { λ a. record { event = Make (step_of a.answer.value); first_key = a.caller.value; second_key = 0 } };
}
