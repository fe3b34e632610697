// What comes next for a call.

ghost use Rattle.std.specs.Prelude.{◌≡◌, ◌<◌, true, length};
ghost use Rattle.flow_model.specs.declared.step.Step.{Step as AnyStep};
ghost use Rattle.flow_model.specs.declared.step.Turn.TheVariants as turn;
ghost use Rattle.flow_model.specs.Machine.State.{live};
ghost use Rattle.flow_model.specs.Machine.Steps.{allowed};
ghost use Rattle.flow_model.specs.Machine.Next.{next, next_at};

use crate::core_state::Core;
use flow_model::Turn;
use flow_model::laws::{next_at_is_allowed, next_is_allowed};
use step_rules::AllLists;

impl Core<'_> {
    /// What comes next for a live call: a step, which is allowed; or why it has none now; or that nothing but its end is left.
    /// Takes no memory.
    pub fn next(&self, version: u32) -> Turn
        requires { live self.now.state version ≡ true }
        ensures turn { result ≡ next self.now.graph self.now.state version }
        ensures step { (step : AnyStep) → result ≡ turn.Step step → allowed self.now.graph self.now.state step ≡ true }
    {
        next_is_allowed();
        let mut lists = AllLists {
            lists: self.lists.as_slice(),
        };
        step_rules::next(&self.book, self.graph, &mut lists, version)
    }

    /// The same at a given node, which need not be the least open one. Where the node is not open for the call, or the call has not
    /// finished at something that the node rests on, that is the answer. Takes no memory.
    pub fn next_at(&self, version: u32, node: u32) -> Turn
        requires live { live self.now.state version ≡ true }
        requires node { node < length self.now.graph.nodes }
        ensures turn { result ≡ next_at self.now.graph self.now.state version node }
        ensures step { (step : AnyStep) → result ≡ turn.Step step → allowed self.now.graph self.now.state step ≡ true }
    {
        next_at_is_allowed();
        let mut lists = AllLists {
            lists: self.lists.as_slice(),
        };
        step_rules::next_at(&self.book, self.graph, &mut lists, version, node)
    }
}
