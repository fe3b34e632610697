// What may be done in a core.

ghost use Rattle.std.specs.Prelude.{◌≡◌};
ghost use Rattle.flow_model.specs.Machine.Steps.{allowed};

use crate::core_state::Core;
use flow_model::Step;
use step_rules::AllLists;

impl Core<'_> {
    /// Whether a step is allowed, whatever it names: a step of a call that does not live, or at a node that the graph does not
    /// have, is not. Takes no memory.
    pub fn allowed(&self, step: Step) -> bool
        ensures { result ≡ allowed self.now.graph self.now.state step }
    {
        let mut lists = AllLists {
            lists: self.lists.as_slice(),
        };
        step_rules::allowed(&self.book, self.graph, &mut lists, step)
    }
}
