// The steps of calls, each of which changes the book and one list at most.

ghost use Rattle.std.specs.Prelude.{◌≡◌, true};
ghost use Rattle.signal_graph.specs.declared.node.NodeKind.TheVariants as kinds;
ghost use Rattle.signal_graph.specs.Graph.{kind_of, node_at};
ghost use Rattle.flow_model.specs.declared.step.Step.TheVariants as step;
ghost use Rattle.flow_model.specs.Machine.Steps.{allowed};
ghost use Rattle.interleave_core.specs.Whole.{after};

use crate::core_state::Core;
use flow_model::Step;
use flow_model::laws::lawful_stays;
use signal_graph::node::NodeKind;

impl Core<'_> {
    /// Makes a step that is allowed: the state becomes the one after it. Takes no memory.
    pub fn apply(&mut self, step: Step)
        requires allowed { allowed self.old.graph self.old.state step ≡ true }
        ensures { self.new ≡ after self.old step }
    {
        match step {
            Step::Frame { version, node } => self.frame(version, node),
            Step::Start { version } => self.start(version),
            Step::Skip { version, node } => self.skip(version, node),
            Step::Gather {
                version,
                node,
                input,
            } => self.gather(version, node, input),
            Step::Evaluate { version, node } => self.evaluate(version, node),
            Step::Body { version, node } => self.evaluate_body(version, node),
            Step::Resolve { version, node } => self.resolve(version, node),
            Step::Discover {
                version,
                node,
                candidate,
            } => self.discover(version, node, candidate),
            Step::Drop {
                version,
                node,
                candidate,
            } => self.drop_choice(version, node, candidate),
            Step::Mark { version, node } => self.mark(version, node),
            Step::Look { version } => self.look(version),
            Step::End { version } => self.end(version),
            Step::Collect { node } => self.collect(node),
        }
    }

    // Frame: the call frames a node that it wants.
    fn frame(&mut self, version: u32, node: u32)
        requires allowed { allowed self.old.graph self.old.state (step.Frame version node) ≡ true }
        ensures { self.new ≡ after self.old (step.Frame version node) }
    {
        lawful_stays();
        let list = &mut self.lists[node as usize];
        framing::frame(&mut self.book, list, self.graph, version, node);
    }

    // Start: the call executes from now on.
    fn start(&mut self, version: u32)
        requires allowed { allowed self.old.graph self.old.state (step.Start version) ≡ true }
        ensures { self.new ≡ after self.old (step.Start version) }
    {
        lawful_stays();
        framing::start(&mut self.book, version);
    }

    // Skip: the node stays as it was before the call.
    fn skip(&mut self, version: u32, node: u32)
        requires allowed { allowed self.old.graph self.old.state (step.Skip version node) ≡ true }
        ensures { self.new ≡ after self.old (step.Skip version node) }
    {
        lawful_stays();
        let list = &mut self.lists[node as usize];
        sweep::skip(&mut self.book, list, self.graph, version, node);
    }

    // Gather: the value in the input's list is kept for the node.
    fn gather(&mut self, version: u32, node: u32, input: u32)
        requires allowed { allowed self.old.graph self.old.state (step.Gather version node input) ≡ true }
        ensures { self.new ≡ after self.old (step.Gather version node input) }
    {
        lawful_stays();
        let list = &self.lists[input as usize];
        sweep::gather(&mut self.book, list, version, node, input);
    }

    // Resolve: the node's new value stands. A fold's is what its script gave.
    fn resolve(&mut self, version: u32, node: u32)
        requires allowed { allowed self.old.graph self.old.state (step.Resolve version node) ≡ true }
        ensures { self.new ≡ after self.old (step.Resolve version node) }
    {
        match self.graph.kind(node) {
            NodeKind::Fold => self.resolve_fold(version, node),
            _ => self.resolve_other(version, node),
        }
    }

    fn resolve_fold(&mut self, version: u32, node: u32)
        requires allowed { allowed self.old.graph self.old.state (step.Resolve version node) ≡ true }
        requires fold { kind_of (node_at self.old.graph node) ≡ kinds.Fold }
        ensures { self.new ≡ after self.old (step.Resolve version node) }
    {
        lawful_stays();
        let list = &mut self.lists[node as usize];
        fold_nodes::resolve_fold(&mut self.book, list, version, node);
    }

    fn resolve_other(&mut self, version: u32, node: u32)
        requires allowed { allowed self.old.graph self.old.state (step.Resolve version node) ≡ true }
        ensures { self.new ≡ after self.old (step.Resolve version node) }
    {
        lawful_stays();
        let list = &mut self.lists[node as usize];
        sweep::resolve(&mut self.book, list, self.graph, version, node);
    }

    // Discover: the node comes to depend on a candidate, and later calls that change it come to want the node.
    fn discover(&mut self, version: u32, node: u32, candidate: u32)
        requires allowed { allowed self.old.graph self.old.state (step.Discover version node candidate) ≡ true }
        ensures { self.new ≡ after self.old (step.Discover version node candidate) }
    {
        lawful_stays();
        let list = &mut self.lists[candidate as usize];
        dynamic_edges::discover(&mut self.book, list, version, node, candidate);
        retrofit::extend_wanted(&mut self.book, list, version, node);
    }

    // Drop: the node depends on a candidate no more.
    fn drop_choice(&mut self, version: u32, node: u32, candidate: u32)
        requires allowed { allowed self.old.graph self.old.state (step.Drop version node candidate) ≡ true }
        ensures { self.new ≡ after self.old (step.Drop version node candidate) }
    {
        lawful_stays();
        let list = &mut self.lists[candidate as usize];
        dynamic_edges::drop_choice(&mut self.book, list, version, node, candidate);
    }

    // Mark: the call enters the list of a node that it will read.
    fn mark(&mut self, version: u32, node: u32)
        requires allowed { allowed self.old.graph self.old.state (step.Mark version node) ≡ true }
        ensures { self.new ≡ after self.old (step.Mark version node) }
    {
        lawful_stays();
        let list = &mut self.lists[node as usize];
        sweep::mark(&mut self.book, list, version, node);
    }

    // Look: the value of the call's next look is taken.
    fn look(&mut self, version: u32)
        requires allowed { allowed self.old.graph self.old.state (step.Look version) ≡ true }
        ensures { self.new ≡ after self.old (step.Look version) }
    {
        lawful_stays();
        let Some(node) = self.book.next_look(version) else {
            return;
        };
        let list = &self.lists[node as usize];
        sweep::look(&mut self.book, list, version);
    }

    // End: the call joins the log.
    fn end(&mut self, version: u32)
        requires allowed { allowed self.old.graph self.old.state (step.End version) ≡ true }
        ensures { self.new ≡ after self.old (step.End version) }
    {
        lawful_stays();
        sweep::end(&mut self.book, version);
    }

    // Collect: entries that nobody reads any more go from the node's list.
    fn collect(&mut self, node: u32)
        requires allowed { allowed self.old.graph self.old.state (step.Collect node) ≡ true }
        ensures { self.new ≡ after self.old (step.Collect node) }
    {
        lawful_stays();
        let list = &mut self.lists[node as usize];
        version_gc::collect(&self.book, list);
    }
}
