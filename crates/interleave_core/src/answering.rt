// The steps that evaluate, and answers of evaluations that went on elsewhere.

ghost use Rattle.std.specs.Prelude.{◌≡◌, true, IfSome};
ghost use Rattle.flow_model.specs.declared.step.Step.TheVariants as step;
ghost use Rattle.flow_model.specs.Machine.Steps.{allowed, IsEvaluationDue};
ghost use Rattle.flow_state.specs.Answers.{step_of, IsRight};
ghost use Rattle.flow_state.specs.Jobs.{value_answer};
ghost use Rattle.interleave_core.specs.Whole.{after, IsAcc};

use crate::core_state::Core;
use flow_model::laws::lawful_stays;
use flow_state::{Answer, Job, JobRoom};
use script_tree::value::{Fault, Value};
use signal_graph::node::NodeKind;

impl<'g> Core<'g> {
    /// Keeps what an evaluation found: the state becomes the one after the answer's step, Evaluate or Body. The step is allowed, and
    /// the answer is what it finds in this state. Takes no memory.
    pub fn put(&mut self, answer: Answer)
        requires allowed { allowed self.old.graph self.old.state (step_of answer) ≡ true }
        requires right { IsRight self.old.graph self.old.state answer }
        ensures { self.new ≡ after self.old (step_of answer) }
    {
        lawful_stays();
        sweep::put(&mut self.book, answer);
    }

    /// The evaluation that is due at a node for a call, of the node's scripts or of its body, to be made elsewhere: contracts see its
    /// answer, which is what its step finds in this state. What it is over is copied into the room. Takes no memory.
    pub fn job<'r>(&self, version: u32, node: u32, room: &'r mut JobRoom) -> Job<'g, 'r>
        requires { IsEvaluationDue self.now.graph self.now.state version node }
        ensures scripts { allowed self.now.graph self.now.state (step.Evaluate version node) ≡ true
            → step_of result ≡ step.Evaluate version node }
        ensures body { allowed self.now.graph self.now.state (step.Body version node) ≡ true → step_of result ≡ step.Body version node }
        ensures right { IsRight self.now.graph self.now.state result }
    {
        let acc = self.acc(version, node);
        self.book.job(self.graph, version, node, acc, room)
    }

    // Evaluate: what the node's scripts find is kept.
    pub(crate) fn evaluate(&mut self, version: u32, node: u32)
        requires allowed { allowed self.old.graph self.old.state (step.Evaluate version node) ≡ true }
        ensures { self.new ≡ after self.old (step.Evaluate version node) }
    {
        let acc = self.acc(version, node);
        match self.script_value(version, node, acc) {
            Some(value) => self.put_value(version, node, value),
            None => {
                let answer = self.answer(version, node, acc);
                self.put(answer);
            }
        }
    }

    // The value that the node's script gives, where the node is no choose.
    fn script_value(&self, version: u32, node: u32, acc: Value) -> Option<Value>
        requires allowed { allowed self.now.graph self.now.state (step.Evaluate version node) ≡ true }
        requires reads { IsAcc self.now.graph self.now.state version node acc }
        ensures { IfSome result (λ v. IsRight self.now.graph self.now.state (value_answer version node v)) }
    {
        self.book.script_value(self.graph, node, acc)
    }

    // Such a value is kept.
    fn put_value(&mut self, version: u32, node: u32, value: Value)
        requires allowed { allowed self.old.graph self.old.state (step.Evaluate version node) ≡ true }
        requires right { IsRight self.old.graph self.old.state (value_answer version node value) }
        ensures { self.new ≡ after self.old (step.Evaluate version node) }
    {
        lawful_stays();
        sweep::put_value(&mut self.book, version, node, value);
    }

    // Body: the value of the node's body is kept.
    pub(crate) fn evaluate_body(&mut self, version: u32, node: u32)
        requires allowed { allowed self.old.graph self.old.state (step.Body version node) ≡ true }
        ensures { self.new ≡ after self.old (step.Body version node) }
    {
        let acc = self.acc(version, node);
        let answer = self.answer(version, node, acc);
        self.put(answer);
    }

    // What that evaluation finds, without a copy of what is gathered.
    fn answer(&self, version: u32, node: u32, acc: Value) -> Answer
        requires due { IsEvaluationDue self.now.graph self.now.state version node }
        requires reads { IsAcc self.now.graph self.now.state version node acc }
        ensures scripts { allowed self.now.graph self.now.state (step.Evaluate version node) ≡ true
            → step_of result ≡ step.Evaluate version node }
        ensures body { allowed self.now.graph self.now.state (step.Body version node) ≡ true
            → step_of result ≡ step.Body version node }
        ensures right { IsRight self.now.graph self.now.state result }
    {
        self.book.evaluate(self.graph, version, node, acc)
    }

    // What the node's script reads as `acc`, which only a fold's does: its value before the call.
    fn acc(&self, version: u32, node: u32) -> Value
        requires { IsEvaluationDue self.now.graph self.now.state version node }
        ensures { IsAcc self.now.graph self.now.state version node result }
    {
        match self.graph.kind(node) {
            NodeKind::Fold => fold_nodes::fold_acc(&self.lists[node as usize], version),
            _ => Value::Fault(Fault::Kind),
        }
    }
}
