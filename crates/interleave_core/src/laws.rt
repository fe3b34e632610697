//! Laws of whole runs of a core: whatever public calls are made of it, each where its contract allows it, the core is at the state of
//! a history of the machine; so what holds after every history holds of it. The functions do nothing when they run.

ghost use Rattle.std.specs.Prelude.{◌≡◌, ◌⊎◌, ℕ, ◌+◌, ◌*◌, ◌<◌, ◌≤◌, List, [], ◌∷◌, ◌++◌, length, true, false};
ghost use Rattle.script_tree.specs.declared.value.Value.{Value};
ghost use Rattle.signal_graph.specs.Graph.{Graph, IsGraph};
ghost use Rattle.signal_graph.specs.Values.{val};
ghost use Rattle.signal_graph.specs.Legal.{Legal, state_after, finals};
ghost use Rattle.order_graph.specs.Order.{reaches};
ghost use Rattle.flow_model.specs.declared.step.Step.{Step};
ghost use Rattle.flow_model.specs.declared.step.Step.TheVariants as Steps;
ghost use Rattle.flow_model.specs.declared.step.Turn.TheVariants as Turn;
ghost use Rattle.flow_model.specs.Machine.State.{precedes, live, entries};
ghost use Rattle.flow_model.specs.Machine.Words.{has_room};
ghost use Rattle.flow_model.specs.Machine.Steps.{allowed, apply};
ghost use Rattle.flow_model.specs.Machine.Next.{next};
ghost use Rattle.flow_model.specs.Machine.Histories.{Move, state, is_history, last_values, HasGathered};
ghost use Rattle.flow_model.specs.Follows.Callers.{count_begins};
ghost use Rattle.flow_model.specs.Kept.Lawful.{IsLawful};
ghost use Rattle.interleave_core.specs.Runs.{Act, MakeStep, is_run, core_after, moves_of, acts_of};

use flow_model::laws::{
    evaluated_once, full_lists_are_collected, gathered_values_are_right, histories_are_bounded,
    histories_are_lawful, last_values_are_final, logs_are_legal, never_stuck,
};

/// After every run of a core its state is that of a history: of the run's beginnings and steps. Every history is that of a run, with a
/// room made for each beginning.
pub fn runs_are_histories()
    ensures history { (graph : Graph) (callers limit : ℕ) (acts : List Act) → is_run graph callers limit acts ≡ true
        → is_history graph callers limit (moves_of acts) ≡ true }
    ensures core { (graph : Graph) (callers limit : ℕ) (acts : List Act) → is_run graph callers limit acts ≡ true
        → ((core_after graph callers limit acts).graph ≡ graph)
        × ((core_after graph callers limit acts).state ≡ state graph callers limit (moves_of acts)) }
    ensures every { (graph : Graph) (callers limit : ℕ) (moves : List Move) → is_history graph callers limit moves ≡ true
        → (is_run graph callers limit (acts_of moves) ≡ true) × (moves_of (acts_of moves) ≡ moves) }
{}

/// After every run the log is legal, the recorded order has no cycle, and where no call is live the last values are the one-thread
/// machine's after the log.
pub fn runs_are_right()
    ensures legal { (graph : Graph) → IsGraph graph → (callers limit : ℕ) (acts : List Act) → is_run graph callers limit acts ≡ true
        → Legal graph (core_after graph callers limit acts).state.log }
    ensures order { (graph : Graph) → IsGraph graph → (callers limit : ℕ) (acts : List Act) → is_run graph callers limit acts ≡ true
        → (u : ℕ) → reaches (core_after graph callers limit acts).state.pairs u u ≡ false }
    ensures values { (graph : Graph) → IsGraph graph → (callers limit : ℕ) (acts : List Act) → is_run graph callers limit acts ≡ true
        → (core_after graph callers limit acts).state.calls ≡ []
        → last_values (core_after graph callers limit acts).state ≡ finals graph (core_after graph callers limit acts).state.log }
{
    runs_are_histories();
    histories_are_lawful();
    logs_are_legal();
    last_values_are_final();
}

/// In a run a call evaluates a node at most once, and its body at most once; and each value that it has gathered is, when it ends,
/// the node's value in the state after it in the log.
pub fn runs_read_one_state()
    ensures node { (graph : Graph) → IsGraph graph → (callers limit : ℕ) (first more rest : List Act) (t n : ℕ)
        → is_run graph callers limit (first ++ (MakeStep (Steps.Evaluate t n) ∷ (more ++ (MakeStep (Steps.Evaluate t n) ∷ rest)))) ≡ false }
    ensures body { (graph : Graph) → IsGraph graph → (callers limit : ℕ) (first more rest : List Act) (t n : ℕ)
        → is_run graph callers limit (first ++ (MakeStep (Steps.Body t n) ∷ (more ++ (MakeStep (Steps.Body t n) ∷ rest)))) ≡ false }
    ensures gathered { (graph : Graph) → IsGraph graph → (callers limit : ℕ) (acts : List Act) (t n m : ℕ) (v : Value)
        → is_run graph callers limit (acts ++ (MakeStep (Steps.End t) ∷ [])) ≡ true
        → HasGathered graph callers limit (moves_of acts) t n m v
        → v ≡ val graph (state_after graph (core_after graph callers limit (acts ++ (MakeStep (Steps.End t) ∷ []))).state.log) m }
{
    runs_are_histories();
    evaluated_once();
    gathered_values_are_right();
}

/// After every run a live call with no live call before it has an allowed step next, or only its end is left, and that is allowed. A
/// full list can be collected, and then has at most one entry more than there are callers. And a run is no longer than so many
/// beginnings and steps for each call that begins.
pub fn runs_go_on()
    ensures next { (graph : Graph) → IsGraph graph → (callers limit : ℕ) (acts : List Act) → is_run graph callers limit acts ≡ true
        → (t : ℕ) → live (core_after graph callers limit acts).state t ≡ true
        → ((v : ℕ) → live (core_after graph callers limit acts).state v ≡ true
        → precedes (core_after graph callers limit acts).state v t ≡ false)
        → ((step : Step) × (next graph (core_after graph callers limit acts).state t ≡ Turn.Step step)
        × (allowed graph (core_after graph callers limit acts).state step ≡ true))
        ⊎ ((next graph (core_after graph callers limit acts).state t ≡ Turn.Ready)
        × (allowed graph (core_after graph callers limit acts).state (Steps.End t) ≡ true)) }
    ensures room { (graph : Graph) → IsGraph graph → (callers limit : ℕ) (acts : List Act) → is_run graph callers limit acts ≡ true
        → (n : ℕ) → has_room (core_after graph callers limit acts).state n ≡ false
        → (allowed graph (core_after graph callers limit acts).state (Steps.Collect n) ≡ true)
        × (length (entries (apply graph (core_after graph callers limit acts).state (Steps.Collect n)) n)
        ≤ (core_after graph callers limit acts).state.callers + 1) }
    ensures bounded { (graph : Graph) → IsGraph graph → (callers limit : ℕ) (acts : List Act) → is_run graph callers limit acts ≡ true
        → length (moves_of acts) ≤ count_begins (moves_of acts) * (140 * length graph.nodes + 200) }
{
    runs_are_histories();
    histories_are_lawful();
    never_stuck();
    full_lists_are_collected();
    histories_are_bounded();
}
