//! Laws of the machine: every state keeps what `IsLawful` says; the log of every history is what one thread would have answered; there
//! is always a next step, and not without end; what calls find again after moves of others; and what schedules make of scripts. The
//! functions do nothing when they run.

ghost use Rattle.std.specs.Prelude.{◌≡◌, ◌≢◌, ℕ, ◌+◌, ◌*◌, ◌<◌, ◌≤◌, ◌⊎◌, List, [], ◌∷◌, ◌++◌};
ghost use Rattle.std.specs.Prelude.{length, Some, is_none, ◌&&◌, true, false, IsTrue, ◌↔◌};
ghost use Rattle.std.specs.List.{AllByRecursion};
ghost use Rattle.node_versions.specs.Entries.{ended_len, last_done, state_of, picks_of};
ghost use Rattle.script_tree.specs.declared.value.Value.{Value};
ghost use Rattle.call_log.specs.LeftOut.{left_out};
ghost use Rattle.call_log.specs.Merge.{AreVersions, Merge};
ghost use Rattle.signal_graph.specs.declared.call.Call.{Call};
ghost use Rattle.signal_graph.specs.Graph.{Graph, IsGraph};
ghost use Rattle.signal_graph.specs.Values.{val, picks};
ghost use Rattle.signal_graph.specs.Legal.{Legal, state_after, finals};
ghost use Rattle.flow_model.specs.Machine.State.{Core, precedes, opening, entries, ended, call, call_of, live, executes};
ghost use Rattle.flow_model.specs.Machine.Words.{has_room, list_room, found_now, body_now};
ghost use Rattle.flow_model.specs.Machine.Order.{IsBefore};
ghost use Rattle.flow_model.specs.declared.step.Step.{Step};
ghost use Rattle.flow_model.specs.declared.step.Step.TheVariants as Steps;
ghost use Rattle.flow_model.specs.declared.step.Turn.TheVariants as Turn;
ghost use Rattle.flow_model.specs.Machine.Keys.{version_of_step};
ghost use Rattle.flow_model.specs.Machine.Next.{next, next_at, why_not_ended};
ghost use Rattle.flow_model.specs.Machine.Steps.{allowed, apply, can_begin, begin, has_call};
ghost use Rattle.flow_model.specs.Kept.Lawful.{IsLawful};
ghost use Rattle.flow_model.specs.Machine.Histories.{Move, Make, may, after_move, after_moves, may_all, state};
ghost use Rattle.flow_model.specs.Machine.Histories.{is_history, last_values, HasGathered, HasEvaluated};
ghost use Rattle.flow_model.specs.Follows.Lengths.{AreNext};
ghost use Rattle.flow_model.specs.Follows.Others.{is_own_move, none_by, after_others_move, IsKept, IsGiven, list_of, IsSameList};
ghost use Rattle.flow_model.specs.Follows.Callers.{count_begins, begun_by, logged_of, live_of};
ghost use Rattle.flow_model.specs.Follows.Callers.{made_by, IsBegunIn, IsFinishedRun, AreWithin};
ghost use Rattle.flow_model.specs.Machine.Schedules.{is_over, replayed, all_refused};
ghost use Rattle.flow_model.specs.Machine.Examples.{PlaysOut, retrofit_log_with};
ghost use Rattle.flow_model.specs.Machine.Examples.{retrofit_graph, retrofit_scripts, retrofit_schedule};
ghost use Rattle.flow_model.specs.Machine.Examples.{retrofit_moves, retrofit_log, retrofit_finals};
ghost use Rattle.flow_model.specs.Machine.Examples.{other_order_graph, other_order_scripts, other_order_schedule};
ghost use Rattle.flow_model.specs.Machine.Examples.{other_order_moves, other_order_log, other_order_finals};
ghost use Rattle.flow_model.specs.Machine.Examples.{one_edge_graph, one_edge_scripts, one_edge_schedule};
ghost use Rattle.flow_model.specs.Machine.Examples.{one_edge_moves, one_edge_log, one_edge_finals};
ghost use Rattle.flow_model.specs.Machine.Examples.{two_levels_graph, two_levels_scripts, two_levels_schedule};
ghost use Rattle.flow_model.specs.Machine.Examples.{two_levels_moves, two_levels_log, two_levels_finals};
ghost use Rattle.flow_model.specs.Machine.Examples.{reader_in_the_past_graph, reader_in_the_past_scripts, reader_in_the_past_schedule};
ghost use Rattle.flow_model.specs.Machine.Examples.{reader_in_the_past_moves, reader_in_the_past_log, reader_in_the_past_finals};
ghost use Rattle.flow_model.specs.Machine.Examples.{unconnected_graph, unconnected_scripts, unconnected_schedule};
ghost use Rattle.flow_model.specs.Machine.Examples.{unconnected_moves, unconnected_log, unconnected_finals};
ghost use Rattle.flow_model.specs.Machine.Examples.{two_selectors_graph, two_selectors_scripts, two_selectors_schedule};
ghost use Rattle.flow_model.specs.Machine.Examples.{two_selectors_moves, two_selectors_log, two_selectors_finals};

// ---- lawful states

/// The opening state of every graph is lawful.
pub fn opening_is_lawful()
    ensures { (graph : Graph) → IsGraph graph → (callers limit : ℕ) → IsLawful graph (opening graph callers limit) }
{}

/// Each allowed step, and each beginning that can be made, leads from a lawful state to a lawful one.
pub fn lawful_stays()
    ensures step { (graph : Graph) → IsGraph graph → (s : Core) (step : Step) → IsLawful graph s → allowed graph s step ≡ true
        → IsLawful graph (apply graph s step) }
    ensures begin { (graph : Graph) → IsGraph graph → (s : Core) (caller : ℕ) (call : Call) → IsLawful graph s
        → can_begin graph s caller call ≡ true
        → IsLawful graph (begin graph s caller call) }
{
    signal_graph::laws::values_are();
    signal_graph::laws::literal();
    signal_graph::laws::new_values_are();
}

/// The state after every history is lawful.
pub fn histories_are_lawful()
    ensures { (graph : Graph) → IsGraph graph → (callers limit : ℕ) (moves : List Move) → is_history graph callers limit moves ≡ true
        → IsLawful graph (state graph callers limit moves) }
{
    lawful_stays();
}

// ---- histories

/// The log of every history is legal: each reply is what one thread would have got for the call, with the calls made one after
/// the other in the order of the log.
pub fn logs_are_legal()
    ensures { (graph : Graph) → IsGraph graph → (callers limit : ℕ) (moves : List Move) → is_history graph callers limit moves ≡ true
        → Legal graph (state graph callers limit moves).log }
{
    lawful_stays();
    signal_graph::laws::values_are();
    signal_graph::laws::literal();
    signal_graph::laws::new_values_are();
}

/// After a history with no live call there is one state: the last values and picks are the one-thread machine's after the log,
/// and each list has entries of ended calls alone. So it is in every lawful state with no live call.
pub fn last_values_are_final()
    ensures lawful { (graph : Graph) (s : Core) → IsLawful graph s → s.calls ≡ [] → last_values s ≡ finals graph s.log }
    ensures values { (graph : Graph) → IsGraph graph → (callers limit : ℕ) (moves : List Move)
        → is_history graph callers limit moves ≡ true → (state graph callers limit moves).calls ≡ []
        → last_values (state graph callers limit moves) ≡ finals graph (state graph callers limit moves).log }
    ensures picks { (graph : Graph) → IsGraph graph → (callers limit : ℕ) (moves : List Move)
        → is_history graph callers limit moves ≡ true → (state graph callers limit moves).calls ≡ [] → (n : ℕ)
        → n < length graph.nodes
        → picks_of (state_of (last_done (entries (state graph callers limit moves) n)))
        ≡ picks graph (state_after graph (state graph callers limit moves).log) n }
    ensures lists { (s : Core) → s.calls ≡ [] → (n : ℕ) → ended_len (ended s) (entries s n) ≡ length (entries s n) }
{
    lawful_stays();
}

/// Each value that a call has gathered is, when the call ends, the node's value in the state after the call in the log. And what a
/// call's evaluation of a fold reads as `acc`, the value before the call, is the node's value in the state before it in the log.
pub fn gathered_values_are_right()
    ensures gathered { (graph : Graph) → IsGraph graph → (callers limit : ℕ) (moves : List Move) (t n m : ℕ) (v : Value)
        → is_history graph callers limit (moves ++ (Make (Steps.End t) ∷ [])) ≡ true → HasGathered graph callers limit moves t n m v
        → v ≡ val graph (state_after graph (state graph callers limit (moves ++ (Make (Steps.End t) ∷ []))).log) m }
    ensures acc { (graph : Graph) → IsGraph graph → (callers limit : ℕ) (moves : List Move) (t n : ℕ) (v : Value)
        → is_history graph callers limit (moves ++ (Make (Steps.End t) ∷ [])) ≡ true → HasEvaluated graph callers limit moves t n v
        → v ≡ val graph (state_after graph (state graph callers limit moves).log) n }
{
    lawful_stays();
    signal_graph::laws::values_are();
    signal_graph::laws::literal();
    signal_graph::laws::new_values_are();
}

/// In a history a call evaluates a node at most once, and its body at most once.
pub fn evaluated_once()
    ensures node { (graph : Graph) → IsGraph graph → (callers limit : ℕ) (first more rest : List Move) (t n : ℕ)
        → is_history graph callers limit (first ++ (Make (Steps.Evaluate t n) ∷ (more ++ (Make (Steps.Evaluate t n) ∷ rest)))) ≡ false }
    ensures body { (graph : Graph) → IsGraph graph → (callers limit : ℕ) (first more rest : List Move) (t n : ℕ)
        → is_history graph callers limit (first ++ (Make (Steps.Body t n) ∷ (more ++ (Make (Steps.Body t n) ∷ rest)))) ≡ false }
{
    lawful_stays();
}

// ---- what comes next

/// In a lawful state, a step that comes next for a live call is allowed.
pub fn next_is_allowed()
    ensures { (graph : Graph) → IsGraph graph → (s : Core) → IsLawful graph s → (t : ℕ) → live s t ≡ true → (step : Step)
        → next graph s t ≡ Turn.Step step
        → allowed graph s step ≡ true }
{}

/// In a lawful state, a step that comes next for a live call at a given node is allowed.
pub fn next_at_is_allowed()
    ensures { (graph : Graph) (s : Core) → IsLawful graph s → (t n : ℕ) → live s t ≡ true → (step : Step)
        → next_at graph s t n ≡ Turn.Step step
        → allowed graph s step ≡ true }
{}

/// In a lawful state, a live call with no live call before it has an allowed step next, or only its end is left, and that is
/// allowed. Where any call lives there is such a call.
pub fn never_stuck()
    ensures goes_on { (graph : Graph) → IsGraph graph → (s : Core) → IsLawful graph s → (t : ℕ) → live s t ≡ true
        → ((v : ℕ) → live s v ≡ true → precedes s v t ≡ false)
        → ((step : Step) × (next graph s t ≡ Turn.Step step) × (allowed graph s step ≡ true))
        ⊎ ((next graph s t ≡ Turn.Ready) × (allowed graph s (Steps.End t) ≡ true)) }
    ensures first { (graph : Graph) (s : Core) → IsLawful graph s → (t : ℕ) → live s t ≡ true
        → (u : ℕ) × (live s u ≡ true) × ((v : ℕ) → live s v ≡ true → precedes s v u ≡ false) }
{}

/// In a lawful state a live call can end exactly where nothing is named that keeps it from its end. A call that frames can't: it
/// sets something and has finished nowhere, so it has a node that it wants or one that is open.
pub fn causes_are_exact()
    ensures lawful { (graph : Graph) (s : Core) → IsLawful graph s → (t : ℕ) → live s t ≡ true
        → allowed graph s (Steps.End t) ≡ is_none (why_not_ended s t) }
    ensures executing { (graph : Graph) (s : Core) (t : ℕ)
        → allowed graph s (Steps.End t) ≡ (executes s t && is_none (why_not_ended s t)) }
{}

/// In a lawful state some of a full list, one with nine entries more than there are callers, can be collected, and Collect leaves at
/// most one entry more than there are callers. So an entry can always be made room for.
pub fn full_lists_are_collected()
    ensures allowed { (graph : Graph) (s : Core) → IsLawful graph s → (n : ℕ) → has_room s n ≡ false
        → allowed graph s (Steps.Collect n) ≡ true }
    ensures left { (graph : Graph) (s : Core) → IsLawful graph s → (n : ℕ)
        → length (entries (apply graph s (Steps.Collect n)) n) ≤ s.callers + 1 }
{}

/// The test of the order decides whether one call is before another.
pub fn order_is_decided()
    ensures { (s : Core) (u v : ℕ) → IsTrue (precedes s u v) ↔ IsBefore s u v }
{}

// ---- how long histories are

/// A history has at most 140 moves for each node, and 200 more, for each call that begins in it.
pub fn histories_are_bounded()
    ensures { (graph : Graph) → IsGraph graph → (callers limit : ℕ) (moves : List Move)
        → is_history graph callers limit moves ≡ true
        → length moves ≤ count_begins moves * (140 * length graph.nodes + 200) }
{
    signal_graph::laws::inputs_are_few();
    lawful_stays();
}

/// So many moves at most lead on from a lawful state, for each live call and each call that begins, and one more for each entry
/// that a list has room for. So whichever steps are made, with no call beginning there is an end to them; and so many next
/// steps at most can a call make by itself.
pub fn moves_are_bounded()
    ensures moves { (graph : Graph) → IsGraph graph → (s : Core) → IsLawful graph s → (moves : List Move)
        → may_all graph s moves ≡ true
        → length moves ≤ (length s.calls + count_begins moves) * (140 * length graph.nodes + 200)
        + length graph.nodes * list_room s.callers }
    ensures alone { (graph : Graph) → IsGraph graph → (s : Core) → IsLawful graph s → (t : ℕ) (steps : List Step)
        → AreNext graph t s steps
        → length steps ≤ length s.calls * (140 * length graph.nodes + 200) + length graph.nodes * list_room s.callers }
{
    signal_graph::laws::inputs_are_few();
    lawful_stays();
}

// ---- calls among others

/// A live call lives on after a move that is not its own: a beginning, a step of another call, a Frame of it or Collect. Such a
/// move changes only what it wants and what is open for it: a Frame of it opens its node and gives it what is framed with
/// that, and Discover of another call may give it a choose node.
pub fn others_leave_calls()
    ensures whole { (graph : Graph) (s : Core) (move : Move) (t : ℕ) → live s t ≡ true → is_own_move t move ≡ false
        → call_of (after_move graph s move).calls t ≡ Some (after_others_move graph s move (call s t)) }
    ensures lives { (graph : Graph) (s : Core) (move : Move) (t : ℕ) → live s t ≡ true → is_own_move t move ≡ false
        → live (after_move graph s move) t ≡ true }
    ensures kept { (graph : Graph) (s : Core) (move : Move) (t : ℕ) → live s t ≡ true → is_own_move t move ≡ false
        → IsKept (call s t) (call (after_move graph s move) t) }
    ensures given { (graph : Graph) (s : Core) (move : Move) (t : ℕ) → live s t ≡ true → is_own_move t move ≡ false
        → IsGiven graph s move (after_move graph s move) t }
{}

/// In a lawful state, where a call may evaluate a node's scripts or its body, it may after each other move, and what it finds is
/// the same. So an evaluation may go on while others move, and while its own call goes on at other nodes.
pub fn evaluations_stay()
    ensures node { (graph : Graph) (s : Core) (move : Move) → IsLawful graph s → may graph s move ≡ true → (t n : ℕ)
        → move ≢ Make (Steps.Evaluate t n) → allowed graph s (Steps.Evaluate t n) ≡ true
        → (allowed graph (after_move graph s move) (Steps.Evaluate t n) ≡ true)
        × (found_now graph (after_move graph s move) t n ≡ found_now graph s t n) }
    ensures body { (graph : Graph) (s : Core) (move : Move) → IsLawful graph s → may graph s move ≡ true → (t n : ℕ)
        → move ≢ Make (Steps.Body t n) → allowed graph s (Steps.Body t n) ≡ true
        → (allowed graph (after_move graph s move) (Steps.Body t n) ≡ true)
        × (body_now graph (after_move graph s move) n ≡ body_now graph s n) }
{}

/// After moves of which none is its caller's own, a live call lives and has all that is its own as it was. Where it could
/// evaluate a node or its body it still can, and finds the same. A caller with no live call still has none.
pub fn callers_find_their_calls()
    ensures call { (graph : Graph) (moves : List Move) (s : Core) (t : ℕ) → live s t ≡ true
        → none_by graph (call s t).caller s moves ≡ true
        → (live (after_moves graph s moves) t ≡ true) × IsKept (call s t) (call (after_moves graph s moves) t) }
    ensures idle { (graph : Graph) (moves : List Move) (s : Core) (caller : ℕ) → may_all graph s moves ≡ true
        → has_call caller s.calls ≡ false → none_by graph caller s moves ≡ true
        → has_call caller (after_moves graph s moves).calls ≡ false }
    ensures node { (graph : Graph) → IsGraph graph → (s : Core) → IsLawful graph s → (moves : List Move)
        → may_all graph s moves ≡ true → (t n : ℕ) → none_by graph (call s t).caller s moves ≡ true
        → allowed graph s (Steps.Evaluate t n) ≡ true
        → (allowed graph (after_moves graph s moves) (Steps.Evaluate t n) ≡ true)
        × (found_now graph (after_moves graph s moves) t n ≡ found_now graph s t n) }
    ensures body { (graph : Graph) → IsGraph graph → (s : Core) → IsLawful graph s → (moves : List Move)
        → may_all graph s moves ≡ true → (t n : ℕ) → none_by graph (call s t).caller s moves ≡ true
        → allowed graph s (Steps.Body t n) ≡ true
        → (allowed graph (after_moves graph s moves) (Steps.Body t n) ≡ true)
        × (body_now graph (after_moves graph s moves) n ≡ body_now graph s n) }
{
    lawful_stays();
}

/// Moves that are not kept under a node change nothing of its list and out-edges.
pub fn lists_change_under_their_keys()
    ensures { (graph : Graph) (moves : List Move) (s : Core) (n : ℕ) → AllByRecursion (λ (move : Move). list_of move ≢ Some n) moves
        → IsSameList s (after_moves graph s moves) n }
{}

/// In a history, each step of a call comes after the call's beginning, and none after its end, which comes at most once.
pub fn steps_come_in_time()
    ensures begun { (graph : Graph) (callers limit : ℕ) (first rest : List Move) (step : Step) (t : ℕ)
        → is_history graph callers limit (first ++ (Make step ∷ rest)) ≡ true → version_of_step step ≡ Some t
        → IsBegunIn first t }
    ensures not_ended { (graph : Graph) (callers limit : ℕ) (first more rest : List Move) (step : Step) (t : ℕ)
        → version_of_step step ≡ Some t
        → is_history graph callers limit (first ++ (Make (Steps.End t) ∷ (more ++ (Make step ∷ rest)))) ≡ false }
    ensures live { (graph : Graph) (s : Core) (step : Step) (t : ℕ) → allowed graph s step ≡ true → version_of_step step ≡ Some t
        → live s t ≡ true }
{}

// ---- callers and schedules

/// After a history, a caller's calls in the log, and behind them its live one, if there is one, are those that it has begun, each
/// once, in their order and with their versions. Versions count the beginnings.
pub fn callers_have_their_calls()
    ensures made { (graph : Graph) (callers limit : ℕ) (moves : List Move) → is_history graph callers limit moves ≡ true → (k : ℕ)
        → made_by (state graph callers limit moves) k ≡ begun_by k moves }
    ensures one_live { (graph : Graph) (callers limit : ℕ) (moves : List Move) → is_history graph callers limit moves ≡ true → (k : ℕ)
        → length (live_of k (state graph callers limit moves).calls) ≤ 1 }
    ensures begun { (graph : Graph) (callers limit : ℕ) (moves : List Move) → is_history graph callers limit moves ≡ true
        → (state graph callers limit moves).begun ≡ count_begins moves }
{}

/// After a history with no live call, a caller's calls in the log are those that it has begun. The versions of the log are the
/// numbers from 1 to its length, each once, and rise along each caller's calls.
pub fn logs_have_all_calls()
    ensures made { (graph : Graph) (callers limit : ℕ) (moves : List Move) → is_history graph callers limit moves ≡ true
        → (state graph callers limit moves).calls ≡ [] → (k : ℕ)
        → logged_of k (state graph callers limit moves).log ≡ begun_by k moves }
    ensures versions { (graph : Graph) (callers limit : ℕ) (moves : List Move) → is_history graph callers limit moves ≡ true
        → (state graph callers limit moves).calls ≡ []
        → AreVersions (state graph callers limit moves).log }
{}

/// The log of a finished run of scripts is a merge of them. The first worked example is such a run.
pub fn finished_runs_are_merges()
    ensures example { IsFinishedRun retrofit_graph retrofit_scripts 1000 retrofit_moves }
    ensures merge { (graph : Graph) (scripts : List (List Call)) (limit : ℕ) (moves : List Move)
        → IsFinishedRun graph scripts limit moves
        → Merge graph scripts limit (state graph (length scripts) limit moves).log
        (left_out graph limit (state graph (length scripts) limit moves).log scripts) }
{}

/// What a schedule makes of scripts is a finished run of them: a history and the state after it, over after the rounds that follow
/// the schedule, with no call live or left. Its log is legal, log and refused calls are a merge of the scripts, and the last values
/// are the one-thread machine's after the log. The scripts' calls set and look at no more nodes than a call may: one beyond that
/// can't begin, and a schedule has no way to refuse it.
pub fn replays_are_merges()
    ensures history { (graph : Graph) → IsGraph graph → (scripts : List (List Call)) → AreWithin scripts
        → (limit : ℕ) (schedule : List ℕ)
        → is_history graph (length scripts) limit (replayed graph scripts limit schedule).moves ≡ true }
    ensures core { (graph : Graph) → IsGraph graph → (scripts : List (List Call)) → AreWithin scripts → (limit : ℕ) (schedule : List ℕ)
        → (replayed graph scripts limit schedule).core ≡ state graph (length scripts) limit (replayed graph scripts limit schedule).moves }
    ensures over { (graph : Graph) → IsGraph graph → (scripts : List (List Call)) → AreWithin scripts → (limit : ℕ) (schedule : List ℕ)
        → is_over (replayed graph scripts limit schedule) ≡ true }
    ensures finished { (graph : Graph) → IsGraph graph → (scripts : List (List Call)) → AreWithin scripts
        → (limit : ℕ) (schedule : List ℕ)
        → IsFinishedRun graph scripts limit (replayed graph scripts limit schedule).moves }
    ensures legal { (graph : Graph) → IsGraph graph → (scripts : List (List Call)) → AreWithin scripts
        → (limit : ℕ) (schedule : List ℕ)
        → Legal graph (replayed graph scripts limit schedule).core.log }
    ensures merge { (graph : Graph) → IsGraph graph → (scripts : List (List Call)) → AreWithin scripts
        → (limit : ℕ) (schedule : List ℕ)
        → Merge graph scripts limit (replayed graph scripts limit schedule).core.log
        (all_refused (replayed graph scripts limit schedule).threads) }
    ensures values { (graph : Graph) → IsGraph graph → (scripts : List (List Call)) → AreWithin scripts
        → (limit : ℕ) (schedule : List ℕ)
        → last_values (replayed graph scripts limit schedule).core ≡ finals graph (replayed graph scripts limit schedule).core.log }
{
    signal_graph::laws::inputs_are_few();
    lawful_stays();
    logs_are_legal();
}

// ---- examples

/// The worked examples: what each schedule makes of its deck.
pub fn examples_play_out()
    ensures retrofit { PlaysOut retrofit_graph retrofit_scripts retrofit_schedule retrofit_moves retrofit_log retrofit_finals }
    ensures other_order { PlaysOut other_order_graph other_order_scripts other_order_schedule
        other_order_moves other_order_log other_order_finals }
    ensures one_edge { PlaysOut one_edge_graph one_edge_scripts one_edge_schedule one_edge_moves one_edge_log one_edge_finals }
    ensures two_levels { PlaysOut two_levels_graph two_levels_scripts two_levels_schedule
        two_levels_moves two_levels_log two_levels_finals }
    ensures reader_in_the_past { PlaysOut reader_in_the_past_graph reader_in_the_past_scripts reader_in_the_past_schedule
        reader_in_the_past_moves reader_in_the_past_log reader_in_the_past_finals }
    ensures unconnected { PlaysOut unconnected_graph unconnected_scripts unconnected_schedule
        unconnected_moves unconnected_log unconnected_finals }
    ensures two_selectors { PlaysOut two_selectors_graph two_selectors_scripts two_selectors_schedule
        two_selectors_moves two_selectors_log two_selectors_finals }
{}

/// The first example's last look shows 22 and no other number.
pub fn example_is_exact()
    ensures { (look : ℕ)
        → PlaysOut retrofit_graph retrofit_scripts retrofit_schedule retrofit_moves (retrofit_log_with look) retrofit_finals
        → look ≡ 22 }
{}
