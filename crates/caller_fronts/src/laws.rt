//! Laws of fronts, of idle callers, and of callers within a call. The functions do nothing when they run.

ghost use Rattle.std.specs.Prelude.{◌≡◌, ◌≢◌, ℕ, ◌<◌, ◌≤◌, ◌^◌, List, [], ◌∷◌, ◌++◌, length, suc, Some, None, true, false};
ghost use Rattle.script_tree.specs.declared.limits.TheConstants.{VERSIONS};
ghost use Rattle.signal_graph.specs.declared.call.Call.{Call};
ghost use Rattle.signal_graph.specs.Graph.{Graph, IsGraph, is_in};
ghost use Rattle.signal_graph.specs.Machine.{looks_of};
ghost use Rattle.chronicle.specs.declared.entry.Entry.{Entry};
ghost use Rattle.chronicle.specs.Entries.{events, IsPrefixWithAll};
ghost use Rattle.flow_model.specs.declared.step.Step.{Step};
ghost use Rattle.flow_model.specs.declared.step.Step.TheVariants as steps;
ghost use Rattle.flow_model.specs.declared.step.Turn.TheVariants as turn;
ghost use Rattle.flow_model.specs.Machine.Keys.{version_of_step, is_own_step};
ghost use Rattle.flow_model.specs.Machine.Next.{next, next_at};
ghost use Rattle.flow_model.specs.Machine.Schedules.{version_of};
ghost use Rattle.flow_model.specs.Machine.Sets.{put, take_out};
ghost use Rattle.flow_model.specs.Machine.State.{Core, live, call, opening};
ghost use Rattle.flow_model.specs.Machine.Steps.{allowed, can_begin, has_call, IsEvaluationDue};
ghost use Rattle.flow_model.specs.Machine.Histories.{Move, Begin, Make, may, after_move, state, is_history};
ghost use Rattle.flow_model.specs.Follows.Callers.{begun_by, count_begins};
ghost use Rattle.flow_model.specs.Follows.Others.{caller_of};
ghost use Rattle.flow_model.specs.Kept.Lawful.{IsLawful};
ghost use Rattle.flow_state.specs.declared.outcome.Answer.{Answer};
ghost use Rattle.flow_state.specs.Answers.{step_of, IsRight};
ghost use Rattle.caller_fronts.specs.Fronts.{IsLater, RestsAtEnds};
ghost use Rattle.caller_fronts.specs.Jobs.{job_at, jobs_at, job_of, with_job, without_job};
ghost use Rattle.caller_fronts.specs.Keys.{AreKeyed, key_for};
ghost use Rattle.caller_fronts.specs.Tokens.{IsIdle, IsGoing, IsTurnOf, IsNoJob, HasLooks};

use flow_model::laws::{
    callers_find_their_calls, callers_have_their_calls, evaluations_stay, histories_are_bounded,
    histories_are_lawful, next_at_is_allowed, next_is_allowed, steps_come_in_time,
};
use flow_model::stored_laws::histories_have_bounds;

/// In a later history a caller has begun the same calls, with the same versions.
pub fn own_calls_stay()
    ensures { (graph : Graph) (callers limit caller : ℕ) (front later : List Move) → IsLater graph callers limit caller front later
        → begun_by caller later ≡ begun_by caller front }
{}

/// Each history is later than itself, and what is later than a later one is later.
pub fn later_goes_on()
    ensures same { (graph : Graph) (callers limit caller : ℕ) (front : List Move) → is_history graph callers limit front ≡ true
        → IsLater graph callers limit caller front front }
    ensures on { (graph : Graph) (callers limit caller : ℕ) (front later last : List Move)
        → IsLater graph callers limit caller front later → IsLater graph callers limit caller later last
        → IsLater graph callers limit caller front last }
{}

/// Where entries are a history, each under the key of the caller whose own move it is, a prefix with all entries of a caller's key is
/// a front of that caller. An entry more with its key keeps that.
pub fn keys_tell_fronts()
    ensures front { (graph : Graph) (callers limit caller : ℕ) (shorter entries : List (Entry Move)) → 0 < caller
        → is_history graph callers limit (events entries) ≡ true → AreKeyed graph (opening graph callers limit) entries
        → IsPrefixWithAll caller shorter entries
        → IsLater graph callers limit caller (events shorter) (events entries) }
    ensures history { (graph : Graph) (callers limit : ℕ) (moves : List Move) (move : Move) → is_history graph callers limit moves ≡ true
        → may graph (state graph callers limit moves) move ≡ true
        → (is_history graph callers limit (moves ++ move ∷ []) ≡ true)
        × (state graph callers limit (moves ++ move ∷ []) ≡ after_move graph (state graph callers limit moves) move) }
    ensures keyed { (graph : Graph) (callers limit : ℕ) (entries : List (Entry Move)) (entry : Entry Move)
        → AreKeyed graph (opening graph callers limit) entries
        → entry.first_key ≡ caller_of (state graph callers limit (events entries)) entry.event → entry.second_key ≡ 0
        → AreKeyed graph (opening graph callers limit) (entries ++ entry ∷ []) }
{}

/// After moves of others an idle caller is idle. A caller within a call is, its call asks the same, and its jobs that are out find the
/// same.
pub fn tokens_stay()
    ensures idle { (graph : Graph) (callers limit caller : ℕ) (front later : List Move) → IsLater graph callers limit caller front later
        → IsIdle graph callers limit caller front
        → IsIdle graph callers limit caller later }
    ensures going { (graph : Graph) → IsGraph graph → (callers limit caller version : ℕ) (nodes : List ℕ) (front later : List Move)
        → IsLater graph callers limit caller front later → IsGoing graph callers limit caller version nodes front
        → IsGoing graph callers limit caller version nodes later }
    ensures jobs { (graph : Graph) → IsGraph graph → (callers limit caller version : ℕ) (nodes : List ℕ) (front later : List Move)
        → IsLater graph callers limit caller front later → IsGoing graph callers limit caller version nodes front
        → jobs_at graph (state graph callers limit later) version nodes ≡ jobs_at graph (state graph callers limit front) version nodes }
    ensures looks { (graph : Graph) (callers limit caller version room : ℕ) (nodes : List ℕ) (front later : List Move)
        → IsLater graph callers limit caller front later → IsGoing graph callers limit caller version nodes front
        → HasLooks graph callers limit version front room
        → HasLooks graph callers limit version later room }
{
    callers_find_their_calls();
    histories_are_lawful();
}

/// What comes next for a live call is a turn of it, also at a given node.
pub fn turns_are_of_calls()
    ensures next { (graph : Graph) → IsGraph graph → (s : Core) → IsLawful graph s → (t : ℕ) → live s t ≡ true
        → IsTurnOf graph s t (next graph s t) }
    ensures next_at { (graph : Graph) (s : Core) → IsLawful graph s → (t n : ℕ) → live s t ≡ true
        → IsTurnOf graph s t (next_at graph s t n) }
{
    next_is_allowed();
    next_at_is_allowed();
}

/// The jobs that are out, by their nodes: which there are, with one more or less, and that each is right while its evaluation is due.
pub fn jobs_have_nodes()
    ensures out { (graph : Graph) (s : Core) (t n : ℕ) (nodes : List ℕ) (answer : Answer) → job_of n (jobs_at graph s t nodes) ≡ Some answer
        → (is_in n nodes ≡ true) × (answer ≡ job_at graph s t n) }
    ensures some { (graph : Graph) (s : Core) (t n : ℕ) (nodes : List ℕ) → is_in n nodes ≡ true
        → job_of n (jobs_at graph s t nodes) ≡ Some (job_at graph s t n) }
    ensures none { (graph : Graph) (s : Core) (t n : ℕ) (nodes : List ℕ) → is_in n nodes ≡ false
        → job_of n (jobs_at graph s t nodes) ≡ None }
    ensures more { (graph : Graph) (s : Core) (t n : ℕ) (nodes : List ℕ) → is_in n nodes ≡ false
        → jobs_at graph s t (put n nodes) ≡ with_job (job_at graph s t n) (jobs_at graph s t nodes) }
    ensures less { (graph : Graph) (s : Core) (t n : ℕ) (nodes : List ℕ)
        → jobs_at graph s t (take_out n nodes) ≡ without_job n (jobs_at graph s t nodes) }
    ensures evaluate { (graph : Graph) (s : Core) (t n : ℕ) → allowed graph s (steps.Evaluate t n) ≡ true
        → (step_of (job_at graph s t n) ≡ steps.Evaluate t n) × IsRight graph s (job_at graph s t n) }
    ensures body { (graph : Graph) (s : Core) (t n : ℕ) → allowed graph s (steps.Body t n) ≡ true
        → (step_of (job_at graph s t n) ≡ steps.Body t n) × IsRight graph s (job_at graph s t n) }
    ensures is_evaluate { (graph : Graph) (s : Core) (t n : ℕ) (answer : Answer) → allowed graph s (steps.Evaluate t n) ≡ true
        → step_of answer ≡ steps.Evaluate t n → IsRight graph s answer
        → answer ≡ job_at graph s t n }
    ensures is_body { (graph : Graph) (s : Core) (t n : ℕ) (answer : Answer) → allowed graph s (steps.Body t n) ≡ true
        → step_of answer ≡ steps.Body t n → IsRight graph s answer
        → answer ≡ job_at graph s t n }
{}

/// After a step of a turn of a live call, or of anybody but its caller, that is not its end: it lives and asks the same, and its jobs
/// that are out, of which the step is none, find the same.
pub fn steps_keep_calls()
    ensures whose { (s : Core) (caller version : ℕ) (step : Step) → (call s version).caller ≡ caller
        → (is_own_step step ≡ true → version_of_step step ≡ Some version)
        → caller_of s (Make step) ≡ key_for caller step }
    ensures going { (graph : Graph) → IsGraph graph → (callers limit caller version : ℕ) (nodes : List ℕ) (moves : List Move) (step : Step)
        → IsGoing graph callers limit caller version nodes moves → allowed graph (state graph callers limit moves) step ≡ true
        → step ≢ steps.End version → IsNoJob version nodes step
        → IsGoing graph callers limit caller version nodes (moves ++ Make step ∷ []) }
    ensures jobs { (graph : Graph) → IsGraph graph → (callers limit caller version : ℕ) (nodes : List ℕ) (moves : List Move) (step : Step)
        → IsGoing graph callers limit caller version nodes moves → allowed graph (state graph callers limit moves) step ≡ true
        → IsNoJob version nodes step
        → jobs_at graph (state graph callers limit (moves ++ Make step ∷ [])) version nodes
        ≡ jobs_at graph (state graph callers limit moves) version nodes }
    ensures looks { (graph : Graph) (callers limit caller version room : ℕ) (nodes : List ℕ) (moves : List Move) (step : Step)
        → IsGoing graph callers limit caller version nodes moves → allowed graph (state graph callers limit moves) step ≡ true
        → step ≢ steps.End version → HasLooks graph callers limit version moves room
        → HasLooks graph callers limit version (moves ++ Make step ∷ []) room }
    ensures fewer { (graph : Graph) (callers limit caller version n : ℕ) (nodes : List ℕ) (moves : List Move)
        → IsGoing graph callers limit caller version nodes moves
        → IsGoing graph callers limit caller version (take_out n nodes) moves }
    ensures more { (graph : Graph) (callers limit caller version n : ℕ) (nodes : List ℕ) (moves : List Move)
        → IsGoing graph callers limit caller version nodes moves → IsEvaluationDue graph (state graph callers limit moves) version n
        → IsGoing graph callers limit caller version (put n nodes) moves }
{
    evaluations_stay();
    histories_are_lawful();
}

/// After a beginning that may be made its call lives, with no job out, and asks what it was begun with.
pub fn beginnings_make_calls()
    ensures begun { (graph : Graph) (callers limit : ℕ) (moves : List Move) → is_history graph callers limit moves ≡ true
        → (state graph callers limit moves).begun ≡ count_begins moves }
    ensures going { (graph : Graph) → IsGraph graph → (callers limit caller : ℕ) (moves : List Move) (call : Call)
        → IsIdle graph callers limit caller moves → can_begin graph (state graph callers limit moves) caller call ≡ true
        → IsGoing graph callers limit caller (suc (count_begins moves)) [] (moves ++ Begin caller call ∷ []) }
    ensures looks { (graph : Graph) → IsGraph graph → (callers limit caller : ℕ) (moves : List Move) (call : Call)
        → IsIdle graph callers limit caller moves → can_begin graph (state graph callers limit moves) caller call ≡ true
        → HasLooks graph callers limit (suc (count_begins moves)) (moves ++ Begin caller call ∷ []) (length (looks_of call)) }
    ensures free { (graph : Graph) (callers limit caller : ℕ) (moves : List Move) → IsIdle graph callers limit caller moves
        → version_of caller (state graph callers limit moves).calls ≡ None }
{
    callers_have_their_calls();
    histories_are_lawful();
}

/// Where a live call may end it has no job out, and its caller is idle afterwards.
pub fn ends_leave_callers_idle()
    ensures jobs { (graph : Graph) → IsGraph graph → (callers limit caller version : ℕ) (nodes : List ℕ) (moves : List Move)
        → IsGoing graph callers limit caller version nodes moves
        → allowed graph (state graph callers limit moves) (steps.End version) ≡ true
        → nodes ≡ [] }
    ensures idle { (graph : Graph) (callers limit caller version : ℕ) (nodes : List ℕ) (moves : List Move)
        → IsGoing graph callers limit caller version nodes moves
        → allowed graph (state graph callers limit moves) (steps.End version) ≡ true
        → IsIdle graph callers limit caller (moves ++ Make (steps.End version) ∷ []) }
    ensures none_live { (graph : Graph) → IsGraph graph → (callers limit : ℕ) (moves : List Move)
        → is_history graph callers limit moves ≡ true
        → ((k : ℕ) → 0 < k → k ≤ callers → has_call k (state graph callers limit moves).calls ≡ false)
        → (state graph callers limit moves).calls ≡ [] }
{
    callers_have_their_calls();
    evaluations_stay();
    steps_come_in_time();
    histories_are_lawful();
    histories_have_bounds();
}

/// A history of so many versions has fewer moves than a word can count.
pub fn histories_are_short()
    ensures { (graph : Graph) → IsGraph graph → (callers limit : ℕ) (moves : List Move) → limit ≤ VERSIONS
        → is_history graph callers limit moves ≡ true
        → length moves < 2 ^ 63 }
{
    histories_are_bounded();
    histories_are_lawful();
    callers_have_their_calls();
    histories_have_bounds();
}

/// A call lives after each beginning, and where one lived before a step it is gone only after its end. So no call lives after moves
/// of callers within calls only where none was made or the last is an end.
pub fn rests_are_at_ends()
    ensures first { (graph : Graph) (callers limit : ℕ) → RestsAtEnds graph callers limit [] }
    ensures begun { (graph : Graph) (callers limit caller : ℕ) (moves : List Move) (call : Call)
        → RestsAtEnds graph callers limit (moves ++ Begin caller call ∷ []) }
    ensures made { (graph : Graph) (callers limit : ℕ) (moves : List Move) (step : Step)
        → (state graph callers limit moves).calls ≢ []
        → RestsAtEnds graph callers limit (moves ++ Make step ∷ []) }
{}

/// Whose own move is the last of a history has seen the whole history, and the last end's caller is one of the callers.
pub fn last_moves_are_seen()
    ensures whole { (graph : Graph) (callers limit caller : ℕ) (front earlier : List Move) (move : Move)
        → IsLater graph callers limit caller front (earlier ++ move ∷ []) → caller_of (state graph callers limit earlier) move ≡ caller
        → front ≡ earlier ++ move ∷ [] }
    ensures one_of { (graph : Graph) → IsGraph graph → (callers limit version : ℕ) (earlier : List Move)
        → is_history graph callers limit (earlier ++ Make (steps.End version) ∷ []) ≡ true
        → (0 < caller_of (state graph callers limit earlier) (Make (steps.End version)))
        × (caller_of (state graph callers limit earlier) (Make (steps.End version)) ≤ callers) }
{
    steps_come_in_time();
    histories_are_lawful();
    histories_have_bounds();
}
