//! Laws of separate decks. The functions do nothing when they run.

ghost use Rattle.std.specs.Prelude.{◌≡◌, ℕ, ◌<◌, ◌≤◌, List, length, None};
ghost use Rattle.std.specs.List.{AllByRecursion};
ghost use Rattle.signal_graph.specs.declared.call.Call.{Call};
ghost use Rattle.signal_graph.specs.declared.log.Logged.{Logged};
ghost use Rattle.signal_graph.specs.declared.log.Refused.{Refused};
ghost use Rattle.signal_graph.specs.Graph.{Graph, IsGraph, no_nodes, node_at};
ghost use Rattle.signal_graph.specs.Values.{at};
ghost use Rattle.signal_graph.specs.Machine.{misnamed, sets_of, looks_of};
ghost use Rattle.signal_graph.specs.Legal.{state_after, finals};
ghost use Rattle.call_log.specs.Made.{entries_of, calls_in, count_well_named};
ghost use Rattle.call_log.specs.Merge.{Merge};
ghost use Rattle.separate_decks.specs.Separate.{Separate};
ghost use Rattle.separate_decks.specs.Calls.{serial_finals, followed_by, Keeps, AreSources, AreNamed, OthersSetNone};
ghost use Rattle.separate_decks.specs.Workload.{AreAccepted, workload_declarations, workload_graph, workload_scripts};

use signal_graph::laws;

/// What a source or a fold over sources keeps after a log rests on the calls of one caller alone, in their order, where
/// the calls of all others set nothing that it follows.
pub fn rests_on_owner()
    ensures { (graph : Graph) → IsGraph graph → (n : ℕ) → n < length graph.nodes → Keeps (node_at graph n)
        → AreSources graph (followed_by (node_at graph n) n) → (caller : ℕ) (one other : List Logged) → AreNamed graph one
        → AreNamed graph other → OthersSetNone graph (followed_by (node_at graph n) n) caller one
        → OthersSetNone graph (followed_by (node_at graph n) n) caller other
        → calls_in (entries_of caller one) ≡ calls_in (entries_of caller other)
        → at (state_after graph one) n ≡ at (state_after graph other) n }
{
    laws::literal();
    laws::values_are();
}

/// Where a deck is separate and there are as many versions as well-named calls, all merges of its scripts have the same
/// final values, whatever the order of their calls.
pub fn merges_end_alike()
    ensures { (graph : Graph) → IsGraph graph → (scripts : List (List Call)) → Separate graph scripts → (limit : ℕ)
        → count_well_named graph scripts ≤ limit → (one other : List Logged) (left rest : List Refused) → Merge graph scripts limit one left
        → Merge graph scripts limit other rest → finals graph one ≡ finals graph other }
{
    laws::literal();
    laws::values_are();
}

/// These final values are those after all well-named calls of thread 1, then all of thread 2, and so on.
pub fn ends_as_serial()
    ensures { (graph : Graph) → IsGraph graph → (scripts : List (List Call)) → Separate graph scripts → (limit : ℕ)
        → count_well_named graph scripts ≤ limit → (log : List Logged) (refused : List Refused) → Merge graph scripts limit log refused
        → finals graph log ≡ serial_finals graph scripts }
{
    laws::literal();
    laws::values_are();
}

/// For each number a builder refuses none of the workload's declarations, its deck is separate, and all its calls are
/// well-named.
pub fn workload_is_separate()
    ensures declared { (number : ℕ) → AreAccepted no_nodes (workload_declarations number) }
    ensures graph { (number : ℕ) → IsGraph (workload_graph number) }
    ensures separate { (number : ℕ) → Separate (workload_graph number) (workload_scripts number) }
    ensures named { (number : ℕ) → AllByRecursion (λ calls. AllByRecursion (λ call. misnamed (workload_graph number) call ≡ None) calls)
        (workload_scripts number) }
    ensures count { (number : ℕ) → count_well_named (workload_graph number) (workload_scripts number) ≡ 4000 }
{}

/// For each number the workload has 216 nodes and 8 threads of 500 calls, each call with one look and at most one set.
pub fn workload_has_sizes()
    ensures nodes { (number : ℕ) → length (workload_graph number).nodes ≡ 216 }
    ensures threads { (number : ℕ) → length (workload_scripts number) ≡ 8 }
    ensures calls { (number : ℕ) → AllByRecursion (λ (calls : List Call). length calls ≡ 500) (workload_scripts number) }
    ensures names { (number : ℕ) → AllByRecursion
        (λ calls. AllByRecursion (λ call. (length (sets_of call) ≤ 1) × (length (looks_of call) ≡ 1)) calls) (workload_scripts number) }
{}

/// For each number all merges of all calls of the workload's deck have the same final values, those of the calls of one
/// thread after the other.
pub fn workload_ends_alike()
    ensures alike { (number limit : ℕ) → 4000 ≤ limit → (one other : List Logged) (left rest : List Refused)
        → Merge (workload_graph number) (workload_scripts number) limit one left
        → Merge (workload_graph number) (workload_scripts number) limit other rest
        → finals (workload_graph number) one ≡ finals (workload_graph number) other }
    ensures serial { (number limit : ℕ) → 4000 ≤ limit → (log : List Logged) (refused : List Refused)
        → Merge (workload_graph number) (workload_scripts number) limit log refused
        → finals (workload_graph number) log ≡ serial_finals (workload_graph number) (workload_scripts number) }
{
    merges_end_alike();
    ends_as_serial();
    workload_is_separate();
}
