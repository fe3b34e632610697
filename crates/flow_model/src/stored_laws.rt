//! Laws on how a state is stored: its bounds, its book and listings, and the recorded order by slots. The functions do nothing
//! when they run.

ghost use Rattle.std.specs.Prelude.{◌≡◌, ℕ, Bool, List, Some, ◌<◌, true, false, length, find};
ghost use Rattle.std.specs.Option.{option_map};
ghost use Rattle.std.specs.List.{list_any};
ghost use Rattle.signal_graph.specs.declared.call.Call.{Call};
ghost use Rattle.signal_graph.specs.Graph.{Graph, IsGraph, numbers};
ghost use Rattle.signal_graph.specs.Machine.{looks_of, looks_of_reply};
ghost use Rattle.order_graph.specs.Order.{is_recorded, reaches, linked, retired};
ghost use Rattle.node_versions.specs.declared.entry.Entry.{Entry};
ghost use Rattle.node_versions.specs.Entries.{has, placed, collected, has_node};
ghost use Rattle.flow_model.specs.declared.step.Step.{Step};
ghost use Rattle.flow_model.specs.declared.step.Step.TheVariants as Steps;
ghost use Rattle.flow_model.specs.Machine.Keys.{list_of_step};
ghost use Rattle.flow_model.specs.Machine.State.{Core, LiveCall, opening, entries, outs, call, live, opens, ended};
ghost use Rattle.flow_model.specs.Machine.Words.{due, is_some_of, presses, pressed};
ghost use Rattle.flow_model.specs.Machine.Changes.{linked_at, stops};
ghost use Rattle.flow_model.specs.Machine.Steps.{allowed, apply, can_begin, begin, asks_for, reply_of};
ghost use Rattle.flow_model.specs.Machine.Steps.{any_before, is_framing_before, any_framing_before};
ghost use Rattle.flow_model.specs.Machine.Next.{next, next_at, least_version, why_not_ended};
ghost use Rattle.flow_model.specs.Kept.Lawful.{IsLawful, HasSlot};
ghost use Rattle.flow_model.specs.Machine.Histories.{Move, state, is_history};
ghost use Rattle.flow_model.specs.Follows.Bounds.{NamesNodes, HasBounds, choosers};
ghost use Rattle.flow_model.specs.Parts.Operations.{ListsAnswer, OrderTakes, IsFirstSlot};
ghost use Rattle.flow_model.specs.Parts.SlotPairs.{slot_pairs, slot_of, renamed, linked_at_by_slot, entry_lives};
ghost use Rattle.flow_model.specs.Parts.SlotPairs.{stops_by_slot, ended_by_slot, any_before_by_slot};
ghost use Rattle.flow_model.specs.Parts.SlotPairs.{recorded_by_slot, is_framing_before_by_slot, presses_by_slot};
ghost use Rattle.flow_model.specs.Parts.Books.{Book, Listing, AgreeOn, book_of, listing, bare, allowed_in};
ghost use Rattle.flow_model.specs.Parts.Books.{reads_of_step, read_of_step, book_after, listing_after, begun_in};
ghost use Rattle.flow_model.specs.Parts.BookNext.{next_in, next_at_in, reads_of_next, reads_of_next_at};

use crate::laws::lawful_stays;

/// In a lawful state whatever calls and the work at nodes name is a node of the graph, and there are bounds on how many calls,
/// out-edges, gathered values and nodes of a call there are. A call that ends has looked as often as it asked.
pub fn states_are_bounded()
    ensures nodes { (graph : Graph) → IsGraph graph → (s : Core) → IsLawful graph s → NamesNodes graph s }
    ensures bounds { (graph : Graph) → IsGraph graph → (s : Core) → IsLawful graph s → HasBounds graph s }
    ensures looks { (graph : Graph) (s : Core) → IsLawful graph s → (t : ℕ) → allowed graph s (Steps.End t) ≡ true
        → length (looks_of_reply (reply_of (call s t) (call s t).call)) ≡ length (looks_of (call s t).call) }
{}

/// After every history what the state names are nodes of the graph, the state is bounded, and it has the callers and the limit of
/// the opening state.
pub fn histories_have_bounds()
    ensures nodes { (graph : Graph) → IsGraph graph → (callers limit : ℕ) (moves : List Move)
        → is_history graph callers limit moves ≡ true
        → NamesNodes graph (state graph callers limit moves) }
    ensures bounds { (graph : Graph) → IsGraph graph → (callers limit : ℕ) (moves : List Move)
        → is_history graph callers limit moves ≡ true
        → HasBounds graph (state graph callers limit moves) }
    ensures counted { (graph : Graph) (callers limit : ℕ) (moves : List Move) → is_history graph callers limit moves ≡ true
        → ((state graph callers limit moves).callers ≡ callers) × ((state graph callers limit moves).limit ≡ limit) }
{
    lawful_stays();
}

/// In a lawful state work is due at open nodes alone, and so whether a node asks for an entry is decided over these.
pub fn open_nodes_decide()
    ensures due { (graph : Graph) (s : Core) → IsLawful graph s → (t n : ℕ) → due graph s t n ≡ true → opens s t n ≡ true }
    ensures asks { (graph : Graph) (s : Core) → IsLawful graph s → (t m : ℕ)
        → list_any (asks_for graph s t m) (numbers graph) ≡ list_any (asks_for graph s t m) (call s t).open_nodes }
{}

/// In a lawful state the operations of lists and of the recorded order find what they want: a list answers what a live call with
/// an entry asks, a call's neighbours where it enters are of other slots and make no cycle, no chain leads to a call that ends, and
/// there is room for the out-edge of a Discover.
pub fn operations_fit()
    ensures lists { (graph : Graph) (s : Core) → IsLawful graph s → ListsAnswer s }
    ensures order { (graph : Graph) (s : Core) → IsLawful graph s → (t m : ℕ) → live s t ≡ true → has (entries s m) t ≡ false
        → OrderTakes s t m }
    ensures end { (graph : Graph) (s : Core) → IsLawful graph s → (t : ℕ) → allowed graph s (Steps.End t) ≡ true → IsFirstSlot s t }
    ensures edge { (graph : Graph) (s : Core) → IsLawful graph s → (t n c : ℕ) → allowed graph s (Steps.Discover t n c) ≡ true
        → (has_node (outs s c) n ≡ false) × (length (outs s c) < length (choosers graph c)) }
{}

/// Pairs of slots say of live calls what pairs of versions say. They are found by the slots of entries when a call enters a
/// list, and by its slot when it ends; and slots tell whether an entry's call lives, and whether an entry stops a call.
pub fn slots_stand_for_versions()
    ensures recorded { (graph : Graph) (s : Core) → IsLawful graph s → (u v : ℕ) → live s u ≡ true → live s v ≡ true
        → is_recorded (slot_pairs s) (slot_of s u) (slot_of s v) ≡ is_recorded s.pairs u v }
    ensures reaches { (graph : Graph) (s : Core) → IsLawful graph s → (u v : ℕ) → live s u ≡ true → live s v ≡ true
        → reaches (slot_pairs s) (slot_of s u) (slot_of s v) ≡ reaches s.pairs u v }
    ensures linked { (graph : Graph) (s : Core) → IsLawful graph s → (u v n : ℕ) → live s u ≡ true → live s v ≡ true
        → linked (slot_pairs s) (slot_of s u) (slot_of s v) n ≡ renamed (slot_of s) (linked s.pairs u v n) }
    ensures enters { (graph : Graph) (s : Core) → IsLawful graph s → (t m : ℕ) → live s t ≡ true
        → linked_at_by_slot s t m ≡ renamed (slot_of s) (linked_at s t m) }
    ensures ends { (graph : Graph) (s : Core) → IsLawful graph s → (t : ℕ) → live s t ≡ true
        → retired (slot_pairs s) (slot_of s t) ≡ renamed (slot_of s) (retired s.pairs t) }
    ensures step { (graph : Graph) (s : Core) (step : Step) → IsLawful graph s → allowed graph s step ≡ true
        → slot_pairs (apply graph s step) ≡ renamed (slot_of s) (apply graph s step).pairs }
    ensures lives { (s : Core) (e : Entry) → HasSlot s e → entry_lives s e ≡ live s e.version }
    ensures stops { (graph : Graph) (s : Core) → IsLawful graph s → (t : ℕ) (e : Entry) → live s t ≡ true → HasSlot s e
        → stops_by_slot s t e ≡ stops s t e }
{}

/// In a lawful state slots tell a live call's place in a list and what is collected there, whether calls have direct predecessors
/// and framing ones, and whether a later call wants a node.
pub fn slots_decide()
    ensures places { (graph : Graph) (s : Core) → IsLawful graph s → (t n : ℕ) (new : Entry) → live s t ≡ true
        → placed (stops_by_slot s t) new (entries s n) ≡ placed (stops s t) new (entries s n) }
    ensures collects { (graph : Graph) (s : Core) → IsLawful graph s → (n : ℕ)
        → collected (ended_by_slot s) (entries s n) ≡ collected (ended s) (entries s n) }
    ensures before { (graph : Graph) (s : Core) → IsLawful graph s → (t : ℕ) → live s t ≡ true → any_before_by_slot s t ≡ any_before s t }
    ensures framing { (graph : Graph) (s : Core) → IsLawful graph s → (t : ℕ) → live s t ≡ true
        → list_any (is_framing_before_by_slot s t) s.calls ≡ any_framing_before s t }
    ensures presses { (graph : Graph) (s : Core) → IsLawful graph s → (t n : ℕ) → live s t ≡ true
        → list_any (presses_by_slot s t n) s.calls ≡ pressed s t n }
{}

/// In a lawful state the least version of the calls that pass a test is that of the first such call, and slots tell which calls are
/// direct predecessors, which of these frame, and which press for a node.
pub fn least_versions_are_first()
    ensures first { (graph : Graph) (s : Core) → IsLawful graph s → (test : LiveCall → Bool)
        → least_version test s.calls ≡ option_map (λ (c : LiveCall). c.version) (find test s.calls) }
    ensures recorded { (graph : Graph) (s : Core) → IsLawful graph s → (t : ℕ) → live s t ≡ true
        → least_version (recorded_by_slot s t) s.calls ≡ least_version (λ c. is_recorded s.pairs c.version t) s.calls }
    ensures framing { (graph : Graph) (s : Core) → IsLawful graph s → (t : ℕ) → live s t ≡ true
        → least_version (is_framing_before_by_slot s t) s.calls ≡ least_version (is_framing_before s t) s.calls }
    ensures presses { (graph : Graph) (s : Core) → IsLawful graph s → (t n : ℕ) → live s t ≡ true
        → least_version (presses_by_slot s t n) s.calls ≡ least_version (presses s t n) s.calls }
{}

/// A state is its book and a listing for each node. Which steps are allowed follows from the book and the listings that the
/// step reads. What a step makes of the book follows from the book and one listing; it changes one listing at most, which
/// follows from the book and that listing.
pub fn books_tell_steps()
    ensures whole { (s q : Core) → book_of s ≡ book_of q → ((n : ℕ) → listing s n ≡ listing q n) → s ≡ q }
    ensures allowed { (graph : Graph) (s : Core) → IsLawful graph s → (step : Step)
        → allowed graph s step ≡ allowed_in graph (book_of s) (listing s) step }
    ensures reads { (graph : Graph) (b : Book) (lists others : ℕ → Listing) (step : Step)
        → AgreeOn (reads_of_step b lists step) lists others
        → allowed_in graph b others step ≡ allowed_in graph b lists step }
    ensures book { (graph : Graph) → IsGraph graph → (s : Core) → IsLawful graph s → (step : Step) → allowed graph s step ≡ true
        → (l : Listing) → ((m : ℕ) → read_of_step (book_of s) step ≡ Some m → l ≡ listing s m)
        → book_of (apply graph s step) ≡ book_after graph (book_of s) l step }
    ensures changed { (graph : Graph) → IsGraph graph → (s : Core) → IsLawful graph s → (step : Step) → allowed graph s step ≡ true
        → (m : ℕ) → list_of_step step ≡ Some m
        → listing (apply graph s step) m ≡ listing_after graph (book_of s) (listing s m) step }
    ensures others { (graph : Graph) (s : Core) (step : Step) (m : ℕ) → is_some_of (list_of_step step) m ≡ false
        → listing (apply graph s step) m ≡ listing s m }
    ensures begin { (graph : Graph) (s : Core) (caller : ℕ) (call : Call)
        → (can_begin graph s caller call ≡ can_begin graph (bare (book_of s)) caller call)
        × (book_of (begin graph s caller call) ≡ begun_in graph (book_of s) caller call)
        × ((n : ℕ) → listing (begin graph s caller call) n ≡ listing s n) }
{}

/// What comes next for a call follows from the book and the listings that are read for it, and why it can't end from the book.
pub fn books_tell_next()
    ensures next { (graph : Graph) (s : Core) (t : ℕ) → next graph s t ≡ next_in graph (book_of s) (listing s) t }
    ensures next_at { (graph : Graph) (s : Core) (t n : ℕ) → next_at graph s t n ≡ next_at_in graph (book_of s) (listing s) t n }
    ensures end { (s : Core) (t : ℕ) → why_not_ended s t ≡ why_not_ended (bare (book_of s)) t }
    ensures reads { (graph : Graph) (b : Book) (lists others : ℕ → Listing) (t : ℕ)
        → AgreeOn (reads_of_next graph b lists t) lists others
        → next_in graph b others t ≡ next_in graph b lists t }
    ensures reads_at { (graph : Graph) (b : Book) (lists others : ℕ → Listing) (t n : ℕ)
        → AgreeOn (reads_of_next_at graph b lists t n) lists others
        → next_at_in graph b others t n ≡ next_at_in graph b lists t n }
{}
