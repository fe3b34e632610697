// Laws that tie the words on lists to indexes, for crates that reason about lists. The functions do nothing when they run.
ghost use Rattle.std.specs.Prelude.{◌≡◌, ℕ, suc, ◌+◌, ◌<◌, ◌≤◌, not, ◌&&◌, Bool, true, List};
ghost use Rattle.std.specs.Prelude.{take, drop, insert, nat_lt, Some, None, slice_get};
ghost use Rattle.std.specs.List.{position_or_len};
ghost use Rattle.node_versions.specs.Entries.{Entry, is_of, is_frame, has, behind, IsUnique, served, version_at, before};
ghost use Rattle.node_versions.specs.Entries.{up_to, front, rest, first_entry, last_entry, placed, StopsToTheEnd, is_active};

/// An entry that is inserted at its place stands before the first that stops.
pub fn placed_at_index()
    ensures { (stops : Entry → Bool) (e : Entry) (es : List Entry) → placed stops e es ≡ insert es (position_or_len stops es) e }
{}

/// Of two calls with an entry, one stands behind the other where its index is larger.
pub fn behind_by_index()
    ensures { (es : List Entry) (t u : ℕ) → IsUnique es → has es u ≡ true
        → behind es t u ≡ nat_lt (position_or_len (is_of t) es) (position_or_len (is_of u) es) }
{}

/// The entries before a call's are those below its index.
pub fn before_by_index()
    ensures { (es : List Entry) (t : ℕ) → before es t ≡ take (position_or_len (is_of t) es) es }
{}

/// The entries up to a call's are those up to its index.
pub fn up_to_by_index()
    ensures { (es : List Entry) (t : ℕ) → up_to es t ≡ take (position_or_len (is_of t) es + 1) es }
{}

/// An out-edge is active for a call where its since has no entry behind the call's.
pub fn active_is_not_behind()
    ensures { (es : List Entry) (since t : ℕ) → IsUnique es → has es t ≡ true → is_active es since t ≡ not (behind es t since) }
{}

/// The version of the entry at a call's index is the call's.
pub fn version_by_index()
    ensures { (es : List Entry) (t : ℕ) → has es t ≡ true → version_at es (position_or_len (is_of t) es) ≡ t }
{}

/// A call is served where it has an entry and the index of that is below the index of the first Frame.
pub fn served_by_index()
    ensures { (es : List Entry) (t : ℕ)
        → served es t ≡ (has es t && nat_lt (position_or_len (is_of t) es) (position_or_len (λ e. is_frame e.state) es)) }
{}

/// The entries before the first that stops are those below its index, and the rest are those from its index on.
pub fn parts_by_index()
    ensures front { (stops : Entry → Bool) (es : List Entry) → front stops es ≡ take (position_or_len stops es) es }
    ensures rest { (stops : Entry → Bool) (es : List Entry) → rest stops es ≡ drop (position_or_len stops es) es }
{}

/// The neighbours of a place in a list stand at that place and right before it.
pub fn neighbours_stand_at_the_place()
    ensures right { (stops : Entry → Bool) (es : List Entry) → first_entry (rest stops es) ≡ slice_get es (position_or_len stops es) }
    ensures left { (stops : Entry → Bool) (es : List Entry)
        → (position_or_len stops es ≡ 0 → last_entry None (front stops es) ≡ None)
        × ((k : ℕ) → position_or_len stops es ≡ suc k → last_entry None (front stops es) ≡ slice_get es k) }
{}

/// Where behind an entry that stops all do, no entry from the index of the first that stops on fails to stop. And that all
/// do behind one that stops is so where of any two entries the later stops if the earlier does.
pub fn stops_by_index()
    ensures behind { (stops : Entry → Bool) (es : List Entry) → StopsToTheEnd stops es
        → (i : ℕ) (e : Entry) → position_or_len stops es ≤ i → slice_get es i ≡ Some e → stops e ≡ true }
    ensures to_the_end { (stops : Entry → Bool) (es : List Entry)
        → ((i j : ℕ) (d e : Entry) → i < j → slice_get es i ≡ Some d → slice_get es j ≡ Some e → stops d ≡ true → stops e ≡ true)
        → StopsToTheEnd stops es }
{}
