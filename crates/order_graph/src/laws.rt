// Laws of the recorded order, for crates that reason about it. The functions do nothing when they run.
ghost use Rattle.std.specs.Prelude.{◌≡◌, ℕ, ◌==◌, not, ◌&&◌, ◌||◌, List, IsTrue, ◌↔◌, false};
ghost use Rattle.order_graph.specs.Order.{Pair, Precedes, reaches, linked, retired};

/// The test `reaches` decides whether a chain of pairs leads from one slot to another.
pub fn reaches_decides()
    ensures { (pairs : List Pair) (a b : ℕ) → IsTrue (reaches pairs a b) ↔ Precedes pairs a b }
{}

/// After a pair of a and b joins, x reaches y as before, or over that pair.
pub fn reaches_after_link()
    ensures { (pairs : List Pair) (a b node x y : ℕ) →
        reaches (linked pairs a b node) x y ≡ (reaches pairs x y || (((x == a) || reaches pairs x a) && ((y == b) || reaches pairs b y))) }
{}

/// After the pairs of a slot go that none precedes, this slot reaches none, and all others reach what they reached.
pub fn reaches_after_retire()
    ensures { (pairs : List Pair) (a x y : ℕ) → ((z : ℕ) → reaches pairs z a ≡ false) →
        reaches (retired pairs a) x y ≡ (not (x == a) && reaches pairs x y) }
{}
