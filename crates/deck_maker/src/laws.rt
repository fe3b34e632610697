//! Laws of the workload's deck. The functions do nothing when they run.

ghost use Rattle.std.specs.Prelude.{ℕ};
ghost use Rattle.deck_text.specs.Kept.{IsDeck};
ghost use Rattle.separate_decks.specs.Workload.{workload_graph, workload_scripts};

use separate_decks::laws::{workload_has_sizes, workload_is_separate};

/// For each number some lines spell the workload's graph and calls: its declarations and calls, each in its canonical
/// form, which is no longer than a line may be and within all limits of one.
pub fn workload_is_deck()
    ensures { (number : ℕ) → IsDeck (record { graph = workload_graph number; scripts = workload_scripts number }) }
{
    expr_script::laws::canonical_script();
    deck_lines::laws::canonical_line();
    workload_is_separate();
    workload_has_sizes();
}
