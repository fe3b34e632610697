// Which sweeper a value is of.

use std::marker::Brand;

/// Which sweeper it is. All that has to agree on the sweeper has this parameter: the sweeper itself, its passes, its live calls and
/// what lies under its lock. Whoever opens a sweeper picks it, by a call of a function that has it as a parameter.
pub trait Naming {
    ghost use Rattle.std.specs.Prelude.{ℕ};
    ghost use Rattle.atomic_table.specs.Seated.{TableId};
    ghost use Rattle.signal_graph.specs.Graph.{Graph};

    /// The history that it writes.
    ghost table: { TableId };

    /// Its graph.
    ghost graph: { Graph };

    /// How many callers it has.
    ghost callers: { ℕ };

    /// How many calls may begin.
    ghost limit: { ℕ };
}

impl Naming for Brand {
    ghost use Rattle.signal_graph.specs.Graph.{no_nodes};
    ghost use Rattle.sweeper.specs.Tokens.{no_table};

    ghost table = { no_table };

    ghost graph = { no_nodes };

    ghost callers = { 0 };

    ghost limit = { 0 };
}
