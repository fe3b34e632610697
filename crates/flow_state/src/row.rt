// Values in rows of fixed length.

ghost use Rattle.std.specs.Prelude.{◌≡◌, ◌<◌, [], ◌∷◌, ◌++◌, length};
ghost use Rattle.script_tree.specs.declared.limits.TheConstants.{SELECTORS};

use script_tree::limits::SELECTORS;
use script_tree::value::{Fault, Value};
use std::marker::Model;

/// At most as many values as a body has picks. Contracts see the list of the values.
#[derive(Drop)]
pub(crate) struct Row {
    values: [Value; SELECTORS],
    len: usize,
}

impl Model for Row {
    ghost use Rattle.std.specs.Prelude.{List, take, ◌≤◌};
    ghost use Rattle.script_tree.specs.declared.value.Value.{Value as Held};
    ghost use Rattle.script_tree.specs.declared.limits.TheConstants.{SELECTORS};

    ghost Value = { List Held };

    ghost view = { λ r. take r.len r.values };

    ghost invariant = { λ r. r.len ≤ SELECTORS };
}

impl Row {
    /// No values.
    pub(crate) fn new() -> Row
        ensures { result ≡ [] }
    {
        Row {
            values: [Value::Fault(Fault::NoChoice); SELECTORS],
            len: 0,
        }
    }

    /// Adds a value at the end.
    pub(crate) fn push(&mut self, value: Value)
        requires { length self.old < SELECTORS }
        ensures { self.new ≡ self.old ++ value ∷ [] }
    {
        self.values[self.len] = value;
        self.len += 1;
    }

    /// All values.
    pub(crate) fn as_slice(&self) -> &[Value]
        ensures { result.now ≡ self.now }
    {
        &self.values[..self.len]
    }
}
