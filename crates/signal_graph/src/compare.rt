//! Whether two values are equal.

ghost use Rattle.std.specs.Prelude.{◌≡◌};
ghost use Rattle.signal_graph.specs.Machine.{same, same_fault};

use script_tree::value::{Fault, Value};

fn is_same_fault(left: Fault, right: Fault) -> bool
    ensures { result ≡ same_fault left right }
{
    left == right
}

/// Whether two values are equal. A fault is equal to one of its kind alone.
pub fn is_same(left: Value, right: Value) -> bool
    ensures { result ≡ same left right }
{
    match left {
        Value::Int(x) => match right {
            Value::Int(y) => x == y,
            _ => false,
        },
        Value::Bool(a) => match right {
            Value::Bool(b) => a == b,
            _ => false,
        },
        Value::Fault(f) => match right {
            Value::Fault(g) => is_same_fault(f, g),
            _ => false,
        },
    }
}
