// Whether what a report says is what it has to say.

ghost use Rattle.std.specs.Prelude.{◌≡◌, ◌↔◌, IsTrue};

use script_tree::name::Name;
use script_tree::value::Value;
use signal_graph::call::Reply;
use signal_graph::log::Refused;

/// Whether two values are the same.
pub fn same_value(left: Value, right: Value) -> bool
    ensures { IsTrue result ↔ (left ≡ right) }
{
    left == right
}

/// Whether two refusals are the same.
pub fn same_refused(left: Refused, right: Refused) -> bool
    ensures { IsTrue result ↔ (left ≡ right) }
{
    left == right
}

/// Whether two lists have the same values.
fn same_values(left: &[Value], right: &[Value]) -> bool
    ensures { IsTrue result ↔ (left.now ≡ right.now) }
{
    if left.len() != right.len() {
        return false;
    }
    for index in 0..left.len() {
        if !same_value(left[index], right[index]) {
            return false;
        }
    }
    true
}

/// Whether two lists have the same names.
pub fn same_names(left: &[Name], right: &[Name]) -> bool
    ensures { IsTrue result ↔ (left.now ≡ right.now) }
{
    if left.len() != right.len() {
        return false;
    }
    for index in 0..left.len() {
        if !left[index].same(&right[index]) {
            return false;
        }
    }
    true
}

/// Whether two replies are the same.
pub fn same_reply(left: &Reply, right: &Reply) -> bool
    ensures { IsTrue result ↔ (left.now ≡ right.now) }
{
    match left {
        Reply::Fire {
            changed,
            evaluated,
            looks,
        } => match right {
            Reply::Fire {
                changed: other_changed,
                evaluated: other_evaluated,
                looks: other_looks,
            } => {
                *changed == *other_changed
                    && *evaluated == *other_evaluated
                    && same_values(looks.as_slice(), other_looks.as_slice())
            }
            Reply::Read { .. } => false,
        },
        Reply::Read { looks } => match right {
            Reply::Read { looks: other_looks } => same_values(
                looks.as_slice(),
                other_looks.as_slice(),
            ),
            Reply::Fire { .. } => false,
        },
    }
}
