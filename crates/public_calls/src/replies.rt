// What a reply says.

use script_tree::value::Value;
use signal_graph::call::Reply;

/// How many nodes a fire changed and evaluated. A read has no such numbers.
pub fn counts_of(reply: &Reply) -> Option<(u32, u32)> {
    match reply {
        Reply::Fire {
            changed,
            evaluated,
            looks: _,
        } => Some((*changed, *evaluated)),
        Reply::Read { looks: _ } => None,
    }
}

/// The values looked at.
pub fn looks_of(reply: &Reply) -> &[Value] {
    match reply {
        Reply::Fire {
            changed: _,
            evaluated: _,
            looks,
        } => looks.as_slice(),
        Reply::Read { looks } => looks.as_slice(),
    }
}
