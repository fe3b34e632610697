// What a line says.

use script_tree::name::Name;
use signal_graph::builder::DeclKind;
use signal_graph::call::Call;

/// What a line says.
#[derive(Debug, Drop)]
pub enum Line {
    /// It has no words.
    Nothing,
    /// It declares a node with this name.
    Declares(Name, DeclKind),
    /// It begins a thread.
    Thread,
    /// It is a call of the newest thread.
    Calls(Call),
}
