// Scripts.

ghost use Rattle.std.specs.Prelude.{◌≡◌, ◌≤◌, length};
ghost use Rattle.script_tree.specs.declared.limits.TheConstants.{INPUTS};
ghost use Rattle.script_tree.specs.Tree.{tree_of};
ghost use Rattle.script_tree.specs.Eval.{eval_script, eval_body};
ghost use Rattle.script_tree.specs.Scripts.{WellFormed, HasNoPicks, IsBody};

use crate::expr::Expr;
use crate::name::NameList;
use crate::value::{Fault, Value};
use std::marker::Model;

/// A script: its different names in the order of their first appearance, and its tree, in which an input is the place
/// of its name.
#[derive(Debug, Drop)]
pub struct Script {
    names: NameList,
    tree: Expr,
}

impl Model for Script {
    ghost use Rattle.script_tree.specs.Scripts.{Scripted, scripted_code, WellFormed};
    ghost use Rattle.script_tree.specs.Tree.{tree_of};

    ghost Value = { Scripted };

    ghost coded = { scripted_code };

    ghost view = { λ s. record { names = s.names; tree = tree_of s.tree } };

    ghost invariant = { λ s. WellFormed s.names (tree_of s.tree) };
}

impl Script {
    /// The script of these names and this tree. Takes no memory.
    pub fn new(names: NameList, tree: Expr) -> Script
        requires { WellFormed names (tree_of tree) }
        ensures names { result.names ≡ names }
        ensures tree { result.tree ≡ tree_of tree }
    {
        Script { names, tree }
    }

    /// What every script keeps. Does nothing when it runs.
    pub fn well_formed(&self)
        ensures { WellFormed self.now.names self.now.tree }
    {
        let _ = &self.names;
    }

    /// The different names, in the order of their first appearance, without `acc`.
    pub fn inputs(&self) -> &NameList
        ensures names { result.now ≡ self.now.names }
        ensures few { length self.now.names ≤ INPUTS }
    {
        &self.names
    }

    /// The tree, in which an input is the place of its name.
    pub fn tree(&self) -> &Expr
        ensures { tree_of result.now ≡ self.now.tree }
    {
        &self.tree
    }

    /// The value over the values of the inputs, in the order of `inputs`, and of `acc`. Takes no memory.
    pub fn eval(&self, inputs: &[Value], acc: Value) -> Value
        requires inputs { length inputs.now ≡ length self.now.names }
        requires picks { HasNoPicks self.now }
        ensures { result ≡ eval_script self.now.tree inputs.now acc }
    {
        self.tree.eval(inputs, &[], acc)
    }

    /// The value of a body over the values of its picks. Takes no memory.
    pub fn eval_body(&self, picks: &[Value]) -> Value
        requires { IsBody (length picks.now) self.now }
        ensures { result ≡ eval_body self.now.tree picks.now }
    {
        self.tree.eval(&[], picks, Value::Fault(Fault::Kind))
    }
}
