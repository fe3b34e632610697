// The value of a script.

ghost use Rattle.std.specs.Prelude.{◌≡◌, IfSome};
ghost use Rattle.script_tree.specs.Eval.{on_numbers, on_truths, strict, as_truth, unary, given, eval};
ghost use Rattle.script_tree.specs.Tree.{tree_of};

use crate::arith::{difference, negated, product, quotient, remainder, sum};
use crate::expr::{Binary, Expr, Unary};
use crate::value::{Fault, Value};

fn on_numbers(op: Binary, x: i64, y: i64) -> Value
    ensures { result ≡ on_numbers op x y }
{
    match op {
        Binary::Add => sum(x, y),
        Binary::Subtract => difference(x, y),
        Binary::Multiply => product(x, y),
        Binary::Divide => quotient(x, y),
        Binary::Remainder => remainder(x, y),
        Binary::Less => Value::Bool(x < y),
        Binary::AtMost => Value::Bool(x <= y),
        Binary::Greater => Value::Bool(x > y),
        Binary::AtLeast => Value::Bool(x >= y),
        Binary::Equal => Value::Bool(x == y),
        Binary::Unequal => Value::Bool(x != y),
        _ => Value::Fault(Fault::Kind),
    }
}

fn on_truths(op: Binary, a: bool, b: bool) -> Value
    ensures { result ≡ on_truths op a b }
{
    match op {
        Binary::Equal => Value::Bool(a == b),
        Binary::Unequal => Value::Bool(a != b),
        _ => Value::Fault(Fault::Kind),
    }
}

#[inline(always)]
fn strict(op: Binary, left: Value, right: Value) -> Value
    ensures { result ≡ strict op left right }
{
    match left {
        Value::Fault(fault) => Value::Fault(fault),
        Value::Int(x) => match right {
            Value::Fault(fault) => Value::Fault(fault),
            Value::Int(y) => on_numbers(op, x, y),
            Value::Bool(_) => Value::Fault(Fault::Kind),
        },
        Value::Bool(a) => match right {
            Value::Fault(fault) => Value::Fault(fault),
            Value::Bool(b) => on_truths(op, a, b),
            Value::Int(_) => Value::Fault(Fault::Kind),
        },
    }
}

fn as_truth(value: Value) -> Value
    ensures { result ≡ as_truth value }
{
    match value {
        Value::Int(_) => Value::Fault(Fault::Kind),
        _ => value,
    }
}

fn unary(op: Unary, value: Value) -> Value
    ensures { result ≡ unary op value }
{
    match (op, value) {
        (_, Value::Fault(fault)) => Value::Fault(fault),
        (Unary::Negate, Value::Int(x)) => negated(x),
        (Unary::Not, Value::Bool(b)) => Value::Bool(!b),
        _ => Value::Fault(Fault::Kind),
    }
}

fn given(values: &[Value], index: u32) -> Value
    ensures { result ≡ given values.now index }
{
    match values.get(index as usize) {
        Some(value) => *value,
        None => Value::Fault(Fault::Kind),
    }
}

// What a script is evaluated over: the values of its inputs, of the picks and of `acc`, handed down a tree as one reference.
#[derive(Clone, Copy)]
struct Over<'a> {
    inputs: &'a [Value],
    picks: &'a [Value],
    acc: Value,
}

impl Expr {
    /// The value over the values of the inputs, of the picks and of `acc`. Takes no memory.
    /// It goes down the tree by recursion, once for each operator on the way.
    pub fn eval(&self, inputs: &[Value], picks: &[Value], acc: Value) -> Value
        ensures { result ≡ eval (tree_of self.now) inputs.now picks.now acc }
    {
        self.value(&Over { inputs, picks, acc })
    }

    // The value where there is no operator. Most operands are such leaves, and are told without a call.
    #[inline(always)]
    fn leaf(&self, over: &Over) -> Option<Value>
        ensures { IfSome result (λ value. value ≡ eval (tree_of self.now) over.now.inputs.now over.now.picks.now over.now.acc) }
    {
        match self {
            Expr::Number(z) => Some(Value::Int(*z)),
            Expr::Truth(b) => Some(Value::Bool(*b)),
            Expr::Input(index) => Some(given(over.inputs, *index)),
            Expr::Pick(index) => Some(given(over.picks, *index)),
            Expr::Acc => Some(over.acc),
            _ => None,
        }
    }

    fn value(&self, over: &Over) -> Value
        ensures { result ≡ eval (tree_of self.now) over.now.inputs.now over.now.picks.now over.now.acc }
    {
        match self {
            Expr::Number(z) => Value::Int(*z),
            Expr::Truth(b) => Value::Bool(*b),
            Expr::Input(index) => given(over.inputs, *index),
            Expr::Pick(index) => given(over.picks, *index),
            Expr::Acc => over.acc,
            Expr::Unary(op, operand) => unary(*op, operand.value(over)),
            Expr::Binary(Binary::OrElse, left, right) => match left.value(over) {
                Value::Fault(_) => right.value(over),
                value => value,
            },
            Expr::Binary(Binary::And, left, right) => match left.value(over) {
                Value::Bool(b) if b => as_truth(right.value(over)),
                Value::Int(_) => Value::Fault(Fault::Kind),
                value => value,
            },
            Expr::Binary(Binary::Or, left, right) => match left.value(over) {
                Value::Bool(b) if !b => as_truth(right.value(over)),
                Value::Int(_) => Value::Fault(Fault::Kind),
                value => value,
            },
            Expr::Binary(op, left, right) => {
                if let Some(first) = left.leaf(over) {
                    if let Some(second) = right.leaf(over) {
                        return strict(*op, first, second);
                    }
                }
                let first = left.value(over);
                strict(*op, first, right.value(over))
            }
            Expr::If(test, first, second) => match test.value(over) {
                Value::Bool(b) => {
                    if b {
                        first.value(over)
                    } else {
                        second.value(over)
                    }
                }
                Value::Int(_) => Value::Fault(Fault::Kind),
                value => value,
            },
        }
    }
}
