// What the operators do to values.

ghost use Rattle.std.specs.Prelude.{◌≡◌};
ghost use Rattle.script_tree.specs.Eval.{number, on_numbers, on_truths, strict, as_truth, unary};

use crate::expr::{Binary, Unary};
use crate::value::{Fault, Value};

pub fn sum(x: i64, y: i64) -> Value
    ensures { result ≡ on_numbers Binary.Add x y }
{
    match x.checked_add(y) {
        Some(z) => Value::Int(z),
        None => Value::Fault(Fault::Overflow),
    }
}

pub fn difference(x: i64, y: i64) -> Value
    ensures { result ≡ on_numbers Binary.Subtract x y }
{
    match x.checked_sub(y) {
        Some(z) => Value::Int(z),
        None => Value::Fault(Fault::Overflow),
    }
}

pub fn product(x: i64, y: i64) -> Value
    ensures { result ≡ on_numbers Binary.Multiply x y }
{
    match x.checked_mul(y) {
        Some(z) => Value::Int(z),
        None => Value::Fault(Fault::Overflow),
    }
}

pub fn quotient(x: i64, y: i64) -> Value
    ensures { result ≡ on_numbers Binary.Divide x y }
{
    if y == 0 {
        return Value::Fault(Fault::ZeroDivisor);
    }
    match x.checked_div(y) {
        Some(z) => Value::Int(z),
        None => Value::Fault(Fault::Overflow),
    }
}

pub fn remainder(x: i64, y: i64) -> Value
    ensures { result ≡ on_numbers Binary.Remainder x y }
{
    if y == 0 {
        return Value::Fault(Fault::ZeroDivisor);
    }
    if y == -1 {
        return Value::Int(0);
    }
    Value::Int(x % y)
}

pub fn negated(x: i64) -> Value
    ensures { result ≡ unary Unary.Negate (Value.Int x) }
{
    match x.checked_neg() {
        Some(z) => Value::Int(z),
        None => Value::Fault(Fault::Overflow),
    }
}
