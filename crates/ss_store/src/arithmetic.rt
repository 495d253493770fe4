// Operations on values. Numbers have 32 bits, and what doesn't fit is undefined.
ghost use Rattle.std.specs.Prelude.{◌≡◌, neg_ℤ};
ghost use Rattle.ss_store_rules.specs.Numbers as numbers;
ghost use Rattle.ss_store_rules.specs.Reads as reads;
ghost use Rattle.ss_store_rules.specs.Values as values;
ghost use Rattle.ss_store.specs.Whole.{whole_of};

use ss_core::{Kind, Operator, Place};
use ss_store_rules::{Undefined, Value};

/// A value that is no number counts as 0.
pub fn as_int(value: Value) -> i32
    ensures { result ≡ reads.as_int value }
{
    match value {
        Value::Int(n) => n,
        _ => 0,
    }
}

/// A value that is no truth value counts as false.
pub fn as_bool(value: Value) -> bool
    ensures { result ≡ reads.as_bool value }
{
    match value {
        Value::Bool(b) => b,
        _ => false,
    }
}

/// Whether two values are equal; references are where they refer to one object.
pub fn same_value(left: Value, right: Value) -> bool
    ensures { result ≡ reads.same_value left right }
{
    match (left, right) {
        (Value::Int(m), Value::Int(n)) => m == n,
        (Value::Bool(a), Value::Bool(b)) => a == b,
        (Value::Obj(o), Value::Obj(q)) => o == q,
        (Value::Null, Value::Null) => true,
        _ => false,
    }
}

pub(crate) fn undefined(place: Place, kind: Kind) -> Undefined
    ensures { result ≡ numbers.undefined place kind }
{
    Undefined { kind, place }
}

// The number, where there is one.
fn whole(place: Place, number: Option<i32>) -> Result<Value, Undefined>
    ensures { result ≡ whole_of place number }
{
    match number {
        Some(n) => Ok(Value::Int(n)),
        None => Err(undefined(place, Kind::Overflow)),
    }
}

pub(crate) fn negate(place: Place, value: Value) -> Result<Value, Undefined>
    ensures { result ≡ numbers.whole place (neg_ℤ (reads.as_int value)) }
{
    whole(place, as_int(value).checked_neg())
}

fn divide(place: Place, x: i32, y: i32) -> Result<Value, Undefined>
    ensures { result ≡ numbers.quotient place x y }
{
    if y == 0 {
        return Err(undefined(place, Kind::ZeroDivisor));
    }
    whole(place, x.checked_div(y))
}

fn remainder(place: Place, x: i32, y: i32) -> Result<Value, Undefined>
    ensures { result ≡ numbers.remainder place x y }
{
    if y == 0 {
        return Err(undefined(place, Kind::ZeroDivisor));
    }
    whole(place, x.checked_rem(y))
}

// Whether the left operand alone gives the value.
pub(crate) fn decides(operator: Operator, left: Value) -> bool
    ensures { result ≡ values.decides operator left }
{
    match operator {
        Operator::And => !as_bool(left),
        Operator::Or => as_bool(left),
        _ => false,
    }
}

// The value of an operation whose operands have these values.
pub(crate) fn apply(
    operator: Operator,
    place: Place,
    left: Value,
    right: Value,
) -> Result<Value, Undefined>
    ensures { result ≡ values.applied operator place left right }
{
    let (x, y) = (as_int(left), as_int(right));
    match operator {
        Operator::And => Ok(Value::Bool(as_bool(left) && as_bool(right))),
        Operator::Or => Ok(Value::Bool(as_bool(left) || as_bool(right))),
        Operator::Equal => Ok(Value::Bool(same_value(left, right))),
        Operator::NotEqual => Ok(Value::Bool(!same_value(left, right))),
        Operator::Less => Ok(Value::Bool(x < y)),
        Operator::LessEqual => Ok(Value::Bool(x <= y)),
        Operator::Greater => Ok(Value::Bool(x > y)),
        Operator::GreaterEqual => Ok(Value::Bool(x >= y)),
        Operator::Add => whole(place, x.checked_add(y)),
        Operator::Subtract => whole(place, x.checked_sub(y)),
        Operator::Multiply => whole(place, x.checked_mul(y)),
        Operator::Divide => divide(place, x, y),
        Operator::Remainder => remainder(place, x, y),
    }
}
