//! An order of all values which among values of one class is natural order.
ghost use Rattle.std.specs.Prelude.{◌≡◌};
ghost use Rattle.std.specs.Cmp.Lexicographic.{slice_cmp};
ghost use Rattle.std.specs.Ordering.{nat_cmp};
ghost use Rattle.api_sort.specs.Keys as spec;

use object_values::Value;
use std::cmp::Ordering;

fn number_in(value: &Value) -> i64
    ensures { result ≡ spec.number_in value.now }
{
    match value {
        Value::Bool(flag) => number_of_flag(*flag),
        Value::Byte(number) => i64::from(*number),
        Value::Short(number) => i64::from(*number),
        Value::Char(unit) => i64::from(*unit),
        Value::Int(number) => i64::from(*number),
        Value::Long(number) => *number,
        Value::Null => 0,
        Value::Str(_) => 0,
        Value::Ref(_) => 0,
    }
}

fn number_of_flag(flag: bool) -> i64
    ensures { result ≡ spec.number_of_flag flag }
{
    if flag { 1 } else { 0 }
}

fn units_in(value: &Value) -> &[u16]
    ensures { result.now ≡ spec.units_in value.now }
{
    match value {
        Value::Str(text) => text.units(),
        _ => &[],
    }
}

fn texts_order(a: &[u16], b: &[u16]) -> Ordering
    ensures { result ≡ slice_cmp nat_cmp a.now b.now }
{
    a.cmp(b)
}

/// The order of two values.
pub fn key_order(a: &Value, b: &Value) -> Ordering
    ensures { result ≡ spec.key_order a.now b.now }
{
    number_in(a)
        .cmp(&number_in(b))
        .then(texts_order(units_in(a), units_in(b)))
}
