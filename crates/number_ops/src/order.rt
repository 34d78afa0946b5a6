//! Natural order, and the members of Object and Comparable.
ghost use Rattle.std.specs.Prelude.{◌≡◌, ◌-◌, None, length, slice_get};
ghost use Rattle.number_ops.specs.Outcomes.{Affords, Tells};
ghost use Rattle.number_ops.specs.Order as spec;
ghost use Rattle.number_ops.specs.Order.{compare, equals, to_text, natural, text_order};

use crate::affording::{Afforded, text_afforded};
use crate::chars::flag_order;
use crate::errors::{cannot_compare, null_error};
use crate::numbers::comparison;
use crate::operators::{too_deep, too_large};
use crate::outcome::Outcome;
use crate::values::is_null;
use member_arguments::text_room;
use object_heap::Heap;
use object_values::Value;
use value_walks::{VISITS, Walked, equal, text_within};

// The length of a text as an int, at most the greatest one.
fn length_as_int(length: usize) -> i32
    ensures { result ≡ spec.length_as_int length }
{
    if length <= 2_147_483_647 {
        length as i32
    } else {
        2_147_483_647
    }
}

// Whether two texts differ at a place, or one of them ends there.
fn differs_at(a: &[u16], b: &[u16], at: usize) -> bool
    ensures { result ≡ spec.differs (slice_get a.now at) (slice_get b.now at) }
{
    match (a.get(at), b.get(at)) {
        (None, _) => true,
        (Some(_), None) => true,
        (Some(unit), Some(next)) => unit != next,
    }
}

// The difference of the units at a place; where a text ends there, of the lengths.
fn difference_at(a: &[u16], b: &[u16], at: usize) -> i32
    ensures { result ≡ spec.difference (slice_get a.now at) (slice_get b.now at) (length a.now - at) (length b.now - at) }
{
    match (a.get(at), b.get(at)) {
        (None, _) => -length_as_int(b.len().saturating_sub(at)),
        (Some(_), None) => length_as_int(a.len().saturating_sub(at)),
        (Some(unit), Some(next)) => i32::from(*unit) - i32::from(*next),
    }
}

// The difference of the first units that differ, and else of the lengths.
fn text_order(a: &[u16], b: &[u16]) -> i32
    ensures { result ≡ text_order a.now b.now }
{
    for at in 0..a.len() {
        if differs_at(a, b, at) {
            return difference_at(a, b, at);
        }
    }
    -length_as_int(b.len().saturating_sub(a.len()))
}

fn int_order(a: i32, other: &Value) -> Option<i32>
    ensures { result ≡ spec.int_order a other.now }
{
    match other {
        Value::Int(b) => Some(comparison(i64::from(a), i64::from(*b))),
        _ => None,
    }
}

fn long_order(a: i64, other: &Value) -> Option<i32>
    ensures { result ≡ spec.long_order a other.now }
{
    match other {
        Value::Long(b) => Some(comparison(a, *b)),
        _ => None,
    }
}

fn truth_order(a: bool, other: &Value) -> Option<i32>
    ensures { result ≡ spec.truth_order a other.now }
{
    match other {
        Value::Bool(b) => Some(flag_order(a, *b)),
        _ => None,
    }
}

fn byte_order(a: i8, other: &Value) -> Option<i32>
    ensures { result ≡ spec.byte_order a other.now }
{
    match other {
        Value::Byte(b) => Some(i32::from(a) - i32::from(*b)),
        _ => None,
    }
}

fn short_order(a: i16, other: &Value) -> Option<i32>
    ensures { result ≡ spec.short_order a other.now }
{
    match other {
        Value::Short(b) => Some(i32::from(a) - i32::from(*b)),
        _ => None,
    }
}

fn char_order(a: u16, other: &Value) -> Option<i32>
    ensures { result ≡ spec.char_order a other.now }
{
    match other {
        Value::Char(b) => Some(i32::from(a) - i32::from(*b)),
        _ => None,
    }
}

fn order_of_text(a: &[u16], other: &Value) -> Option<i32>
    ensures { result ≡ spec.order_of_text a.now other.now }
{
    match other {
        Value::Str(b) => Some(text_order(a, b.units())),
        _ => None,
    }
}

/// Natural order of two values of one class: below 0, 0 or above 0 where the first comes before the second, with it or behind it. Other
/// values have none.
pub fn natural(a: &Value, b: &Value) -> Option<i32>
    ensures { result ≡ natural a.now b.now }
{
    match a {
        Value::Int(number) => int_order(*number, b),
        Value::Long(number) => long_order(*number, b),
        Value::Bool(flag) => truth_order(*flag, b),
        Value::Byte(number) => byte_order(*number, b),
        Value::Short(number) => short_order(*number, b),
        Value::Char(unit) => char_order(*unit, b),
        Value::Str(text) => order_of_text(text.units(), b),
        Value::Null => None,
        Value::Ref(_) => None,
    }
}

/// Natural order.
pub fn compare(heap: &Heap, a: &Value, b: &Value) -> Outcome
    ensures { Tells (compare heap.now.objects a.now b.now) result }
{
    match natural(a, b) {
        Some(order) => Outcome::Gives(Value::Int(order)),
        None => not_ordered(heap, a, b),
    }
}

fn not_ordered(heap: &Heap, a: &Value, b: &Value) -> Outcome
    ensures { Tells (spec.ordered heap.now.objects a.now b.now None) result }
{
    if is_null(a) {
        null_error()
    } else if is_null(b) {
        null_error()
    } else {
        cannot_compare(heap, a, b)
    }
}

/// Deep equality.
pub fn equals(heap: &Heap, a: &Value, b: &Value) -> Outcome
    ensures { Tells (equals heap.now.objects a.now b.now) result }
{
    match equal(heap, a, b, VISITS) {
        Walked::On(equal, _) => Outcome::Gives(Value::Bool(equal)),
        Walked::Deep => too_deep(heap),
        Walked::Large => too_large(heap),
    }
}

/// The text of a value, which is made if there is room for it.
pub fn to_text(heap: &Heap, value: &Value) -> Afforded
    ensures { Affords heap.now (to_text heap.now.objects value.now) result }
{
    text_afforded(heap, text_within(heap, value, VISITS, text_room(heap)))
}
