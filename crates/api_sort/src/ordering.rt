//! Which of two values comes first in natural order, and which values have no such order.
ghost use Rattle.std.specs.Prelude.{◌≡◌, Some, drop, is_some};
ghost use Rattle.std.specs.Option.{option_copied};
ghost use Rattle.number_ops.specs.Operators as operators;
ghost use Rattle.number_ops.specs.Order.{natural};
ghost use Rattle.container_outcomes.specs.Outcomes.{Tells};
ghost use Rattle.container_values.specs.Elements.{values_of};
ghost use Rattle.api_sort.specs.Ordering as spec;
ghost use Rattle.api_sort.specs.Ordering.{Refuses};

use container_outcomes::{Outcome, Raised, null_error, says};
use container_parts::Container;
use container_values::{value_at, value_count};
use number_ops::{compare_message, natural};
use object_heap::Heap;
use object_values::Value;

/// Whether a value comes before another in natural order.
pub fn before(a: &Value, b: &Value) -> bool
    ensures { result ≡ spec.before a.now b.now }
{
    match natural(a, b) {
        Some(difference) => difference < 0,
        None => false,
    }
}

fn are_compared(a: &Value, b: &Value) -> bool
    ensures { result ≡ is_some (natural a.now b.now) }
{
    natural(a, b).is_some()
}

fn is_null(value: &Value) -> bool
    ensures { result ≡ operators.is_null value.now }
{
    match value {
        Value::Null => true,
        _ => false,
    }
}

fn has_null(heap: &Heap, container: Container) -> bool
    ensures { result ≡ spec.has_null (values_of heap.now.objects container) }
{
    for at in 0..value_count(heap, container) {
        let Some(value) = value_at(heap, container, at) else {
            unreachable!()
        };
        if is_null(value) {
            return true;
        }
    }
    false
}

// The first element behind the first that natural order does not compare with it.
fn first_other<'a>(heap: &'a Heap, container: Container, first: &Value) -> Option<&'a Value>
    ensures { option_copied result ≡ spec.first_other first.now (drop 1 (values_of heap.now.objects container)) }
{
    for at in 1..value_count(heap, container) {
        let Some(value) = value_at(heap, container, at) else {
            unreachable!()
        };
        if !are_compared(first, value) {
            return Some(value);
        }
    }
    None
}

#[tactic(auto, unfolding(container_outcomes::specs::Outcomes::says))]
fn cannot_compare(heap: &Heap, a: &Value, b: &Value) -> Outcome
    ensures { Tells (spec.cannot_compare heap.now.objects a.now b.now) result }
{
    match compare_message(heap, a, b) {
        Ok(text) => says(heap, Raised::ClassCast, text.as_str()),
        Err(_) => Outcome::NoMemory,
    }
}

fn others_refused(heap: &Heap, container: Container, first: &Value) -> Option<Outcome>
    ensures { Refuses (spec.others_refused heap.now.objects (values_of heap.now.objects container) (Some first.now)) result }
{
    match first_other(heap, container, first) {
        Some(other) => Some(cannot_compare(heap, first, other)),
        None => None,
    }
}

/// What is thrown where two elements or more have no natural order.
pub fn refusal(heap: &Heap, container: Container) -> Option<Outcome>
    ensures { Refuses (spec.refusal heap.now.objects (values_of heap.now.objects container)) result }
{
    if value_count(heap, container) < 2 {
        return None;
    }
    if has_null(heap, container) {
        return Some(null_error());
    }
    match value_at(heap, container, 0) {
        Some(first) => others_refused(heap, container, first),
        None => None,
    }
}
