//! The members of Map.Entry.
ghost use Rattle.api_map.specs.Entries as spec;
ghost use Rattle.container_outcomes.specs.Outcomes.{Tells};

use crate::arguments::entry_at;
use crate::errors::gone;
use crate::guards::may_put;
use crate::maps::{has_key, puts, value_or_null};
use container_outcomes::{Outcome, given, null_error, unsupported};
use member_arguments::value_at;
use object_heap::Heap;
use object_values::Value;

fn value_set(heap: &Heap, map: u32, key: &Value, value: &Value) -> Outcome
    ensures { Tells (spec.value_set heap.now.objects (map, key.now) value.now) result }
{
    if !may_put(heap, map, key) {
        return unsupported();
    }
    if has_key(heap, map, key) {
        puts(map, key, value)
    } else {
        gone(heap)
    }
}

/// `getKey()`.
pub fn get_key(heap: &Heap, args: &[Value]) -> Outcome
    ensures { Tells (spec.get_key heap.now.objects args.now) result }
{
    match entry_at(heap, args, 0) {
        Some((_, key)) => given(key),
        None => null_error(),
    }
}

/// `getValue()`.
pub fn get_value(heap: &Heap, args: &[Value]) -> Outcome
    ensures { Tells (spec.get_value heap.now.objects args.now) result }
{
    match entry_at(heap, args, 0) {
        Some((map, key)) => value_or_null(heap, map, key),
        None => null_error(),
    }
}

/// `setValue(def)`.
pub fn set_value(heap: &Heap, args: &[Value]) -> Outcome
    ensures { Tells (spec.set_value heap.now.objects args.now) result }
{
    match (entry_at(heap, args, 0), value_at(args, 1)) {
        (Some((map, key)), Some(value)) => value_set(heap, map, key, value),
        _ => null_error(),
    }
}
