//! Comparing with the value of a key, and the first pair that has a value.
ghost use Rattle.std.specs.Prelude.{◌≡◌, ◌≤◌, IfNone, IfSome, Some, length, slice_get};
ghost use Rattle.object_heap.specs.Parts.{pairs_of};
ghost use Rattle.object_values.specs.Pairs.{value_of};
ghost use Rattle.api_map.specs.Searching as spec;

use container_outcomes::{Compared, Found, compare};
use object_heap::Heap;
use object_values::{Pairs, Value};

/// Deep equality with the value that a map has under a key, if it has one.
pub fn compare_with(heap: &Heap, value: &Value, map: u32, key: &Value) -> Compared
    ensures { result ≡ spec.compared_with heap.now.objects value.now (value_of (pairs_of heap.now.objects map) key.now) }
{
    match heap.map_get(map, key) {
        Some(other) => compare(heap, value, other),
        None => Compared::Other,
    }
}

/// The key and the value at a place.
pub fn pair_at(pairs: &Pairs, at: usize) -> Option<(&Value, &Value)>
    ensures none { IfNone result (length pairs.now ≤ at) }
    ensures some { IfSome result (λ pair. slice_get pairs.now at ≡ Some (pair.0.now, pair.1.now)) }
{
    match (pairs.key_at(at), pairs.value_at(at)) {
        (Some(key), Some(value)) => Some((key, value)),
        _ => None,
    }
}

/// The first pair whose value is equal to this one.
pub fn first_of(heap: &Heap, value: &Value, pairs: &Pairs) -> Found
    ensures { result ≡ spec.first_from heap.now.objects value.now 0 pairs.now }
{
    for at in 0..pairs.len() {
        let Some((_, other)) = pair_at(pairs, at) else {
            return Found::Nowhere;
        };
        match compare(heap, value, other) {
            Compared::Same => return Found::At(at),
            Compared::Other => {}
            Compared::Deep => return Found::Deep,
            Compared::Large => return Found::Large,
        }
    }
    Found::Nowhere
}
