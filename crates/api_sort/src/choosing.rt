//! The greatest and the least element of a collection in natural order.
ghost use Rattle.std.specs.Prelude.{◌≡◌, if◌then◌else◌, Some, drop, slice_get};
ghost use Rattle.std.specs.Option.{option_copied};
ghost use Rattle.container_outcomes.specs.Outcomes.{Tells};
ghost use Rattle.container_values.specs.Elements as elements;
ghost use Rattle.container_values.specs.Elements.{values_of};
ghost use Rattle.api_sort.specs.Choosing as spec;

use crate::ordering::{before, refusal};
use container_outcomes::{Outcome, Raised, fails, given, says, shared};
use container_parts::Container;
use container_values::{entry_count, entry_key_at, map_shown, value_at, value_count};
use object_heap::Heap;
use object_values::{Object, Value};

/// Which element.
#[derive(Clone, Copy)]
pub enum Extreme {
    Greatest,
    Least,
}

fn beats(which: Extreme, value: &Value, best: &Value) -> bool
    ensures { result ≡ spec.beats which value.now best.now }
{
    match which {
        Extreme::Greatest => before(best, value),
        Extreme::Least => before(value, best),
    }
}

fn better<'a>(which: Extreme, value: &'a Value, best: &'a Value) -> &'a Value
    ensures { result.now ≡ (if spec.beats which value.now best.now then value.now else best.now) }
{
    if beats(which, value, best) {
        value
    } else {
        best
    }
}

fn best_of<'a>(which: Extreme, heap: &'a Heap, container: Container, first: &'a Value) -> &'a Value
    ensures { result.now ≡ spec.best_of which first.now (drop 1 (values_of heap.now.objects container)) }
{
    let mut best = first;
    for at in 1..value_count(heap, container) {
        let Some(value) = value_at(heap, container, at) else {
            unreachable!()
        };
        best = better(which, value, best);
    }
    best
}

fn no_element() -> Outcome
    ensures { result ≡ spec.no_element }
{
    fails(Raised::NoSuchElement)
}

fn chosen_from(which: Extreme, heap: &Heap, container: Container, first: &Value) -> Outcome
    ensures { Tells (spec.chosen which heap.now.objects (values_of heap.now.objects container) (Some first.now)) result }
{
    match refusal(heap, container) {
        Some(refused) => refused,
        None => given(best_of(which, heap, container, first)),
    }
}

fn chosen(which: Extreme, heap: &Heap, container: Container) -> Outcome
    ensures { Tells (spec.chosen which heap.now.objects (values_of heap.now.objects container) (slice_get (values_of heap.now.objects container) 0)) result }
{
    match value_at(heap, container, 0) {
        Some(first) => chosen_from(which, heap, container, first),
        None => no_element(),
    }
}

fn entry_made(map: u32, key: &Value) -> Outcome
    ensures { Tells (spec.entry_given map (Some key.now)) result }
{
    match shared(key) {
        Some(key) => Outcome::New(Object::Entry { map, key }),
        None => Outcome::NoMemory,
    }
}

fn entry_given(heap: &Heap, container: Container) -> Outcome
    ensures { Tells (spec.entry_given (elements.map_shown container) (slice_get (elements.entry_keys_of heap.now.objects container) 0)) result }
{
    match entry_key_at(heap, container, 0) {
        Some(key) => entry_made(map_shown(container), key),
        None => no_element(),
    }
}

fn entries_unordered(heap: &Heap) -> Outcome
    ensures { Tells spec.entries_unordered result }
{
    says(
        heap,
        Raised::ClassCast,
        "Cannot compare [Map$Entry] and [Map$Entry]",
    )
}

/// `Collections.max(Collection)` and `min`: the first of the greatest or the least elements. A single entry of a view is made.
pub fn extreme_of(which: Extreme, heap: &Heap, container: Container) -> Outcome
    ensures { Tells (spec.extreme_of which heap.now.objects container) result }
{
    let entries = entry_count(heap, container);
    if entries == 0 {
        chosen(which, heap, container)
    } else if entries == 1 {
        entry_given(heap, container)
    } else {
        entries_unordered(heap)
    }
}
