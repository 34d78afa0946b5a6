//! The members of Collection, of sets and of views of maps.
ghost use Rattle.std.specs.Prelude.{◌≡◌, Some};
ghost use Rattle.container_outcomes.specs.declared.outcome.Outcome.{Outcome};
ghost use Rattle.api_map.specs.declared.arguments.Keyed.TheVariants as keyed;
ghost use Rattle.api_map.specs.Collections as spec;
ghost use Rattle.container_outcomes.specs.Outcomes.{Tells};

use crate::arguments::{Keyed, entry_of, holder_of, keyed_at};
use crate::maps::{cleared, emptiness_given, has_key, key_found, size_given, value_found};
use container_outcomes::{
    Compared, Outcome, compare_entries, is_open, not_simple, null_error, too_deep, too_large,
    unsupported,
};
use member_arguments::value_at;
use object_heap::Heap;
use object_values::{Part, Value};

fn adds(set: u32, key: &Value) -> Outcome
    ensures { Tells (Outcome.Adds set key.now) result }
{
    match key.share() {
        Ok(key) => Outcome::Adds(set, key),
        Err(_) => Outcome::NoMemory,
    }
}

fn added_to(heap: &Heap, set: u32, key: &Value) -> Outcome
    ensures { Tells (spec.added heap.now.objects (keyed.Set set) key.now) result }
{
    if !is_open(heap, set) {
        return unsupported();
    }
    if key.is_simple() {
        adds(set, key)
    } else {
        not_simple(heap)
    }
}

fn added(heap: &Heap, keyed: Keyed, key: &Value) -> Outcome
    ensures { Tells (spec.added heap.now.objects keyed key.now) result }
{
    match keyed {
        Keyed::Set(set) => added_to(heap, set, key),
        Keyed::View(_, _) => unsupported(),
    }
}

/// Compares the entry that one map has under a key with the one that a view of another's entries shows of the key, if it shows one.
pub fn compare_shown(heap: &Heap, from: u32, map: u32, key: &Value) -> Compared
    ensures { result ≡ spec.shown_by heap.now.objects map (Some (from, key.now)) }
{
    if has_key(heap, map, key) {
        compare_entries(heap, from, key, map, key)
    } else {
        Compared::Other
    }
}

/// Whether a value is an entry that a view of a map's entries shows.
pub fn entry_shown(heap: &Heap, map: u32, value: &Value) -> Compared
    ensures { result ≡ spec.entry_shown heap.now.objects map value.now }
{
    match entry_of(heap, value) {
        Some((from, key)) => compare_shown(heap, from, map, key),
        None => Compared::Other,
    }
}

fn entry_found(heap: &Heap, map: u32, value: &Value) -> Outcome
    ensures { Tells (spec.entry_found heap.now.objects map value.now) result }
{
    match entry_shown(heap, map, value) {
        Compared::Same => Outcome::Gives(Value::Bool(true)),
        Compared::Other => Outcome::Gives(Value::Bool(false)),
        Compared::Deep => too_deep(heap),
        Compared::Large => too_large(heap),
    }
}

fn found_in_view(heap: &Heap, map: u32, part: Part, value: &Value) -> Outcome
    ensures { Tells (spec.found_in heap.now.objects (keyed.View map part) value.now) result }
{
    match part {
        Part::Keys => key_found(heap, map, value),
        Part::Values => value_found(heap, map, value),
        Part::Entries => entry_found(heap, map, value),
    }
}

/// Whether a value is one of the elements.
pub fn found_in(heap: &Heap, keyed: Keyed, value: &Value) -> Outcome
    ensures { Tells (spec.found_in heap.now.objects keyed value.now) result }
{
    match keyed {
        Keyed::Set(set) => key_found(heap, set, value),
        Keyed::View(map, part) => found_in_view(heap, map, part, value),
    }
}

/// `add(def)`.
pub fn add(heap: &Heap, args: &[Value]) -> Outcome
    ensures { Tells (spec.add heap.now.objects args.now) result }
{
    match (keyed_at(heap, args, 0), value_at(args, 1)) {
        (Some(keyed), Some(key)) => added(heap, keyed, key),
        _ => null_error(),
    }
}

/// `clear()`.
pub fn clear(heap: &Heap, args: &[Value]) -> Outcome
    ensures { Tells (spec.clear heap.now.objects args.now) result }
{
    match keyed_at(heap, args, 0) {
        Some(keyed) => cleared(heap, holder_of(keyed)),
        None => null_error(),
    }
}

/// `contains(def)`.
pub fn contains(heap: &Heap, args: &[Value]) -> Outcome
    ensures { Tells (spec.contains heap.now.objects args.now) result }
{
    match (keyed_at(heap, args, 0), value_at(args, 1)) {
        (Some(keyed), Some(value)) => found_in(heap, keyed, value),
        _ => null_error(),
    }
}

/// `isEmpty()`.
pub fn is_empty(heap: &Heap, args: &[Value]) -> Outcome
    ensures { Tells (spec.is_empty heap.now.objects args.now) result }
{
    match keyed_at(heap, args, 0) {
        Some(keyed) => emptiness_given(heap, holder_of(keyed)),
        None => null_error(),
    }
}

/// `size()`.
pub fn size(heap: &Heap, args: &[Value]) -> Outcome
    ensures { Tells (spec.size heap.now.objects args.now) result }
{
    match keyed_at(heap, args, 0) {
        Some(keyed) => size_given(heap, holder_of(keyed)),
        None => null_error(),
    }
}
