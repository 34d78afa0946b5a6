//! Deep equality.
ghost use Rattle.std.specs.Prelude.{◌≡◌, Option, slice_get};
ghost use Rattle.std.specs.Option.{option_copied};
ghost use Rattle.value_walks.specs.Equality as spec;
ghost use Rattle.value_walks.specs.Equality.{equal_entries_of, equal_of, value_or, keys_in};
ghost use Rattle.object_values.specs.Pairs.{value_of};
ghost use Rattle.object_heap.specs.Parts.{pairs_of};

use crate::LEVELS;
use crate::keyed::{has_keys, pair_at};
use object_heap::Heap;
use object_values::{Object, Pairs, Part, Value};

/// How far a walk came: what it found, with the visits that are left; or why it stopped.
#[derive(Clone, Copy, Debug, PartialEq, Eq)]
pub enum Walked {
    On(bool, u64),
    /// It went more than 100 levels deep.
    Deep,
    /// It had more visits than its budget.
    Large,
}

/// Whether two values are equal, by a walk over the pairs of values that it compares, from level 1. It stops at the first
/// difference. Boxes are equal where they have one type and one value, and an object is equal to itself. Other lists are equal
/// to lists, and arrays to arrays, with equal elements in order; sets and views of keys to those with the same keys; maps to
/// those with the same keys and equal values; entries to those with equal keys and values. Keys of sets and maps are looked up
/// and not visited. It takes no memory.
///
/// `Deep` is a visit below level 100, and `Large` one more than the budget; the first is told where both hold.
#[tactic(auto, unfolding(crate::specs::Equality::equal_of))]
pub fn equal(heap: &Heap, a: &Value, b: &Value, budget: u64) -> Walked
    ensures { result ≡ equal_of heap.now.objects a.now b.now budget }
{
    equal_at(heap, LEVELS, a, b, budget)
}

/// Whether two entries are equal, each of which goes by its map and its key, so that neither need be an object: as [`equal`] finds of
/// two objects, by a walk that visits the two at level 1, and then their keys and the values that they have now at level 2. The
/// answers are those of [`equal`].
#[tactic(auto, using(crate::proofs::Stepping::one_visit), unfolding(crate::specs::Equality::equal_entries_of))]
pub fn equal_entries(
    heap: &Heap,
    map: u32,
    key: &Value,
    other_map: u32,
    other_key: &Value,
    budget: u64,
) -> Walked
    ensures { result ≡ equal_entries_of heap.now.objects map key.now other_map other_key.now budget }
{
    if budget == 0 {
        return Walked::Large;
    }
    both_equal(heap, LEVELS - 1, map, key, other_map, other_key, budget - 1)
}

// Compares two values, at so many levels and so many visits.
#[cycle(equality)]
fn equal_at(heap: &Heap, levels: u32, a: &Value, b: &Value, visits: u64) -> Walked
    ensures { result ≡ spec.equal_at levels heap.now.objects a.now b.now visits }
{
    if levels == 0 {
        return Walked::Deep;
    }
    if visits == 0 {
        return Walked::Large;
    }
    match (a, b) {
        (Value::Ref(x), Value::Ref(y)) if x != y => {
            contents_equal(heap, levels - 1, *x, *y, visits - 1)
        }
        _ => Walked::On(a == b, visits - 1),
    }
}

// Compares two objects that are not one.
#[cycle(equality)]
fn contents_equal(heap: &Heap, levels: u32, x: u32, y: u32, visits: u64) -> Walked
    ensures { result ≡ spec.contents_equal (spec.equal_at levels heap.now.objects) heap.now.objects (slice_get heap.now.objects x) (slice_get heap.now.objects y) visits }
{
    match (heap.get(x), heap.get(y)) {
        (Some(object), Some(other)) => objects_equal(heap, levels, object, other, visits),
        _ => Walked::On(false, visits),
    }
}

#[cycle(equality)]
fn objects_equal(heap: &Heap, levels: u32, object: &Object, other: &Object, visits: u64) -> Walked
    ensures { result ≡ spec.objects_equal (spec.equal_at levels heap.now.objects) heap.now.objects object.now other.now visits }
{
    match object {
        Object::List { items, .. } => {
            all_equal(heap, levels, items.as_slice(), list_in(other), visits)
        }
        Object::Array { items, .. } => {
            all_equal(heap, levels, items.as_slice(), array_in(other), visits)
        }
        Object::Map { pairs, .. } => maps_equal(heap, levels, pairs, map_in(other), visits),
        Object::Entry { map, key } => { entries_equal(heap, levels, *map, key, other, visits) }
        _ => Walked::On(
            sets_equal(keys_in(heap, object), keys_in(heap, other)),
            visits,
        ),
    }
}

// Compares items in order, where they are as many.
#[cycle(equality)]
fn all_equal(
    heap: &Heap,
    levels: u32,
    left: &[Value],
    right: Option<&[Value]>,
    visits: u64,
) -> Walked
    ensures { result ≡ spec.all_equal (spec.equal_at levels heap.now.objects) left.now (option_copied right.entry) visits }
{
    let Some(right) = right else {
        return Walked::On(false, visits);
    };
    if left.len() != right.len() {
        return Walked::On(false, visits);
    }
    let mut rest = visits;
    for at in 0..left.len() {
        match equal_at(heap, levels, &left[at], &right[at], rest) {
            Walked::On(true, after) => rest = after,
            Walked::On(false, after) => return Walked::On(false, after),
            Walked::Deep => return Walked::Deep,
            Walked::Large => return Walked::Large,
        }
    }
    Walked::On(true, rest)
}

// Compares the values of two maps under each key of the first, where they have as many keys.
#[cycle(equality)]
fn maps_equal(heap: &Heap, levels: u32, left: &Pairs, right: Option<&Pairs>, visits: u64) -> Walked
    ensures { result ≡ spec.maps_equal (spec.equal_at levels heap.now.objects) left.now (option_copied right.entry) visits }
{
    let Some(right) = right else {
        return Walked::On(false, visits);
    };
    if left.len() != right.len() {
        return Walked::On(false, visits);
    }
    let mut rest = visits;
    for at in 0..left.len() {
        let Some((key, value)) = pair_at(left, at) else {
            return Walked::On(false, rest);
        };
        match found_equal(heap, levels, value, right.get(key), rest) {
            Walked::On(true, after) => rest = after,
            Walked::On(false, after) => return Walked::On(false, after),
            Walked::Deep => return Walked::Deep,
            Walked::Large => return Walked::Large,
        }
    }
    Walked::On(true, rest)
}

#[cycle(equality)]
fn found_equal(
    heap: &Heap,
    levels: u32,
    value: &Value,
    other: Option<&Value>,
    visits: u64,
) -> Walked
    ensures { result ≡ spec.found_equal (spec.equal_at levels heap.now.objects) value.now (option_copied other.entry) visits }
{
    match other {
        Some(other) => equal_at(heap, levels, value, other, visits),
        None => Walked::On(false, visits),
    }
}

// Compares an entry with an object.
#[cycle(equality)]
fn entries_equal(
    heap: &Heap,
    levels: u32,
    map: u32,
    key: &Value,
    other: &Object,
    visits: u64,
) -> Walked
    ensures { result ≡ spec.entries_equal (spec.equal_at levels heap.now.objects) heap.now.objects map key.now (spec.entry_in other.now) visits }
{
    match other {
        Object::Entry {
            map: other_map,
            key: other_key,
        } => both_equal(heap, levels, map, key, *other_map, other_key, visits),
        _ => Walked::On(false, visits),
    }
}

// Compares two entries, each by its map and its key: their keys, and then the values that their maps have now.
#[cycle(equality)]
fn both_equal(
    heap: &Heap,
    levels: u32,
    map: u32,
    key: &Value,
    other_map: u32,
    other_key: &Value,
    visits: u64,
) -> Walked
    ensures { result ≡ spec.both_equal (spec.equal_at levels heap.now.objects) heap.now.objects map key.now other_map other_key.now visits }
{
    match equal_at(heap, levels, key, other_key, visits) {
        Walked::On(true, rest) => {
            let null = Value::Null;
            let value = value_now(heap, map, key, &null);
            let other_value = value_now(heap, other_map, other_key, &null);
            equal_at(heap, levels, value, other_value, rest)
        }
        Walked::On(false, rest) => Walked::On(false, rest),
        Walked::Deep => Walked::Deep,
        Walked::Large => Walked::Large,
    }
}

/// The value that a map has now under a key, or another one where it has none.
pub fn value_now<'a>(heap: &'a Heap, map: u32, key: &Value, none: &'a Value) -> &'a Value
    ensures { result.now ≡ value_or (value_of (pairs_of heap.now.objects map) key.now) none.now }
{
    match heap.map_get(map, key) {
        Some(value) => value,
        None => none,
    }
}

fn list_in(object: &Object) -> Option<&[Value]>
    ensures { option_copied result ≡ spec.list_in object.now }
{
    match object {
        Object::List { items, .. } => Some(items.as_slice()),
        _ => None,
    }
}

fn array_in(object: &Object) -> Option<&[Value]>
    ensures { option_copied result ≡ spec.array_in object.now }
{
    match object {
        Object::Array { items, .. } => Some(items.as_slice()),
        _ => None,
    }
}

fn map_in(object: &Object) -> Option<&Pairs>
    ensures { option_copied result ≡ spec.map_in object.now }
{
    match object {
        Object::Map { pairs, .. } => Some(pairs),
        _ => None,
    }
}

// The keys of a set, and of a view of keys.
fn keys_in<'a>(heap: &'a Heap, object: &'a Object) -> Option<&'a Pairs>
    ensures { option_copied result ≡ keys_in heap.now.objects object.now }
{
    match object {
        Object::Set { items, .. } => Some(items),
        Object::View { map, part } => keys_of_view(heap, *map, *part),
        _ => None,
    }
}

fn keys_of_view(heap: &Heap, map: u32, part: Part) -> Option<&Pairs>
    ensures { option_copied result ≡ spec.keys_of_view heap.now.objects map part }
{
    match part {
        Part::Keys => heap.pairs(map),
        Part::Values => None,
        Part::Entries => None,
    }
}

fn sets_equal(left: Option<&Pairs>, right: Option<&Pairs>) -> bool
    ensures { result ≡ spec.sets_equal (option_copied left.entry) (option_copied right.entry) }
{
    match (left, right) {
        (Some(left), Some(right)) => left.len() == right.len() && has_keys(left, right),
        _ => false,
    }
}
