//! The members of Map.
ghost use Rattle.std.specs.Prelude.{◌≡◌, None, Some, slice_get};
ghost use Rattle.object_heap.specs.Parts.{pairs_of};
ghost use Rattle.object_values.specs.Pairs.{value_of};
ghost use Rattle.container_outcomes.specs.declared.outcome.Outcome.{Outcome};
ghost use Rattle.api_map.specs.Affording.{Affords};
ghost use Rattle.api_map.specs.Maps as spec;
ghost use Rattle.container_outcomes.specs.Outcomes.{Tells, has_key};
ghost use Rattle.api_map.specs.Searching.{first_from};
ghost use Rattle.value_walks.specs.Equality.{value_now};

use crate::affording::Afforded;
use crate::arguments::map_at;
use crate::errors::no_field;
use crate::guards::{is_mapped, may_put};
use crate::searching::first_of;
use container_outcomes::{
    Found, Outcome, given, is_open, not_simple, null_error, too_deep, too_large, unsupported,
};
use member_arguments::value_at;
use object_heap::Heap;
use object_values::{Guard, Object, Pairs, Part, Value};
use value_walks::{TextErr, VISITS, text_within};

/// A count as an int, at most the greatest one.
pub fn count_as_int(count: usize) -> i32
    ensures { result ≡ spec.count_as_int count }
{
    if count <= 2_147_483_647 {
        count as i32
    } else {
        2_147_483_647
    }
}

/// How many pairs there are.
pub fn size_given(heap: &Heap, id: u32) -> Outcome
    ensures { result ≡ spec.size_given heap.now.objects id }
{
    Outcome::Gives(Value::Int(count_as_int(heap.size(id))))
}

/// Whether there are no pairs.
pub fn emptiness_given(heap: &Heap, id: u32) -> Outcome
    ensures { result ≡ spec.emptiness_given heap.now.objects id }
{
    Outcome::Gives(Value::Bool(heap.size(id) <= 0))
}

fn empty_map(heap: &Heap, id: u32, class: u32, changes: u64) -> Outcome
    ensures { result ≡ spec.empty_map id class changes }
{
    let object = Object::Map {
        class,
        pairs: Pairs::new(heap.alloc(), heap.seed()),
        guard: Guard::Open,
        changes: changes.wrapping_add(1),
    };
    Outcome::Empties(id, object)
}

fn empty_set(heap: &Heap, id: u32, class: u32, changes: u64) -> Outcome
    ensures { result ≡ spec.empty_set id class changes }
{
    let object = Object::Set {
        class,
        items: Pairs::new(heap.alloc(), heap.seed()),
        guard: Guard::Open,
        changes: changes.wrapping_add(1),
    };
    Outcome::Empties(id, object)
}

fn map_emptied(heap: &Heap, id: u32, class: u32, pairs: &Pairs, changes: u64) -> Outcome
    ensures { result ≡ spec.map_emptied id class pairs.now changes }
{
    if pairs.len() == 0 {
        Outcome::Gives(Value::Null)
    } else {
        empty_map(heap, id, class, changes)
    }
}

fn set_emptied(heap: &Heap, id: u32, class: u32, items: &Pairs, changes: u64) -> Outcome
    ensures { result ≡ spec.set_emptied id class items.now changes }
{
    if items.len() == 0 {
        Outcome::Gives(Value::Null)
    } else {
        empty_set(heap, id, class, changes)
    }
}

fn object_emptied(heap: &Heap, id: u32, object: &Object) -> Outcome
    ensures { result ≡ spec.emptied id (Some object.now) }
{
    match object {
        Object::Map {
            class,
            pairs,
            changes,
            ..
        } => map_emptied(heap, id, *class, pairs, *changes),
        Object::Set {
            class,
            items,
            changes,
            ..
        } => set_emptied(heap, id, *class, items, *changes),
        _ => Outcome::Gives(Value::Null),
    }
}

fn emptied(heap: &Heap, id: u32) -> Outcome
    ensures { result ≡ spec.emptied id (slice_get heap.now.objects id) }
{
    match heap.get(id) {
        Some(object) => object_emptied(heap, id, object),
        None => Outcome::Gives(Value::Null),
    }
}

/// A map or a set without its pairs.
pub fn cleared(heap: &Heap, id: u32) -> Outcome
    ensures { Tells (spec.cleared heap.now.objects id) result }
{
    if is_open(heap, id) {
        emptied(heap, id)
    } else {
        unsupported()
    }
}

/// Whether a map or a set has a key.
pub fn has_key(heap: &Heap, id: u32, key: &Value) -> bool
    ensures { result ≡ has_key heap.now.objects id key.now }
{
    match heap.map_get(id, key) {
        Some(_) => true,
        None => false,
    }
}

/// Whether a key is there.
pub fn key_found(heap: &Heap, id: u32, key: &Value) -> Outcome
    ensures { Tells (spec.key_found heap.now.objects id key.now) result }
{
    if key.is_simple() {
        Outcome::Gives(Value::Bool(has_key(heap, id, key)))
    } else {
        not_simple(heap)
    }
}

/// The first pair of a map with a value.
pub fn first_in(heap: &Heap, id: u32, value: &Value) -> Found
    ensures { result ≡ first_from heap.now.objects value.now 0 (pairs_of heap.now.objects id) }
{
    match heap.pairs(id) {
        Some(pairs) => first_of(heap, value, pairs),
        None => Found::Nowhere,
    }
}

/// Whether a value is one of a map's.
pub fn value_found(heap: &Heap, id: u32, value: &Value) -> Outcome
    ensures { Tells (spec.value_found heap.now.objects id value.now) result }
{
    match first_in(heap, id, value) {
        Found::At(_) => Outcome::Gives(Value::Bool(true)),
        Found::Nowhere => Outcome::Gives(Value::Bool(false)),
        Found::Deep => too_deep(heap),
        Found::Large => too_large(heap),
    }
}

// The key's text is made if there is room for it.
#[tactic(auto, using(crate::proofs::FieldRoom::no_room_for_field, crate::proofs::Needing::field_needs))]
fn field_missing(heap: &Heap, key: &Value) -> Afforded
    ensures { Affords heap.now (spec.field_of heap.now.objects key.now None) result }
{
    match text_within(heap, key, VISITS, heap.room_left()) {
        Ok(Some(text)) => Afforded::Told(no_field(heap, text.units())),
        Ok(None) => Afforded::NoRoom,
        Err(TextErr::Deep) => Afforded::Told(too_deep(heap)),
        Err(TextErr::Large) => Afforded::Told(too_large(heap)),
        Err(TextErr::NoMemory) => Afforded::Told(Outcome::NoMemory),
    }
}

fn field_of(heap: &Heap, map: u32, key: &Value) -> Afforded
    ensures { Affords heap.now (spec.field_of heap.now.objects key.now (value_of (pairs_of heap.now.objects map) key.now)) result }
{
    match heap.map_get(map, key) {
        Some(value) => Afforded::Told(given(value)),
        None => field_missing(heap, key),
    }
}

/// The value of a key, or null.
pub fn value_or_null(heap: &Heap, map: u32, key: &Value) -> Outcome
    ensures { Tells (Outcome.Gives (value_now heap.now.objects map key.now)) result }
{
    match heap.map_get(map, key) {
        Some(value) => given(value),
        None => Outcome::Gives(Value::Null),
    }
}

fn value_given(heap: &Heap, map: u32, key: &Value) -> Afforded
    ensures { Affords heap.now (spec.value_given heap.now.objects map key.now) result }
{
    if is_mapped(heap, map) {
        return field_of(heap, map, key);
    }
    if key.is_simple() {
        Afforded::Told(value_or_null(heap, map, key))
    } else {
        Afforded::Told(not_simple(heap))
    }
}

fn value_or(heap: &Heap, map: u32, key: &Value, other: &Value) -> Outcome
    ensures { Tells (spec.this_or (value_of (pairs_of heap.now.objects map) key.now) other.now) result }
{
    match heap.map_get(map, key) {
        Some(value) => given(value),
        None => given(other),
    }
}

fn value_or_given(heap: &Heap, map: u32, key: &Value, other: &Value) -> Outcome
    ensures { Tells (spec.value_or_given heap.now.objects map key.now other.now) result }
{
    if key.is_simple() {
        value_or(heap, map, key, other)
    } else {
        not_simple(heap)
    }
}

/// A value under a key.
pub fn puts(map: u32, key: &Value, value: &Value) -> Outcome
    ensures { Tells (Outcome.Puts map key.now value.now) result }
{
    match (key.share(), value.share()) {
        (Ok(key), Ok(value)) => Outcome::Puts(map, key, value),
        _ => Outcome::NoMemory,
    }
}

fn put_under(heap: &Heap, map: u32, key: &Value, value: &Value) -> Outcome
    ensures { Tells (spec.put_under heap.now.objects map key.now value.now) result }
{
    if !may_put(heap, map, key) {
        return unsupported();
    }
    if key.is_simple() {
        puts(map, key, value)
    } else {
        not_simple(heap)
    }
}

fn put_over(map: u32, key: &Value, value: &Value, before: &Value) -> Outcome
    ensures { Tells (spec.put_over map key.now value.now before.now) result }
{
    match before {
        Value::Null => puts(map, key, value),
        _ => given(before),
    }
}

fn put_over_now(heap: &Heap, map: u32, key: &Value, value: &Value) -> Outcome
    ensures { Tells (spec.put_over map key.now value.now (value_now heap.now.objects map key.now)) result }
{
    match heap.map_get(map, key) {
        Some(before) => put_over(map, key, value, before),
        None => puts(map, key, value),
    }
}

fn put_once(heap: &Heap, map: u32, key: &Value, value: &Value) -> Outcome
    ensures { Tells (spec.put_once heap.now.objects map key.now value.now) result }
{
    if !may_put(heap, map, key) {
        return unsupported();
    }
    if key.is_simple() {
        put_over_now(heap, map, key, value)
    } else {
        not_simple(heap)
    }
}

fn put_present(heap: &Heap, map: u32, key: &Value, value: &Value) -> Outcome
    ensures { Tells (spec.put_present heap.now.objects map key.now value.now) result }
{
    if has_key(heap, map, key) {
        puts(map, key, value)
    } else {
        Outcome::Gives(Value::Null)
    }
}

fn put_again(heap: &Heap, map: u32, key: &Value, value: &Value) -> Outcome
    ensures { Tells (spec.put_again heap.now.objects map key.now value.now) result }
{
    if !may_put(heap, map, key) {
        return unsupported();
    }
    if key.is_simple() {
        put_present(heap, map, key, value)
    } else {
        not_simple(heap)
    }
}

/// `clear()`.
pub fn clear(heap: &Heap, args: &[Value]) -> Outcome
    ensures { Tells (spec.clear heap.now.objects args.now) result }
{
    match map_at(heap, args, 0) {
        Some(map) => cleared(heap, map),
        None => null_error(),
    }
}

/// `containsKey(def)`.
pub fn contains_key(heap: &Heap, args: &[Value]) -> Outcome
    ensures { Tells (spec.contains_key heap.now.objects args.now) result }
{
    match (map_at(heap, args, 0), value_at(args, 1)) {
        (Some(map), Some(key)) => key_found(heap, map, key),
        _ => null_error(),
    }
}

/// `containsValue(def)`.
pub fn contains_value(heap: &Heap, args: &[Value]) -> Outcome
    ensures { Tells (spec.contains_value heap.now.objects args.now) result }
{
    match (map_at(heap, args, 0), value_at(args, 1)) {
        (Some(map), Some(value)) => value_found(heap, map, value),
        _ => null_error(),
    }
}

/// `keySet()`, `values()` and `entrySet()`: a live view of a part.
pub fn view(part: Part, heap: &Heap, args: &[Value]) -> Outcome
    ensures { Tells (spec.view part heap.now.objects args.now) result }
{
    match map_at(heap, args, 0) {
        Some(map) => Outcome::New(Object::View { map, part }),
        None => null_error(),
    }
}

/// `get(def)`.
pub fn get(heap: &Heap, args: &[Value]) -> Afforded
    ensures { Affords heap.now (spec.get heap.now.objects args.now) result }
{
    match (map_at(heap, args, 0), value_at(args, 1)) {
        (Some(map), Some(key)) => value_given(heap, map, key),
        _ => Afforded::Told(null_error()),
    }
}

/// `getOrDefault(def, def)`.
pub fn get_or_default(heap: &Heap, args: &[Value]) -> Outcome
    ensures { Tells (spec.get_or_default heap.now.objects args.now) result }
{
    match (map_at(heap, args, 0), value_at(args, 1), value_at(args, 2)) {
        (Some(map), Some(key), Some(other)) => value_or_given(heap, map, key, other),
        _ => null_error(),
    }
}

/// `isEmpty()`.
pub fn is_empty(heap: &Heap, args: &[Value]) -> Outcome
    ensures { Tells (spec.is_empty heap.now.objects args.now) result }
{
    match map_at(heap, args, 0) {
        Some(map) => emptiness_given(heap, map),
        None => null_error(),
    }
}

/// `put(def, def)`.
pub fn put(heap: &Heap, args: &[Value]) -> Outcome
    ensures { Tells (spec.put heap.now.objects args.now) result }
{
    match (map_at(heap, args, 0), value_at(args, 1), value_at(args, 2)) {
        (Some(map), Some(key), Some(value)) => put_under(heap, map, key, value),
        _ => null_error(),
    }
}

/// `putIfAbsent(def, def)`.
pub fn put_if_absent(heap: &Heap, args: &[Value]) -> Outcome
    ensures { Tells (spec.put_if_absent heap.now.objects args.now) result }
{
    match (map_at(heap, args, 0), value_at(args, 1), value_at(args, 2)) {
        (Some(map), Some(key), Some(value)) => put_once(heap, map, key, value),
        _ => null_error(),
    }
}

/// `replace(def, def)`.
pub fn replace(heap: &Heap, args: &[Value]) -> Outcome
    ensures { Tells (spec.replace heap.now.objects args.now) result }
{
    match (map_at(heap, args, 0), value_at(args, 1), value_at(args, 2)) {
        (Some(map), Some(key), Some(value)) => put_again(heap, map, key, value),
        _ => null_error(),
    }
}

/// `size()`.
pub fn size(heap: &Heap, args: &[Value]) -> Outcome
    ensures { Tells (spec.size heap.now.objects args.now) result }
{
    match map_at(heap, args, 0) {
        Some(map) => size_given(heap, map),
        None => null_error(),
    }
}
