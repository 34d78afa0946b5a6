//! The members of Collection and List, of lists.
ghost use Rattle.std.specs.Prelude.{◌≡◌, Some, None, length, slice_get};
ghost use Rattle.std.specs.Option.{option_copied};
ghost use Rattle.object_heap.specs.Parts.{items_of};
ghost use Rattle.container_outcomes.specs.declared.outcome.Outcome.{Outcome};
ghost use Rattle.container_outcomes.specs.Outcomes.{Tells};
ghost use Rattle.api_list.specs.Lists as spec;
ghost use Rattle.api_list.specs.Searching.{first_from, last_before};

use crate::arguments::list_at;
use crate::searching::{first_of, last_of};
use container_outcomes::{
    Found, Outcome, given, index_error, is_open, null_error, shared, too_deep, too_large,
    unsupported,
};
use member_arguments::{int_at, value_at};
use object_heap::Heap;
use object_values::{Elements, Guard, Object, Value};

/// A count as an int, at most the greatest one.
fn count_as_int(count: usize) -> i32
    ensures { result ≡ spec.count_as_int count }
{
    if count <= 2_147_483_647 {
        count as i32
    } else {
        2_147_483_647
    }
}

/// The place at which there is an item.
pub fn place_of(count: usize, at: i32) -> Option<usize>
    ensures { result ≡ spec.place_of count at }
{
    if at < 0 {
        return None;
    }
    let place = at as usize;
    if place < count { Some(place) } else { None }
}

/// The place at which an item may be inserted.
pub fn place_into(count: usize, at: i32) -> Option<usize>
    ensures { result ≡ spec.place_into count at }
{
    if at < 0 {
        return None;
    }
    let place = at as usize;
    if place <= count { Some(place) } else { None }
}

fn item_in(items: &[Value], at: i32) -> Option<&Value>
    ensures { option_copied result ≡ spec.item_in items.now at }
{
    if at < 0 { None } else { items.get(at as usize) }
}

fn got(heap: &Heap, list: u32, at: i32) -> Outcome
    ensures { Tells (spec.got heap.now.objects list at) result }
{
    let items = heap.items(list);
    match item_in(items, at) {
        Some(item) => given(item),
        None => index_error(heap, at, items.len()),
    }
}

fn sets(list: u32, at: usize, item: &Value) -> Outcome
    ensures { Tells (Outcome.Sets list at item.now) result }
{
    match shared(item) {
        Some(item) => Outcome::Sets(list, at, item),
        None => Outcome::NoMemory,
    }
}

fn written(heap: &Heap, list: u32, at: i32, item: &Value) -> Outcome
    ensures { Tells (spec.written heap.now.objects list at item.now) result }
{
    if !is_open(heap, list) {
        return unsupported();
    }
    let count = heap.items(list).len();
    match place_of(count, at) {
        Some(place) => sets(list, place, item),
        None => index_error(heap, at, count),
    }
}

fn inserts(list: u32, at: usize, item: &Value, value: Value) -> Outcome
    ensures { Tells (Outcome.Inserts list at item.now value) result }
{
    match shared(item) {
        Some(item) => Outcome::Inserts(list, at, item, value),
        None => {
            drop(value);
            Outcome::NoMemory
        }
    }
}

fn added(heap: &Heap, list: u32, item: &Value) -> Outcome
    ensures { Tells (spec.added heap.now.objects list item.now) result }
{
    if !is_open(heap, list) {
        return unsupported();
    }
    inserts(list, heap.items(list).len(), item, Value::Bool(true))
}

fn inserted(heap: &Heap, list: u32, at: i32, item: &Value) -> Outcome
    ensures { Tells (spec.inserted heap.now.objects list at item.now) result }
{
    if !is_open(heap, list) {
        return unsupported();
    }
    let count = heap.items(list).len();
    match place_into(count, at) {
        Some(place) => inserts(list, place, item, Value::Null),
        None => index_error(heap, at, count),
    }
}

fn cut_out(heap: &Heap, list: u32, at: i32) -> Outcome
    ensures { Tells (spec.cut_out heap.now.objects list at) result }
{
    if !is_open(heap, list) {
        return unsupported();
    }
    let count = heap.items(list).len();
    match place_of(count, at) {
        Some(place) => Outcome::Cuts(list, place),
        None => index_error(heap, at, count),
    }
}

fn first_in(heap: &Heap, list: u32, value: &Value) -> Found
    ensures { result ≡ first_from heap.now.objects value.now 0 (items_of heap.now.objects list) }
{
    first_of(heap, value, heap.items(list))
}

fn dropped_found(heap: &Heap, list: u32, value: &Value) -> Outcome
    ensures { Tells (spec.dropped_found heap.now.objects list value.now) result }
{
    match first_in(heap, list, value) {
        Found::At(at) => Outcome::Drops(list, at),
        Found::Nowhere => Outcome::Gives(Value::Bool(false)),
        Found::Deep => too_deep(heap),
        Found::Large => too_large(heap),
    }
}

fn dropped(heap: &Heap, list: u32, value: &Value) -> Outcome
    ensures { Tells (spec.dropped heap.now.objects list value.now) result }
{
    if !is_open(heap, list) {
        return unsupported();
    }
    dropped_found(heap, list, value)
}

fn held(heap: &Heap, list: u32, value: &Value) -> Outcome
    ensures { Tells (spec.held heap.now.objects list value.now) result }
{
    match first_in(heap, list, value) {
        Found::At(_) => Outcome::Gives(Value::Bool(true)),
        Found::Nowhere => Outcome::Gives(Value::Bool(false)),
        Found::Deep => too_deep(heap),
        Found::Large => too_large(heap),
    }
}

fn place_found(heap: &Heap, list: u32, value: &Value) -> Outcome
    ensures { Tells (spec.place_found heap.now.objects list value.now) result }
{
    match first_in(heap, list, value) {
        Found::At(at) => Outcome::Gives(Value::Int(count_as_int(at))),
        Found::Nowhere => Outcome::Gives(Value::Int(-1)),
        Found::Deep => too_deep(heap),
        Found::Large => too_large(heap),
    }
}

fn last_in(heap: &Heap, list: u32, value: &Value) -> Found
    ensures { result ≡ last_before heap.now.objects value.now (items_of heap.now.objects list) (length (items_of heap.now.objects list)) }
{
    last_of(heap, value, heap.items(list))
}

fn last_place_found(heap: &Heap, list: u32, value: &Value) -> Outcome
    ensures { Tells (spec.last_place_found heap.now.objects list value.now) result }
{
    match last_in(heap, list, value) {
        Found::At(at) => Outcome::Gives(Value::Int(count_as_int(at))),
        Found::Nowhere => Outcome::Gives(Value::Int(-1)),
        Found::Deep => too_deep(heap),
        Found::Large => too_large(heap),
    }
}

fn size_given(heap: &Heap, list: u32) -> Outcome
    ensures { result ≡ spec.size_given heap.now.objects list }
{
    Outcome::Gives(Value::Int(count_as_int(heap.items(list).len())))
}

fn emptiness_given(heap: &Heap, list: u32) -> Outcome
    ensures { result ≡ spec.emptiness_given heap.now.objects list }
{
    Outcome::Gives(Value::Bool(heap.items(list).len() == 0))
}

fn empty_list(heap: &Heap, id: u32, class: u32, changes: u64) -> Outcome
    ensures { result ≡ spec.empty_list id class changes }
{
    let object = Object::List {
        class,
        items: Elements::new(heap.alloc()),
        guard: Guard::Open,
        changes: changes.wrapping_add(1),
    };
    Outcome::Empties(id, object)
}

fn list_emptied(heap: &Heap, id: u32, class: u32, items: &[Value], changes: u64) -> Outcome
    ensures { result ≡ spec.list_emptied id class items.now changes }
{
    if items.len() == 0 {
        Outcome::Gives(Value::Null)
    } else {
        empty_list(heap, id, class, changes)
    }
}

fn emptied_object(heap: &Heap, id: u32, object: &Object) -> Outcome
    ensures { result ≡ spec.emptied id (Some object.now) }
{
    match object {
        Object::List {
            class,
            items,
            changes,
            ..
        } => list_emptied(heap, id, *class, items.as_slice(), *changes),
        _ => Outcome::Gives(Value::Null),
    }
}

fn emptied(heap: &Heap, id: u32) -> Outcome
    ensures { result ≡ spec.emptied id (slice_get heap.now.objects id) }
{
    match heap.get(id) {
        Some(object) => emptied_object(heap, id, object),
        None => Outcome::Gives(Value::Null),
    }
}

fn cleared(heap: &Heap, list: u32) -> Outcome
    ensures { Tells (spec.cleared heap.now.objects list) result }
{
    if is_open(heap, list) {
        emptied(heap, list)
    } else {
        unsupported()
    }
}

/// `add(def)`.
pub fn add(heap: &Heap, args: &[Value]) -> Outcome
    ensures { Tells (spec.add heap.now.objects args.now) result }
{
    match (list_at(heap, args, 0), value_at(args, 1)) {
        (Some(list), Some(item)) => added(heap, list, item),
        _ => null_error(),
    }
}

/// `clear()`.
pub fn clear(heap: &Heap, args: &[Value]) -> Outcome
    ensures { Tells (spec.clear heap.now.objects args.now) result }
{
    match list_at(heap, args, 0) {
        Some(list) => cleared(heap, list),
        None => null_error(),
    }
}

/// `contains(def)`.
pub fn contains(heap: &Heap, args: &[Value]) -> Outcome
    ensures { Tells (spec.contains heap.now.objects args.now) result }
{
    match (list_at(heap, args, 0), value_at(args, 1)) {
        (Some(list), Some(value)) => held(heap, list, value),
        _ => null_error(),
    }
}

/// `isEmpty()`.
pub fn is_empty(heap: &Heap, args: &[Value]) -> Outcome
    ensures { Tells (spec.is_empty heap.now.objects args.now) result }
{
    match list_at(heap, args, 0) {
        Some(list) => emptiness_given(heap, list),
        None => null_error(),
    }
}

/// `remove(def)`.
pub fn remove(heap: &Heap, args: &[Value]) -> Outcome
    ensures { Tells (spec.remove heap.now.objects args.now) result }
{
    match (list_at(heap, args, 0), value_at(args, 1)) {
        (Some(list), Some(value)) => dropped(heap, list, value),
        _ => null_error(),
    }
}

/// `size()` and `getLength()`.
pub fn size(heap: &Heap, args: &[Value]) -> Outcome
    ensures { Tells (spec.size heap.now.objects args.now) result }
{
    match list_at(heap, args, 0) {
        Some(list) => size_given(heap, list),
        None => null_error(),
    }
}

/// `add(int, def)`.
pub fn add_at(heap: &Heap, args: &[Value]) -> Outcome
    ensures { Tells (spec.add_at heap.now.objects args.now) result }
{
    match (list_at(heap, args, 0), int_at(args, 1), value_at(args, 2)) {
        (Some(list), Some(at), Some(item)) => inserted(heap, list, at, item),
        _ => null_error(),
    }
}

/// `get(int)`.
pub fn get(heap: &Heap, args: &[Value]) -> Outcome
    ensures { Tells (spec.get heap.now.objects args.now) result }
{
    match (list_at(heap, args, 0), int_at(args, 1)) {
        (Some(list), Some(at)) => got(heap, list, at),
        _ => null_error(),
    }
}

/// `indexOf(def)`.
pub fn index_of(heap: &Heap, args: &[Value]) -> Outcome
    ensures { Tells (spec.index_of heap.now.objects args.now) result }
{
    match (list_at(heap, args, 0), value_at(args, 1)) {
        (Some(list), Some(value)) => place_found(heap, list, value),
        _ => null_error(),
    }
}

/// `remove(int)`.
pub fn remove_at(heap: &Heap, args: &[Value]) -> Outcome
    ensures { Tells (spec.remove_at heap.now.objects args.now) result }
{
    match (list_at(heap, args, 0), int_at(args, 1)) {
        (Some(list), Some(at)) => cut_out(heap, list, at),
        _ => null_error(),
    }
}

/// `set(int, def)`.
pub fn set(heap: &Heap, args: &[Value]) -> Outcome
    ensures { Tells (spec.set heap.now.objects args.now) result }
{
    match (list_at(heap, args, 0), int_at(args, 1), value_at(args, 2)) {
        (Some(list), Some(at), Some(item)) => written(heap, list, at, item),
        _ => null_error(),
    }
}

/// `lastIndexOf(def)`.
pub fn last_index_of(heap: &Heap, args: &[Value]) -> Outcome
    ensures { Tells (spec.last_index_of heap.now.objects args.now) result }
{
    match (list_at(heap, args, 0), value_at(args, 1)) {
        (Some(list), Some(value)) => last_place_found(heap, list, value),
        _ => null_error(),
    }
}
