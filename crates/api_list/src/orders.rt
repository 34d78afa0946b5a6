//! The members of Collections that order the items of a list anew.
ghost use Rattle.std.specs.Prelude.{◌≡◌, Some, IfOk, reverse, slice_get};
ghost use Rattle.object_values.specs.declared.value.Value.TheVariants as v;
ghost use Rattle.object_values.specs.declared.object.Object.TheVariants as o;
ghost use Rattle.object_values.specs.declared.object.Guard.TheVariants as g;
ghost use Rattle.container_outcomes.specs.declared.outcome.Outcome.{Outcome};
ghost use Rattle.container_outcomes.specs.Outcomes.{Tells};
ghost use Rattle.api_list.specs.Lists as spec;
ghost use Rattle.api_list.specs.Ordered as ordered;

use crate::arguments::list_at;
use crate::lists::place_of;
use api_sort::{Extreme, extreme_of, sorted};
use container_outcomes::{Outcome, copied, index_error, is_open, null_error, shared, unsupported};
use container_values::collection_at;
use member_arguments::{int_at, value_at};
use object_heap::Heap;
use object_values::{Elements, Guard, Object, Value};
use std::alloc::AllocError;

// The items in the opposite order.
fn backwards(heap: &Heap, items: &[Value]) -> Result<Elements<Value>, AllocError>
    ensures { IfOk result (λ turned. turned ≡ reverse items.now) }
{
    let mut turned = copied(heap.alloc(), items)?.into_vec();
    turned.reverse();
    Ok(Elements::from_vec(turned))
}

fn turned(heap: &Heap, id: u32, class: u32, items: &[Value], changes: u64) -> Outcome
    ensures { Tells (Outcome.Becomes id (o.List class (reverse items.now) g.Open changes) v.Null) result }
{
    match backwards(heap, items) {
        Ok(items) => Outcome::Becomes(
            id,
            Object::List {
                class,
                items,
                guard: Guard::Open,
                changes,
            },
            Value::Null,
        ),
        Err(_) => Outcome::NoMemory,
    }
}

fn list_reversed(heap: &Heap, id: u32, object: &Object) -> Outcome
    ensures { Tells (spec.list_reversed id (Some object.now)) result }
{
    match object {
        Object::List {
            class,
            items,
            changes,
            ..
        } => turned(heap, id, *class, items.as_slice(), *changes),
        _ => Outcome::Gives(Value::Null),
    }
}

fn reversed_found(heap: &Heap, id: u32) -> Outcome
    ensures { Tells (spec.list_reversed id (slice_get heap.now.objects id)) result }
{
    match heap.get(id) {
        Some(object) => list_reversed(heap, id, object),
        None => Outcome::Gives(Value::Null),
    }
}

fn reversed(heap: &Heap, list: u32) -> Outcome
    ensures { Tells (spec.reversed heap.now.objects list) result }
{
    if is_open(heap, list) {
        reversed_found(heap, list)
    } else {
        unsupported()
    }
}

fn sets_two(list: u32, at: usize, item: &Value, other_at: usize, other: &Value) -> Outcome
    ensures { Tells (Outcome.SetsTwo list at item.now other_at other.now) result }
{
    match (shared(item), shared(other)) {
        (Some(item), Some(other)) => Outcome::SetsTwo(list, at, item, other_at, other),
        _ => Outcome::NoMemory,
    }
}

fn places_swapped(heap: &Heap, list: u32, at: usize, other_at: usize) -> Outcome
    ensures { Tells (spec.places_swapped heap.now.objects list at other_at) result }
{
    let items = heap.items(list);
    match (value_at(items, at), value_at(items, other_at)) {
        (Some(item), Some(other)) => sets_two(list, at, other, other_at, item),
        _ => Outcome::Gives(Value::Null),
    }
}

fn swapped_with(heap: &Heap, list: u32, at: usize, other_at: i32) -> Outcome
    ensures { Tells (spec.swapped_with heap.now.objects list other_at at) result }
{
    let count = heap.items(list).len();
    match place_of(count, other_at) {
        Some(place) => places_swapped(heap, list, at, place),
        None => index_error(heap, other_at, count),
    }
}

fn swapped(heap: &Heap, list: u32, at: i32, other_at: i32) -> Outcome
    ensures { Tells (spec.swapped heap.now.objects list at other_at) result }
{
    if !is_open(heap, list) {
        return unsupported();
    }
    let count = heap.items(list).len();
    match place_of(count, at) {
        Some(place) => swapped_with(heap, list, place, other_at),
        None => index_error(heap, at, count),
    }
}

/// `Collections.reverse(List)`.
pub fn reverse_all(heap: &Heap, args: &[Value]) -> Outcome
    ensures { Tells (spec.reverse_all heap.now.objects args.now) result }
{
    match list_at(heap, args, 0) {
        Some(list) => reversed(heap, list),
        None => null_error(),
    }
}

/// `Collections.swap(List, int, int)`.
pub fn swap(heap: &Heap, args: &[Value]) -> Outcome
    ensures { Tells (spec.swap heap.now.objects args.now) result }
{
    match (list_at(heap, args, 0), int_at(args, 1), int_at(args, 2)) {
        (Some(list), Some(at), Some(other_at)) => swapped(heap, list, at, other_at),
        _ => null_error(),
    }
}

/// `Collections.sort(List)`.
pub fn sort(heap: &Heap, args: &[Value]) -> Outcome
    ensures { Tells (ordered.sort heap.now.objects args.now) result }
{
    match list_at(heap, args, 0) {
        Some(list) => sorted(heap, list),
        None => null_error(),
    }
}

/// `Collections.max(Collection)` and `min`.
pub fn extreme(which: Extreme, heap: &Heap, args: &[Value]) -> Outcome
    ensures { Tells (ordered.extreme which heap.now.objects args.now) result }
{
    match collection_at(heap, args, 0) {
        Some(container) => extreme_of(which, heap, container),
        None => null_error(),
    }
}
