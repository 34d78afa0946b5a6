//! Lists in natural order.
ghost use Rattle.std.specs.Prelude.{◌≡◌, IfOk, None, Some, slice_get};
ghost use Rattle.object_values.specs.declared.object.Object.TheVariants as o;
ghost use Rattle.object_values.specs.declared.object.Guard.TheVariants as g;
ghost use Rattle.object_heap.specs.Parts.{items_of, object_items};
ghost use Rattle.container_outcomes.specs.Outcomes.{Tells};
ghost use Rattle.api_sort.specs.Keys.{key_before};
ghost use Rattle.api_sort.specs.Ordering as ordering;
ghost use Rattle.api_sort.specs.Sorting as spec;

use crate::keys::key_order;
use crate::ordering::refusal;
use container_outcomes::{Outcome, copied, is_open, unsupported};
use container_parts::Container;
use object_heap::Heap;
use object_values::{Elements, Guard, Object, Value};
use std::alloc::AllocError;

// The items in the order of their keys.
fn in_order(heap: &Heap, items: &[Value]) -> Result<Elements<Value>, AllocError>
    ensures { IfOk result (λ sorted. sorted ≡ spec.sorted_by key_before items.now) }
{
    let copy = copied(heap.alloc(), items)?;
    let mut sorted = copy.into_vec();
    sorted.sort_by(|a, b| key_order(a, b))?;
    Ok(Elements::from_vec(sorted))
}

fn items_sorted(heap: &Heap, id: u32, class: u32, items: &[Value], changes: u64) -> Outcome
    requires { ordering.refusal heap.now.objects items.now ≡ None }
    ensures { Tells (spec.list_sorted id (Some (o.List class items.now g.Open changes))) result }
{
    match in_order(heap, items) {
        Ok(items) => Outcome::Becomes(
            id,
            Object::List {
                class,
                items,
                guard: Guard::Open,
                changes,
            },
            Value::Null,
        ),
        Err(_) => Outcome::NoMemory,
    }
}

fn list_sorted(heap: &Heap, id: u32, object: &Object) -> Outcome
    requires { ordering.refusal heap.now.objects (object_items object.now) ≡ None }
    ensures { Tells (spec.list_sorted id (Some object.now)) result }
{
    match object {
        Object::List {
            class,
            items,
            changes,
            ..
        } => items_sorted(heap, id, *class, items.as_slice(), *changes),
        _ => Outcome::Gives(Value::Null),
    }
}

fn sorted_found(heap: &Heap, id: u32) -> Outcome
    requires { ordering.refusal heap.now.objects (items_of heap.now.objects id) ≡ None }
    ensures { Tells (spec.list_sorted id (slice_get heap.now.objects id)) result }
{
    match heap.get(id) {
        Some(object) => list_sorted(heap, id, object),
        None => Outcome::Gives(Value::Null),
    }
}

/// `Collections.sort(List)`: the list of this number in natural order. It is stable, and no change of the count.
pub fn sorted(heap: &Heap, list: u32) -> Outcome
    ensures { Tells (spec.sorted heap.now.objects list) result }
{
    if !is_open(heap, list) {
        return unsupported();
    }
    match refusal(heap, Container::Items(list)) {
        Some(refused) => refused,
        None => sorted_found(heap, list),
    }
}
