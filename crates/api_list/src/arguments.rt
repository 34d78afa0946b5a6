//! What arguments are: lists.
ghost use Rattle.std.specs.Prelude.{◌≡◌, Some, slice_get};
ghost use Rattle.api_list.specs.Arguments as spec;

use member_arguments::object_at;
use object_heap::Heap;
use object_values::{Object, Value};

fn list_in(id: u32, object: &Object) -> Option<u32>
    ensures { result ≡ spec.if_list id (Some object.now) }
{
    match object {
        Object::List { .. } => Some(id),
        _ => None,
    }
}

fn list_found(heap: &Heap, id: u32) -> Option<u32>
    ensures { result ≡ spec.if_list id (slice_get heap.now.objects id) }
{
    match heap.get(id) {
        Some(object) => list_in(id, object),
        None => None,
    }
}

/// The list at a place.
pub fn list_at(heap: &Heap, args: &[Value], at: usize) -> Option<u32>
    ensures { result ≡ spec.list_at heap.now.objects args.now at }
{
    match object_at(args, at) {
        Some(id) => list_found(heap, id),
        None => None,
    }
}
