//! Where iterators stand.
ghost use Rattle.std.specs.Prelude.{◌≡◌, Some};
ghost use Rattle.container_parts.specs.Iterators as spec;

use crate::containers::{Container, changes_now, container_of, count_of};
use object_heap::Heap;
use object_values::Object;

/// Where an iterator stands.
#[derive(Clone, Copy)]
pub struct Cursor {
    /// The object whose elements it gives.
    pub over: u32,
    /// The place of the next element.
    pub cursor: u64,
    /// The change count that it saw.
    pub seen: u64,
    /// The place of the element that it gave last, if it is to be taken out yet.
    pub last: Option<u64>,
}

fn iterator_in(object: &Object) -> Option<Cursor>
    ensures { result ≡ spec.if_iterator (Some object.now) }
{
    match object {
        Object::Iter {
            over,
            cursor,
            seen,
            last,
        } => Some(Cursor {
            over: *over,
            cursor: *cursor,
            seen: *seen,
            last: *last,
        }),
        _ => None,
    }
}

/// The object of this number, where it is an iterator.
pub fn iterator_of(heap: &Heap, id: u32) -> Option<Cursor>
    ensures { result ≡ spec.iterator_of heap.now.objects id }
{
    match heap.get(id) {
        Some(object) => iterator_in(object),
        None => None,
    }
}

/// How many elements there are.
pub fn count_over(heap: &Heap, over: Option<Container>) -> u64
    ensures { result ≡ spec.count_over heap.now.objects over }
{
    match over {
        Some(container) => count_of(heap, container) as u64,
        None => 0,
    }
}

/// How often they were changed.
pub fn changes_over(heap: &Heap, over: Option<Container>) -> u64
    ensures { result ≡ spec.changes_over heap.now.objects over }
{
    match over {
        Some(container) => changes_now(heap, container),
        None => 0,
    }
}

fn is_before_end(heap: &Heap, it: Cursor) -> bool
    ensures { result ≡ spec.is_before_end heap.now.objects it }
{
    it.cursor != count_over(heap, container_of(heap, it.over))
}

/// Whether an iterator has a next element: the next place is not just behind the last element. What is no iterator has none.
pub fn has_next(heap: &Heap, id: u32) -> bool
    ensures { result ≡ spec.has_next heap.now.objects id }
{
    match iterator_of(heap, id) {
        Some(it) => is_before_end(heap, it),
        None => false,
    }
}
