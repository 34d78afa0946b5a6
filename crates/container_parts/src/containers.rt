//! What has elements.
ghost use Rattle.std.specs.Prelude.{◌≡◌, Some, slice_get};
ghost use Rattle.object_heap.specs.Parts.{guard_of};
ghost use Rattle.container_parts.specs.Containers as spec;

use member_arguments::object_at;
use object_heap::Heap;
use object_values::{Guard, Object, Part, Value};

/// What has elements.
#[derive(Clone, Copy)]
pub enum Container {
    /// A list.
    Items(u32),
    /// An array.
    Array(u32),
    /// A set.
    Keys(u32),
    /// A view of a part of a map.
    Shown(u32, Part),
}

fn container_in(id: u32, object: &Object) -> Option<Container>
    ensures { result ≡ spec.if_container id (Some object.now) }
{
    match object {
        Object::List { .. } => Some(Container::Items(id)),
        Object::Array { .. } => Some(Container::Array(id)),
        Object::Set { .. } => Some(Container::Keys(id)),
        Object::View { map, part } => Some(Container::Shown(*map, *part)),
        _ => None,
    }
}

/// The object of this number, where it has elements.
pub fn container_of(heap: &Heap, id: u32) -> Option<Container>
    ensures { result ≡ spec.container_of heap.now.objects id }
{
    match heap.get(id) {
        Some(object) => container_in(id, object),
        None => None,
    }
}

/// What has elements at a place of the arguments.
pub fn container_at(heap: &Heap, args: &[Value], at: usize) -> Option<Container>
    ensures { result ≡ spec.container_at heap.now.objects args.now at }
{
    match object_at(args, at) {
        Some(id) => container_of(heap, id),
        None => None,
    }
}

/// The object that holds the elements: it itself, or the map that a view shows.
pub fn holder_of(container: Container) -> u32
    ensures { result ≡ spec.holder_of container }
{
    match container {
        Container::Items(id) => id,
        Container::Array(id) => id,
        Container::Keys(id) => id,
        Container::Shown(map, _) => map,
    }
}

/// How many elements there are.
pub fn count_of(heap: &Heap, container: Container) -> usize
    ensures { result ≡ spec.count_of heap.now.objects container }
{
    heap.size(holder_of(container))
}

/// How often it was changed, modulo 2^64.
pub fn changes_now(heap: &Heap, container: Container) -> u64
    ensures { result ≡ spec.changes_now heap.now.objects container }
{
    heap.changes(holder_of(container))
}

fn lets_all(guard: &Guard) -> bool
    ensures { result ≡ spec.is_open (Some guard.now) }
{
    match guard {
        Guard::Open => true,
        Guard::Frozen => false,
        Guard::Keys(_) => false,
        Guard::Mapped => false,
    }
}

fn is_open(heap: &Heap, id: u32) -> bool
    ensures { result ≡ spec.is_open (guard_of heap.now.objects id) }
{
    match heap.guard(id) {
        Some(guard) => lets_all(guard),
        None => true,
    }
}

/// Whether elements may be taken out.
pub fn lets_cut(heap: &Heap, container: Container) -> bool
    ensures { result ≡ spec.lets_cut heap.now.objects container }
{
    match container {
        Container::Items(id) => is_open(heap, id),
        Container::Array(_) => false,
        Container::Keys(id) => is_open(heap, id),
        Container::Shown(map, _) => is_open(heap, map),
    }
}
