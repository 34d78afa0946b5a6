//! Whose function a member of a container goes to, by its number and its receiver.
ghost use Rattle.std.specs.Prelude.{◌≡◌, Some, slice_get};
ghost use Rattle.container_calls.specs.Members as spec;

use member_arguments::object_at;
use object_heap::Heap;
use object_values::{Object, Value};

/// Whose function a member of a container goes to.
#[derive(Clone, Copy)]
pub enum Family {
    /// What lists, arrays, sets and views have in common, and iterators.
    Iterables,
    /// Lists, what takes all elements of a collection into a list or an array, and Collections.
    Lists,
    /// Sets, views, maps and entries.
    Maps,
}

fn is_list(object: &Object) -> bool
    ensures { result ≡ spec.is_list (Some object.now) }
{
    match object {
        Object::List { .. } => true,
        _ => false,
    }
}

fn names_list(heap: &Heap, id: u32) -> bool
    ensures { result ≡ spec.is_list (slice_get heap.now.objects id) }
{
    match heap.get(id) {
        Some(object) => is_list(object),
        None => false,
    }
}

/// Whether the receiver is a list.
pub fn is_on_list(heap: &Heap, args: &[Value]) -> bool
    ensures { result ≡ spec.is_on_list heap.now.objects args.now }
{
    match object_at(args, 0) {
        Some(id) => names_list(heap, id),
        None => false,
    }
}

fn of_collections(on_list: bool) -> Family
    ensures { result ≡ spec.of_collections on_list }
{
    if on_list { Family::Lists } else { Family::Maps }
}

fn of_iterables(number: u32) -> Family
    ensures { result ≡ spec.of_iterables number }
{
    if number == 89 {
        Family::Lists
    } else {
        Family::Iterables
    }
}

/// Whose function a number goes to.
pub fn family_of(on_list: bool, number: u32) -> Family
    ensures { result ≡ spec.family_of on_list number }
{
    if number < 97 {
        of_iterables(number)
    } else if number < 107 {
        of_collections(on_list)
    } else if number < 125 {
        Family::Lists
    } else if number < 166 {
        Family::Maps
    } else if number < 169 {
        Family::Iterables
    } else if number < 178 {
        Family::Lists
    } else {
        Family::Iterables
    }
}
