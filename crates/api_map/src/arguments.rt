//! What arguments are: maps, entries, and collections with keys.
ghost use Rattle.std.specs.Prelude.{◌≡◌, IfNone, IfSome, None, Some, slice_get};
ghost use Rattle.api_map.specs.Arguments as spec;

use member_arguments::object_at;
use object_heap::Heap;
use object_values::{Object, Part, Value};

/// A collection with keys.
#[derive(Clone, Copy)]
pub enum Keyed {
    /// A set.
    Set(u32),
    /// A view of a part of a map.
    View(u32, Part),
}

/// The set itself, or the map that is shown.
pub fn holder_of(keyed: Keyed) -> u32
    ensures { result ≡ spec.holder_of keyed }
{
    match keyed {
        Keyed::Set(id) => id,
        Keyed::View(map, _) => map,
    }
}

fn map_in(id: u32, object: &Object) -> Option<u32>
    ensures { result ≡ spec.if_map id (Some object.now) }
{
    match object {
        Object::Map { .. } => Some(id),
        _ => None,
    }
}

fn map_found(heap: &Heap, id: u32) -> Option<u32>
    ensures { result ≡ spec.if_map id (slice_get heap.now.objects id) }
{
    match heap.get(id) {
        Some(object) => map_in(id, object),
        None => None,
    }
}

/// The map at a place.
pub fn map_at(heap: &Heap, args: &[Value], at: usize) -> Option<u32>
    ensures { result ≡ spec.map_at heap.now.objects args.now at }
{
    match object_at(args, at) {
        Some(id) => map_found(heap, id),
        None => None,
    }
}

fn keyed_in(id: u32, object: &Object) -> Option<Keyed>
    ensures { result ≡ spec.if_keyed id (Some object.now) }
{
    match object {
        Object::Set { .. } => Some(Keyed::Set(id)),
        Object::View { map, part } => Some(Keyed::View(*map, *part)),
        _ => None,
    }
}

fn keyed_found(heap: &Heap, id: u32) -> Option<Keyed>
    ensures { result ≡ spec.if_keyed id (slice_get heap.now.objects id) }
{
    match heap.get(id) {
        Some(object) => keyed_in(id, object),
        None => None,
    }
}

/// The collection with keys at a place.
pub fn keyed_at(heap: &Heap, args: &[Value], at: usize) -> Option<Keyed>
    ensures { result ≡ spec.keyed_at heap.now.objects args.now at }
{
    match object_at(args, at) {
        Some(id) => keyed_found(heap, id),
        None => None,
    }
}

// The map and the key of an entry.
fn entry_in(object: &Object) -> Option<(u32, &Value)>
    ensures none { IfNone result (spec.if_entry (Some object.now) ≡ None) }
    ensures some { IfSome result (λ entry. spec.if_entry (Some object.now) ≡ Some (entry.0, entry.1.now)) }
{
    match object {
        Object::Entry { map, key } => Some((*map, key)),
        _ => None,
    }
}

fn entry_found(heap: &Heap, id: u32) -> Option<(u32, &Value)>
    ensures none { IfNone result (spec.if_entry (slice_get heap.now.objects id) ≡ None) }
    ensures some { IfSome result (λ entry. spec.if_entry (slice_get heap.now.objects id) ≡ Some (entry.0, entry.1.now)) }
{
    match heap.get(id) {
        Some(object) => entry_in(object),
        None => None,
    }
}

/// The map and the key of the entry that a value is.
pub fn entry_of<'a>(heap: &'a Heap, value: &Value) -> Option<(u32, &'a Value)>
    ensures none { IfNone result (spec.entry_of heap.now.objects value.now ≡ None) }
    ensures some { IfSome result (λ entry. spec.entry_of heap.now.objects value.now ≡ Some (entry.0, entry.1.now)) }
{
    match value {
        Value::Ref(id) => entry_found(heap, *id),
        _ => None,
    }
}

/// The map and the key of the entry at a place.
pub fn entry_at<'a>(heap: &'a Heap, args: &[Value], at: usize) -> Option<(u32, &'a Value)>
    ensures none { IfNone result (spec.entry_at heap.now.objects args.now at ≡ None) }
    ensures some { IfSome result (λ entry. spec.entry_at heap.now.objects args.now at ≡ Some (entry.0, entry.1.now)) }
{
    match object_at(args, at) {
        Some(id) => entry_found(heap, id),
        None => None,
    }
}
