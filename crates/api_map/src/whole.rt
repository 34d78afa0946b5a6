//! The members that take all that a collection or a map holds.
ghost use Rattle.std.specs.Prelude.{◌≡◌, [], IfOk};
ghost use Rattle.object_heap.specs.Parts.{pairs_of};
ghost use Rattle.api_map.specs.declared.arguments.Keyed.TheVariants as keyed_is;
ghost use Rattle.container_outcomes.specs.Outcomes.{Tells};
ghost use Rattle.api_map.specs.Sources.{elements, with_keys};
ghost use Rattle.api_map.specs.Whole as spec;

use crate::arguments::{Keyed, keyed_at, map_at};
use crate::guards::{may_put_all, takes_puts};
use crate::making::{MapClass, SetClass};
use crate::sources::{Source, are_keys, copied, put_keys, source_at};
use container_outcomes::{Outcome, is_open, not_simple, null_error, unsupported};
use object_heap::Heap;
use object_values::{Guard, Object, Pairs, Value};
use std::alloc::AllocError;

// The elements as keys.
fn keys_of(heap: &Heap, source: Source) -> Result<Pairs, AllocError>
    ensures { IfOk result (λ keys. keys ≡ with_keys [] (elements heap.now.objects source)) }
{
    let mut keys = Pairs::new(heap.alloc(), heap.seed());
    put_keys(heap, source, &mut keys)?;
    Ok(keys)
}

fn added_from(heap: &Heap, id: u32, source: Source) -> Outcome
    ensures { Tells (spec.added_from heap.now.objects id source) result }
{
    if !are_keys(heap, source) {
        return not_simple(heap);
    }
    match keys_of(heap, source) {
        Ok(keys) => Outcome::AddsAll(id, keys),
        Err(_) => Outcome::NoMemory,
    }
}

fn added_to(heap: &Heap, id: u32, source: Option<Source>) -> Outcome
    ensures { Tells (spec.added_all heap.now.objects source (keyed_is.Set id)) result }
{
    if !is_open(heap, id) {
        return unsupported();
    }
    match source {
        Some(source) => added_from(heap, id, source),
        None => null_error(),
    }
}

fn added_all(heap: &Heap, source: Option<Source>, keyed: Keyed) -> Outcome
    ensures { Tells (spec.added_all heap.now.objects source keyed) result }
{
    match keyed {
        Keyed::Set(id) => added_to(heap, id, source),
        Keyed::View(_, _) => unsupported(),
    }
}

fn pairs_copied(heap: &Heap, from: u32) -> Result<Pairs, AllocError>
    ensures { IfOk result (λ copy. copy ≡ pairs_of heap.now.objects from) }
{
    match heap.pairs(from) {
        Some(pairs) => copied(heap, pairs),
        None => Ok(Pairs::new(heap.alloc(), heap.seed())),
    }
}

fn put_from(heap: &Heap, id: u32, from: u32) -> Outcome
    ensures { Tells (spec.put_from heap.now.objects id from) result }
{
    if !may_put_all(heap, id, from) {
        return unsupported();
    }
    match pairs_copied(heap, from) {
        Ok(pairs) => Outcome::PutsAll(id, pairs),
        Err(_) => Outcome::NoMemory,
    }
}

fn put_all_of(heap: &Heap, from: Option<u32>, id: u32) -> Outcome
    ensures { Tells (spec.put_all_of heap.now.objects from id) result }
{
    if !takes_puts(heap, id) {
        return unsupported();
    }
    match from {
        Some(from) => put_from(heap, id, from),
        None => null_error(),
    }
}

fn set_made(class: SetClass, heap: &Heap, source: Source) -> Outcome
    ensures { Tells (spec.set_made class heap.now.objects source) result }
{
    match keys_of(heap, source) {
        Ok(items) => {
            Outcome::New(Object::Set {
                class: class.number(),
                items,
                guard: Guard::Open,
                changes: 0,
            })
        }
        Err(_) => Outcome::NoMemory,
    }
}

fn set_of(class: SetClass, heap: &Heap, source: Source) -> Outcome
    ensures { Tells (spec.set_of class heap.now.objects source) result }
{
    if are_keys(heap, source) {
        set_made(class, heap, source)
    } else {
        not_simple(heap)
    }
}

fn map_of(class: MapClass, heap: &Heap, from: u32) -> Outcome
    ensures { Tells (spec.map_of class heap.now.objects from) result }
{
    match pairs_copied(heap, from) {
        Ok(pairs) => {
            Outcome::New(Object::Map {
                class: class.number(),
                pairs,
                guard: Guard::Open,
                changes: 0,
            })
        }
        Err(_) => Outcome::NoMemory,
    }
}

/// `addAll(Collection)`.
pub fn add_all(heap: &Heap, args: &[Value]) -> Outcome
    ensures { Tells (spec.add_all heap.now.objects args.now) result }
{
    match keyed_at(heap, args, 0) {
        Some(keyed) => added_all(heap, source_at(heap, args, 1), keyed),
        None => null_error(),
    }
}

/// `putAll(Map)`.
pub fn put_all(heap: &Heap, args: &[Value]) -> Outcome
    ensures { Tells (spec.put_all heap.now.objects args.now) result }
{
    match map_at(heap, args, 0) {
        Some(map) => put_all_of(heap, map_at(heap, args, 1), map),
        None => null_error(),
    }
}

/// `new HashSet(Collection)` and `new LinkedHashSet(Collection)`.
pub fn new_set_of(class: SetClass, heap: &Heap, args: &[Value]) -> Outcome
    ensures { Tells (spec.new_set_of class heap.now.objects args.now) result }
{
    match source_at(heap, args, 0) {
        Some(source) => set_of(class, heap, source),
        None => null_error(),
    }
}

/// `new HashMap(Map)` and `new LinkedHashMap(Map)`.
pub fn new_map_of(class: MapClass, heap: &Heap, args: &[Value]) -> Outcome
    ensures { Tells (spec.new_map_of class heap.now.objects args.now) result }
{
    match map_at(heap, args, 0) {
        Some(from) => map_of(class, heap, from),
        None => null_error(),
    }
}
