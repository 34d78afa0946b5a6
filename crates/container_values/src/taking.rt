//! All elements, copied, and the entries that are made for them.
ghost use Rattle.std.specs.Prelude.{◌≡◌, ◌+◌, ◌++◌, IfOk, OnOk};
ghost use Rattle.container_values.specs.Elements as spec;

use crate::elements::{entry_count, entry_key_at, map_shown, value_at, value_count};
use container_parts::Container;
use object_heap::Heap;
use object_values::{Elements, Object, Value};
use std::alloc::AllocError;

fn values(heap: &Heap, container: Container) -> Result<Elements<Value>, AllocError>
    ensures { IfOk result (λ copy. copy ≡ spec.values_of heap.now.objects container) }
{
    let mut copy = Elements::new(heap.alloc());
    for at in 0..value_count(heap, container) {
        let Some(value) = value_at(heap, container, at) else {
            unreachable!()
        };
        let value = value.share()?;
        copy.push(value)?;
    }
    Ok(copy)
}

/// The entries that a view of entries shows, as new objects. Of anything else there are none.
pub fn entries(heap: &Heap, container: Container) -> Result<Elements<Object>, AllocError>
    ensures { IfOk result (λ made. made ≡ spec.entries_of heap.now.objects container) }
{
    let map = map_shown(container);
    let mut made = Elements::new(heap.alloc());
    for at in 0..entry_count(heap, container) {
        let Some(key) = entry_key_at(heap, container, at) else {
            unreachable!()
        };
        let key = key.share()?;
        made.push(Object::Entry { map, key })?;
    }
    Ok(made)
}

// The number of the object that comes so many behind another, if there may be one.
fn number_behind(from: usize, at: usize) -> Result<u32, AllocError>
    ensures { IfOk result (λ id. id ≡ from + at) }
{
    let Some(place) = from.checked_add(at) else {
        return Err(AllocError);
    };
    match u32::try_from(place) {
        Ok(id) => Ok(id),
        Err(_) => Err(AllocError),
    }
}

fn push_references(
    values: &mut Elements<Value>,
    from: usize,
    count: usize,
) -> Result<(), AllocError>
    ensures { OnOk result (values.new ≡ values.old ++ spec.references from count) }
{
    for at in 0..count {
        let id = number_behind(from, at)?;
        values.push(Value::Ref(id))?;
    }
    Ok(())
}

/// All elements as values: those that are there, or references to the entries, which have to be added next. Of a text no unit is
/// copied.
pub fn taken(heap: &Heap, container: Container) -> Result<Elements<Value>, AllocError>
    ensures { IfOk result (λ values. values ≡ spec.taken heap.now.objects container) }
{
    let mut all = values(heap, container)?;
    push_references(&mut all, heap.len(), entry_count(heap, container))?;
    Ok(all)
}

/// References to the entries that a view of entries shows, once these are added next. Of anything else there are none.
pub fn entry_references(heap: &Heap, container: Container) -> Result<Elements<Value>, AllocError>
    ensures { IfOk result (λ values. values ≡ spec.entry_references heap.now.objects container) }
{
    let mut all = Elements::new(heap.alloc());
    push_references(&mut all, heap.len(), entry_count(heap, container))?;
    Ok(all)
}
