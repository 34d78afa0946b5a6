//! Elements by their places.
ghost use Rattle.std.specs.Prelude.{◌≡◌, IfOk, Some};
ghost use Rattle.std.specs.Option.{option_copied};
ghost use Rattle.object_heap.specs.Parts.{pairs_of};
ghost use Rattle.object_heap.specs.Effects.{Answers};
ghost use Rattle.container_parts.specs.Containers as spec;
ghost use Rattle.container_parts.specs.Iterators as iterators;

use crate::containers::Container;
use crate::cursors::Cursor;
use crate::moving::{give, give_entry};
use object_heap::{Answer, Heap};
use object_values::{Part, Value};
use std::alloc::AllocError;

/// An element.
pub enum Element {
    /// A value that is there already.
    There(Value),
    /// An entry of a map under a key, which is an object that is to be made.
    Entry(u32, Value),
}

impl Drop for Element {
    fn drop(self) {
        match self {
            Element::There(_value) => {}
            Element::Entry(_map, _key) => {}
        }
    }
}

impl Element {
    /// Gives the element, behind which the iterator goes.
    pub fn give(self, heap: &mut Heap, id: u32, it: Cursor) -> Answer
        ensures { Answers (iterators.given heap.old id it (Some self)) heap.old heap.new result }
    {
        match self {
            Element::There(value) => give(heap, id, it, value),
            Element::Entry(map, key) => give_entry(heap, id, it, map, key),
        }
    }
}

fn value_there(value: &Value) -> Result<Option<Element>, AllocError>
    ensures { IfOk result (λ found. found ≡ spec.there (Some value.now)) }
{
    let value = value.share()?;
    Ok(Some(Element::There(value)))
}

fn there(value: Option<&Value>) -> Result<Option<Element>, AllocError>
    ensures { IfOk result (λ found. found ≡ spec.there (option_copied value.entry)) }
{
    match value {
        Some(value) => value_there(value),
        None => Ok(None),
    }
}

fn entry_of(map: u32, key: &Value) -> Result<Option<Element>, AllocError>
    ensures { IfOk result (λ found. found ≡ spec.entry_under map (Some key.now)) }
{
    let key = key.share()?;
    Ok(Some(Element::Entry(map, key)))
}

fn entry_under(map: u32, key: Option<&Value>) -> Result<Option<Element>, AllocError>
    ensures { IfOk result (λ found. found ≡ spec.entry_under map (option_copied key.entry)) }
{
    match key {
        Some(key) => entry_of(map, key),
        None => Ok(None),
    }
}

fn shown_at(heap: &Heap, map: u32, part: Part, at: usize) -> Result<Option<Element>, AllocError>
    ensures { IfOk result (λ found. found ≡ spec.shown_at (pairs_of heap.now.objects map) map part at) }
{
    match part {
        Part::Keys => there(heap.key_at(map, at)),
        Part::Values => there(heap.value_at(map, at)),
        Part::Entries => entry_under(map, heap.key_at(map, at)),
    }
}

/// The element at a place. It takes memory for the copy of a text.
pub fn element_at(
    heap: &Heap,
    container: Container,
    at: usize,
) -> Result<Option<Element>, AllocError>
    ensures { IfOk result (λ found. found ≡ spec.element_at heap.now.objects container at) }
{
    match container {
        Container::Items(id) => there(heap.items(id).get(at)),
        Container::Array(id) => there(heap.items(id).get(at)),
        Container::Keys(id) => there(heap.key_at(id, at)),
        Container::Shown(map, part) => shown_at(heap, map, part, at),
    }
}
