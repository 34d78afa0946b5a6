//! The elements of what has elements: how many there are, and each by its place.
ghost use Rattle.std.specs.Prelude.{◌≡◌, length, slice_get};
ghost use Rattle.std.specs.Option.{option_copied};
ghost use Rattle.object_heap.specs.Parts.{pairs_of};
ghost use Rattle.container_values.specs.Elements as spec;

use container_parts::{Container, container_at};
use object_heap::Heap;
use object_values::{Part, Value};

fn if_collection(found: Option<Container>) -> Option<Container>
    ensures { result ≡ spec.if_collection found }
{
    match found {
        None => None,
        Some(Container::Items(id)) => Some(Container::Items(id)),
        Some(Container::Array(_)) => None,
        Some(Container::Keys(id)) => Some(Container::Keys(id)),
        Some(Container::Shown(map, part)) => Some(Container::Shown(map, part)),
    }
}

/// The collection at a place of the arguments, which no array is.
pub fn collection_at(heap: &Heap, args: &[Value], at: usize) -> Option<Container>
    ensures { result ≡ spec.collection_at heap.now.objects args.now at }
{
    if_collection(container_at(heap, args, at))
}

fn pair_count(heap: &Heap, id: u32) -> usize
    ensures { result ≡ length (pairs_of heap.now.objects id) }
{
    match heap.pairs(id) {
        Some(pairs) => pairs.len(),
        None => 0,
    }
}

#[tactic(auto, using(crate::proofs::Places::length_keys, crate::proofs::Places::length_values))]
fn shown_count(heap: &Heap, map: u32, part: Part) -> usize
    ensures { result ≡ length (spec.shown_values part (pairs_of heap.now.objects map)) }
{
    match part {
        Part::Keys => pair_count(heap, map),
        Part::Values => pair_count(heap, map),
        Part::Entries => 0,
    }
}

/// How many elements are values already, which all are but those of a view of entries.
#[tactic(auto, using(crate::proofs::Places::length_keys))]
pub fn value_count(heap: &Heap, container: Container) -> usize
    ensures { result ≡ length (spec.values_of heap.now.objects container) }
{
    match container {
        Container::Items(id) => heap.items(id).len(),
        Container::Array(id) => heap.items(id).len(),
        Container::Keys(id) => pair_count(heap, id),
        Container::Shown(map, part) => shown_count(heap, map, part),
    }
}

#[tactic(auto, using(crate::proofs::Places::key_there, crate::proofs::Places::value_there))]
fn shown_at(heap: &Heap, map: u32, part: Part, at: usize) -> Option<&Value>
    ensures { option_copied result ≡ slice_get (spec.shown_values part (pairs_of heap.now.objects map)) at }
{
    match part {
        Part::Keys => heap.key_at(map, at),
        Part::Values => heap.value_at(map, at),
        Part::Entries => None,
    }
}

/// The element at a place, if it is a value already.
#[tactic(auto, using(crate::proofs::Places::key_there))]
pub fn value_at(heap: &Heap, container: Container, at: usize) -> Option<&Value>
    ensures { option_copied result ≡ slice_get (spec.values_of heap.now.objects container) at }
{
    match container {
        Container::Items(id) => heap.items(id).get(at),
        Container::Array(id) => heap.items(id).get(at),
        Container::Keys(id) => heap.key_at(id, at),
        Container::Shown(map, part) => shown_at(heap, map, part, at),
    }
}

#[tactic(auto, using(crate::proofs::Places::length_keys))]
fn entries_shown(heap: &Heap, map: u32, part: Part) -> usize
    ensures { result ≡ length (spec.entry_keys part (pairs_of heap.now.objects map)) }
{
    match part {
        Part::Keys => 0,
        Part::Values => 0,
        Part::Entries => pair_count(heap, map),
    }
}

/// How many elements are entries, which those of a view of entries are.
pub fn entry_count(heap: &Heap, container: Container) -> usize
    ensures { result ≡ length (spec.entry_keys_of heap.now.objects container) }
{
    match container {
        Container::Items(_) => 0,
        Container::Array(_) => 0,
        Container::Keys(_) => 0,
        Container::Shown(map, part) => entries_shown(heap, map, part),
    }
}

#[tactic(auto, using(crate::proofs::Places::key_there))]
fn entry_key_shown(heap: &Heap, map: u32, part: Part, at: usize) -> Option<&Value>
    ensures { option_copied result ≡ slice_get (spec.entry_keys part (pairs_of heap.now.objects map)) at }
{
    match part {
        Part::Keys => None,
        Part::Values => None,
        Part::Entries => heap.key_at(map, at),
    }
}

/// The key of the entry at a place, if it is one of a view of entries.
pub fn entry_key_at(heap: &Heap, container: Container, at: usize) -> Option<&Value>
    ensures { option_copied result ≡ slice_get (spec.entry_keys_of heap.now.objects container) at }
{
    match container {
        Container::Items(_) => None,
        Container::Array(_) => None,
        Container::Keys(_) => None,
        Container::Shown(map, part) => entry_key_shown(heap, map, part, at),
    }
}

/// The map that a view shows; of anything else the object itself.
pub fn map_shown(container: Container) -> u32
    ensures { result ≡ spec.map_shown container }
{
    match container {
        Container::Items(id) => id,
        Container::Array(id) => id,
        Container::Keys(id) => id,
        Container::Shown(map, _) => map,
    }
}
