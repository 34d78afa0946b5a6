//! Whether a collection holds an element.
ghost use Rattle.std.specs.Prelude.{◌≡◌};
ghost use Rattle.object_heap.specs.Parts.{pairs_of};
ghost use Rattle.container_outcomes.specs.Comparing.{comparison};
ghost use Rattle.api_map.specs.Sources.{elements};
ghost use Rattle.api_map.specs.Holding as spec;

use crate::arguments::entry_of;
use crate::collections::{compare_shown, entry_shown};
use crate::maps::has_key;
use crate::sources::{Source, count, element_at};
use container_outcomes::{Compared, compare, compare_entries};
use object_heap::Heap;
use object_values::{Part, Value};

// Searches the elements that are values of their own for a value.
fn among(heap: &Heap, source: Source, value: &Value) -> Compared
    ensures { result ≡ spec.among (comparison heap.now.objects value.now) (elements heap.now.objects source) }
{
    for at in 0..count(heap, source) {
        let Some(other) = element_at(heap, source, at) else {
            return Compared::Other;
        };
        match compare(heap, value, other) {
            Compared::Same => return Compared::Same,
            Compared::Other => {}
            Compared::Deep => return Compared::Deep,
            Compared::Large => return Compared::Large,
        }
    }
    Compared::Other
}

fn key_in(heap: &Heap, id: u32, key: &Value) -> Compared
    ensures { result ≡ spec.key_in (pairs_of heap.now.objects id) key.now }
{
    if has_key(heap, id, key) {
        Compared::Same
    } else {
        Compared::Other
    }
}

fn value_shown(heap: &Heap, map: u32, part: Part, value: &Value) -> Compared
    ensures { result ≡ spec.value_shown heap.now.objects map part value.now }
{
    match part {
        Part::Keys => key_in(heap, map, value),
        Part::Values => among(heap, Source::Pairs(map, Part::Values), value),
        Part::Entries => entry_shown(heap, map, value),
    }
}

/// Whether a value is one of a collection's.
pub fn value_in(heap: &Heap, source: Source, value: &Value) -> Compared
    ensures { result ≡ spec.value_in heap.now.objects source value.now }
{
    match source {
        Source::Items(id) => among(heap, Source::Items(id), value),
        Source::Pairs(map, part) => value_shown(heap, map, part, value),
    }
}

fn is_entry(heap: &Heap, from: u32, key: &Value, value: &Value) -> Compared
    ensures { result ≡ spec.is_entry heap.now.objects from key.now value.now }
{
    match entry_of(heap, value) {
        Some((map, other)) => compare_entries(heap, from, key, map, other),
        None => Compared::Other,
    }
}

// Searches the elements that are values of their own for an entry.
fn entry_among(heap: &Heap, source: Source, from: u32, key: &Value) -> Compared
    ensures { result ≡ spec.among (spec.is_entry heap.now.objects from key.now) (elements heap.now.objects source) }
{
    for at in 0..count(heap, source) {
        let Some(other) = element_at(heap, source, at) else {
            return Compared::Other;
        };
        match is_entry(heap, from, key, other) {
            Compared::Same => return Compared::Same,
            Compared::Other => {}
            Compared::Deep => return Compared::Deep,
            Compared::Large => return Compared::Large,
        }
    }
    Compared::Other
}

fn entry_shown_too(heap: &Heap, map: u32, part: Part, from: u32, key: &Value) -> Compared
    ensures { result ≡ spec.entry_shown_too heap.now.objects map part from key.now }
{
    match part {
        Part::Keys => Compared::Other,
        Part::Values => entry_among(heap, Source::Pairs(map, Part::Values), from, key),
        Part::Entries => compare_shown(heap, from, map, key),
    }
}

/// Whether an entry that a view shows is one of a collection's.
pub fn entry_in(heap: &Heap, source: Source, from: u32, key: &Value) -> Compared
    ensures { result ≡ spec.entry_in heap.now.objects source from key.now }
{
    match source {
        Source::Items(id) => entry_among(heap, Source::Items(id), from, key),
        Source::Pairs(map, part) => entry_shown_too(heap, map, part, from, key),
    }
}
