//! What holds the elements that a member takes from a collection.
ghost use Rattle.std.specs.Prelude.{◌≡◌, ◌≤◌, IfNone, IfSome, IfOk, OnOk, Some, length, slice_get};
ghost use Rattle.std.specs.Option.{option_copied};
ghost use Rattle.object_heap.specs.Parts.{pairs_of};
ghost use Rattle.object_values.specs.Pairs.{with_pair, with_pairs};
ghost use Rattle.object_values.specs.declared.value.Value.TheVariants as v;
ghost use Rattle.api_map.specs.declared.sources.Source.TheVariants as source_is;
ghost use Rattle.api_map.specs.Sources as spec;

use crate::searching::pair_at;
use container_parts::Container;
use container_values::{value_at, value_count};
use member_arguments::object_at;
use object_heap::Heap;
use object_values::{Object, Pairs, Part, Value};
use std::alloc::AllocError;

/// What holds the elements.
#[derive(Clone, Copy)]
pub enum Source {
    /// The items of a list.
    Items(u32),
    /// A part of the pairs of a map or a set.
    Pairs(u32, Part),
}

fn source_in(id: u32, object: &Object) -> Option<Source>
    ensures { result ≡ spec.if_source id (Some object.now) }
{
    match object {
        Object::List { .. } => Some(Source::Items(id)),
        Object::Set { .. } => Some(Source::Pairs(id, Part::Keys)),
        Object::View { map, part } => Some(Source::Pairs(*map, *part)),
        _ => None,
    }
}

fn source_found(heap: &Heap, id: u32) -> Option<Source>
    ensures { result ≡ spec.if_source id (slice_get heap.now.objects id) }
{
    match heap.get(id) {
        Some(object) => source_in(id, object),
        None => None,
    }
}

/// The collection at a place.
pub fn source_at(heap: &Heap, args: &[Value], at: usize) -> Option<Source>
    ensures { result ≡ spec.source_at heap.now.objects args.now at }
{
    match object_at(args, at) {
        Some(id) => source_found(heap, id),
        None => None,
    }
}

/// How many elements there are, without entries.
pub fn count(heap: &Heap, source: Source) -> usize
    ensures { result ≡ length (spec.elements heap.now.objects source) }
{
    match source {
        Source::Items(id) => heap.items(id).len(),
        Source::Pairs(id, part) => value_count(heap, Container::Shown(id, part)),
    }
}

/// The element at a place.
pub fn element_at(heap: &Heap, source: Source, at: usize) -> Option<&Value>
    ensures { option_copied result ≡ slice_get (spec.elements heap.now.objects source) at }
{
    match source {
        Source::Items(id) => heap.items(id).get(at),
        Source::Pairs(id, part) => value_at(heap, Container::Shown(id, part), at),
    }
}

fn entries_in(heap: &Heap, id: u32, part: Part) -> bool
    ensures { result ≡ spec.has_entries heap.now.objects (source_is.Pairs id part) }
{
    match part {
        Part::Keys => false,
        Part::Values => false,
        Part::Entries => has_pairs(heap, id),
    }
}

fn has_pairs(heap: &Heap, id: u32) -> bool
    ensures { result ≡ spec.has_pairs (pairs_of heap.now.objects id) }
{
    match heap.pairs(id) {
        Some(pairs) => are_some(pairs),
        None => false,
    }
}

fn are_some(pairs: &Pairs) -> bool
    ensures { result ≡ spec.has_pairs pairs.now }
{
    pairs.len() != 0
}

fn has_entries(heap: &Heap, source: Source) -> bool
    ensures { result ≡ spec.has_entries heap.now.objects source }
{
    match source {
        Source::Items(_) => false,
        Source::Pairs(id, part) => entries_in(heap, id, part),
    }
}

fn all_simple(heap: &Heap, source: Source) -> bool
    ensures { result ≡ spec.all_simple (spec.elements heap.now.objects source) }
{
    for at in 0..count(heap, source) {
        let Some(value) = element_at(heap, source, at) else {
            return true;
        };
        if !value.is_simple() {
            return false;
        }
    }
    true
}

/// Whether all elements may be keys.
pub fn are_keys(heap: &Heap, source: Source) -> bool
    ensures { result ≡ spec.are_keys heap.now.objects source }
{
    if has_entries(heap, source) {
        false
    } else {
        all_simple(heap, source)
    }
}

fn put_key(into: &mut Pairs, key: &Value) -> Result<(), AllocError>
    ensures { OnOk result (into.new ≡ with_pair into.old key.now v.Null) }
{
    let key = key.share()?;
    into.put(key, Value::Null)?;
    Ok(())
}

/// Puts all elements as keys.
pub fn put_keys(heap: &Heap, source: Source, into: &mut Pairs) -> Result<(), AllocError>
    ensures { OnOk result (into.new ≡ spec.with_keys into.old (spec.elements heap.now.objects source)) }
{
    for at in 0..count(heap, source) {
        let Some(key) = element_at(heap, source, at) else {
            return Ok(());
        };
        put_key(into, key)?;
    }
    Ok(())
}

/// Puts one pair.
pub fn put_pair(into: &mut Pairs, key: &Value, value: &Value) -> Result<(), AllocError>
    ensures { OnOk result (into.new ≡ with_pair into.old key.now value.now) }
{
    let key = key.share()?;
    let value = value.share()?;
    into.put(key, value)?;
    Ok(())
}

/// Puts all pairs.
pub fn put_pairs(from: &Pairs, into: &mut Pairs) -> Result<(), AllocError>
    ensures { OnOk result (into.new ≡ with_pairs into.old from.now) }
{
    for at in 0..from.len() {
        let Some((key, value)) = pair_at(from, at) else {
            return Ok(());
        };
        put_pair(into, key, value)?;
    }
    Ok(())
}

/// The same pairs once more.
#[tactic(auto, using(crate::proofs::Copying::all_copied))]
pub fn copied(heap: &Heap, pairs: &Pairs) -> Result<Pairs, AllocError>
    ensures { IfOk result (λ copy. copy ≡ pairs.now) }
{
    let _count = pairs.len();
    let mut copy = Pairs::new(heap.alloc(), heap.seed());
    put_pairs(pairs, &mut copy)?;
    Ok(copy)
}
