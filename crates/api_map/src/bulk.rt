//! The members that ask for each element of another collection.
ghost use Rattle.std.specs.Prelude.{◌≡◌, ◌-◌, Some, true, false, length, slice_get};
ghost use Rattle.api_map.specs.declared.arguments.Keyed.TheVariants as keyed_is;
ghost use Rattle.container_outcomes.specs.declared.outcome.Outcome.{Outcome};
ghost use Rattle.api_map.specs.declared.sources.Source.TheVariants as source_is;
ghost use Rattle.object_values.specs.declared.object.Part.TheVariants as part_is;
ghost use Rattle.api_map.specs.Collections.{found_in};
ghost use Rattle.container_outcomes.specs.Outcomes.{Tells, flag};
ghost use Rattle.container_outcomes.specs.Comparing.{where_equal};
ghost use Rattle.api_map.specs.Sources.{elements};
ghost use Rattle.object_heap.specs.Objects.{changed_by};
ghost use Rattle.api_map.specs.Bulk as spec;
ghost use Rattle.api_map.specs.declared.bulk.Choice.TheVariants as choice;

use crate::arguments::{Keyed, holder_of, keyed_at};
use crate::collections::found_in;
use crate::holding::{entry_in, value_in};
use crate::searching::pair_at;
use crate::sources::{Source, count, element_at, put_pair, source_at};
use container_outcomes::{
    Compared, Outcome, is_open, not_simple, null_error, too_deep, too_large, unsupported,
};
use object_heap::Heap;
use object_values::{Guard, Object, Pairs, Part, Value};

/// What becomes of the elements that are in the other collection.
#[derive(Clone, Copy)]
pub enum Bulk {
    /// They go.
    Remove,
    /// They stay, and the others go.
    Retain,
}

/// What becomes of a pair.
#[derive(Clone, Copy)]
pub enum Choice {
    Stays,
    Goes,
    /// A comparison goes too deep.
    Deep,
    /// A comparison visits too much.
    Large,
}

/// Why no pairs are told apart.
#[derive(Clone, Copy)]
pub enum SiftErr {
    /// A comparison goes too deep.
    Deep,
    /// A comparison visits too much.
    Large,
    NoMemory,
}

fn value_is_true(value: &Value) -> bool
    ensures { result ≡ spec.is_true (Outcome.Gives value.now) }
{
    match value {
        Value::Bool(flag) => *flag,
        _ => false,
    }
}

// Whether an outcome is true.
fn is_true(told: &Outcome) -> bool
    ensures { result ≡ spec.is_true told.now }
{
    match told {
        Outcome::Gives(value) => value_is_true(value),
        _ => false,
    }
}

fn each_value_found(heap: &Heap, keyed: Keyed, source: Source) -> Outcome
    ensures { Tells (spec.each_found (found_in heap.now.objects keyed) (elements heap.now.objects source)) result }
{
    for at in 0..count(heap, source) {
        let Some(value) = element_at(heap, source, at) else {
            return Outcome::Gives(Value::Bool(true));
        };
        let told = found_in(heap, keyed, value);
        if !is_true(&told) {
            return told;
        }
        drop(told);
    }
    Outcome::Gives(Value::Bool(true))
}

fn compared(heap: &Heap, is: Compared) -> Outcome
    ensures { Tells (where_equal is (flag true) (flag false)) result }
{
    match is {
        Compared::Same => Outcome::Gives(Value::Bool(true)),
        Compared::Other => Outcome::Gives(Value::Bool(false)),
        Compared::Deep => too_deep(heap),
        Compared::Large => too_large(heap),
    }
}

fn entry_found_in_view(heap: &Heap, map: u32, part: Part, from: u32, key: &Value) -> Outcome
    ensures { Tells (spec.entry_found_in heap.now.objects (keyed_is.View map part) from key.now) result }
{
    match part {
        Part::Keys => not_simple(heap),
        Part::Values => compared(
            heap,
            entry_in(heap, Source::Pairs(map, Part::Values), from, key),
        ),
        Part::Entries => compared(
            heap,
            entry_in(heap, Source::Pairs(map, Part::Entries), from, key),
        ),
    }
}

fn entry_found_in(heap: &Heap, keyed: Keyed, from: u32, key: &Value) -> Outcome
    ensures { Tells (spec.entry_found_in heap.now.objects keyed from key.now) result }
{
    match keyed {
        Keyed::Set(_) => not_simple(heap),
        Keyed::View(map, part) => entry_found_in_view(heap, map, part, from, key),
    }
}

fn each_entry_found(heap: &Heap, keyed: Keyed, from: u32) -> Outcome
    ensures { Tells (spec.each_found (spec.entry_found_in heap.now.objects keyed from) (elements heap.now.objects (source_is.Pairs from part_is.Keys))) result }
{
    let keys = Source::Pairs(from, Part::Keys);
    for at in 0..count(heap, keys) {
        let Some(key) = element_at(heap, keys, at) else {
            return Outcome::Gives(Value::Bool(true));
        };
        let told = entry_found_in(heap, keyed, from, key);
        if !is_true(&told) {
            return told;
        }
        drop(told);
    }
    Outcome::Gives(Value::Bool(true))
}

fn shown_found(heap: &Heap, keyed: Keyed, from: u32, part: Part) -> Outcome
    ensures { Tells (spec.shown_found heap.now.objects keyed from part) result }
{
    match part {
        Part::Keys => each_value_found(heap, keyed, Source::Pairs(from, Part::Keys)),
        Part::Values => each_value_found(heap, keyed, Source::Pairs(from, Part::Values)),
        Part::Entries => each_entry_found(heap, keyed, from),
    }
}

fn all_found(heap: &Heap, keyed: Keyed, source: Source) -> Outcome
    ensures { Tells (spec.all_found heap.now.objects keyed source) result }
{
    match source {
        Source::Items(id) => each_value_found(heap, keyed, Source::Items(id)),
        Source::Pairs(from, part) => shown_found(heap, keyed, from, part),
    }
}

fn contains_all_of(heap: &Heap, source: Option<Source>, keyed: Keyed) -> Outcome
    ensures { Tells (spec.contains_all_of heap.now.objects source keyed) result }
{
    match source {
        Some(source) => all_found(heap, keyed, source),
        None => null_error(),
    }
}

/// What becomes of an element of which this comes where it is sought in the other collection.
pub fn choice_of(bulk: Bulk, is: Compared) -> Choice
    ensures { result ≡ spec.choice_of bulk is }
{
    match (bulk, is) {
        (Bulk::Remove, Compared::Same) => Choice::Goes,
        (Bulk::Remove, Compared::Other) => Choice::Stays,
        (Bulk::Remove, Compared::Deep) => Choice::Deep,
        (Bulk::Remove, Compared::Large) => Choice::Large,
        (Bulk::Retain, Compared::Same) => Choice::Stays,
        (Bulk::Retain, Compared::Other) => Choice::Goes,
        (Bulk::Retain, Compared::Deep) => Choice::Deep,
        (Bulk::Retain, Compared::Large) => Choice::Large,
    }
}

/// The elements of a part of a map or a set, and another collection in which they are sought.
#[derive(Clone, Copy)]
pub struct Search {
    pub bulk: Bulk,
    pub source: Source,
    pub map: u32,
    pub part: Part,
}

fn choose(heap: &Heap, search: Search, key: &Value, value: &Value) -> Choice
    ensures { result ≡ spec.choose heap.now.objects search (key.now, value.now) }
{
    match search.part {
        Part::Keys => choice_of(search.bulk, value_in(heap, search.source, key)),
        Part::Values => choice_of(search.bulk, value_in(heap, search.source, value)),
        Part::Entries => choice_of(search.bulk, entry_in(heap, search.source, search.map, key)),
    }
}

fn keep_pair(into: &mut Pairs, key: &Value, value: &Value) -> Result<(), SiftErr>
    ensures { spec.SiftsOne choice.Stays (key.now, value.now) into.old into.new result }
{
    match put_pair(into, key, value) {
        Ok(()) => Ok(()),
        Err(_) => Err(SiftErr::NoMemory),
    }
}

// Puts a pair behind those that stay, if it stays.
fn sift_one(
    heap: &Heap,
    search: Search,
    key: &Value,
    value: &Value,
    left: &mut Pairs,
) -> Result<(), SiftErr>
    ensures { spec.SiftsOne (spec.choose heap.now.objects search (key.now, value.now)) (key.now, value.now) left.old left.new result }
{
    match choose(heap, search, key, value) {
        Choice::Stays => keep_pair(left, key, value),
        Choice::Goes => Ok(()),
        Choice::Deep => Err(SiftErr::Deep),
        Choice::Large => Err(SiftErr::Large),
    }
}

// The pairs that stay.
fn sift(heap: &Heap, search: Search, pairs: &Pairs) -> Result<Pairs, SiftErr>
    ensures { spec.Sifts (spec.sift (spec.choose heap.now.objects search) pairs.now) result }
{
    let mut left = Pairs::new(heap.alloc(), heap.seed());
    for at in 0..pairs.len() {
        let Some((key, value)) = pair_at(pairs, at) else {
            unreachable!()
        };
        match sift_one(heap, search, key, value, &mut left) {
            Ok(()) => {}
            Err(cause) => return Err(cause),
        }
    }
    Ok(left)
}

// Each pair that goes is a change.
fn changes_after(changes: u64, before: usize, left: usize) -> u64
    ensures { result ≡ changed_by changes (before - left) }
{
    changes.wrapping_add(before.saturating_sub(left) as u64)
}

fn map_left(id: u32, class: u32, changes: u64, before: usize, left: Pairs) -> Outcome
    ensures { result ≡ spec.map_sifted id class changes before (spec.Left left) }
{
    let count = left.len();
    let object = Object::Map {
        class,
        pairs: left,
        guard: Guard::Open,
        changes: changes_after(changes, before, count),
    };
    Outcome::Becomes(id, object, Value::Bool(count < before))
}

#[tactic(auto, using(crate::proofs::Needing::map_needs))]
fn map_sifted(heap: &Heap, class: u32, changes: u64, pairs: &Pairs, search: Search) -> Outcome
    ensures { Tells (spec.map_sifted search.map class changes (length pairs.now) (spec.sift (spec.choose heap.now.objects search) pairs.now)) result }
{
    match sift(heap, search, pairs) {
        Ok(left) => map_left(search.map, class, changes, pairs.len(), left),
        Err(SiftErr::Deep) => too_deep(heap),
        Err(SiftErr::Large) => too_large(heap),
        Err(SiftErr::NoMemory) => Outcome::NoMemory,
    }
}

fn set_left(id: u32, class: u32, changes: u64, before: usize, left: Pairs) -> Outcome
    ensures { result ≡ spec.set_sifted id class changes before (spec.Left left) }
{
    let count = left.len();
    let object = Object::Set {
        class,
        items: left,
        guard: Guard::Open,
        changes: changes_after(changes, before, count),
    };
    Outcome::Becomes(id, object, Value::Bool(count < before))
}

#[tactic(auto, using(crate::proofs::Needing::set_needs))]
fn set_sifted(heap: &Heap, class: u32, changes: u64, items: &Pairs, search: Search) -> Outcome
    ensures { Tells (spec.set_sifted search.map class changes (length items.now) (spec.sift (spec.choose heap.now.objects search) items.now)) result }
{
    match sift(heap, search, items) {
        Ok(left) => set_left(search.map, class, changes, items.len(), left),
        Err(SiftErr::Deep) => too_deep(heap),
        Err(SiftErr::Large) => too_large(heap),
        Err(SiftErr::NoMemory) => Outcome::NoMemory,
    }
}

fn object_sifted(heap: &Heap, object: &Object, search: Search) -> Outcome
    ensures { Tells (spec.sifted_in search.map (spec.choose heap.now.objects search) (Some object.now)) result }
{
    match object {
        Object::Map {
            class,
            pairs,
            changes,
            ..
        } => map_sifted(heap, *class, *changes, pairs, search),
        Object::Set {
            class,
            items,
            changes,
            ..
        } => set_sifted(heap, *class, *changes, items, search),
        _ => Outcome::Gives(Value::Bool(false)),
    }
}

fn sifted(heap: &Heap, search: Search) -> Outcome
    ensures { Tells (spec.sifted_in search.map (spec.choose heap.now.objects search) (slice_get heap.now.objects search.map)) result }
{
    match heap.get(search.map) {
        Some(object) => object_sifted(heap, object, search),
        None => Outcome::Gives(Value::Bool(false)),
    }
}

fn part_of(keyed: Keyed) -> Part
    ensures { result ≡ spec.part_of keyed }
{
    match keyed {
        Keyed::Set(_) => Part::Keys,
        Keyed::View(_, part) => part,
    }
}

fn sifted_by(heap: &Heap, bulk: Bulk, keyed: Keyed, source: Source) -> Outcome
    ensures { Tells (spec.sifted_by heap.now.objects bulk keyed source) result }
{
    sifted(
        heap,
        Search {
            bulk,
            source,
            map: holder_of(keyed),
            part: part_of(keyed),
        },
    )
}

fn sifted_of(bulk: Bulk, heap: &Heap, source: Option<Source>, keyed: Keyed) -> Outcome
    ensures { Tells (spec.sifted_of bulk heap.now.objects source keyed) result }
{
    if !is_open(heap, holder_of(keyed)) {
        return unsupported();
    }
    match source {
        Some(source) => sifted_by(heap, bulk, keyed, source),
        None => null_error(),
    }
}

/// `containsAll(Collection)`.
pub fn contains_all(heap: &Heap, args: &[Value]) -> Outcome
    ensures { Tells (spec.contains_all heap.now.objects args.now) result }
{
    match keyed_at(heap, args, 0) {
        Some(keyed) => contains_all_of(heap, source_at(heap, args, 1), keyed),
        None => null_error(),
    }
}

/// `removeAll(Collection)` and `retainAll(Collection)`.
pub fn sift_all(bulk: Bulk, heap: &Heap, args: &[Value]) -> Outcome
    ensures { Tells (spec.sift_all bulk heap.now.objects args.now) result }
{
    match keyed_at(heap, args, 0) {
        Some(keyed) => sifted_of(bulk, heap, source_at(heap, args, 1), keyed),
        None => null_error(),
    }
}
