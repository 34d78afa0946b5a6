//! The members of a list that ask for each element of another collection, or for each of its own items in one.
ghost use Rattle.std.specs.Prelude.{◌≡◌, ◌-◌, Some, true, false, length};
ghost use Rattle.object_heap.specs.Objects.{changed_by};
ghost use Rattle.container_values.specs.Elements as elements;
ghost use Rattle.container_outcomes.specs.Comparing.{where_equal};
ghost use Rattle.container_outcomes.specs.Outcomes.{Tells, flag};
ghost use Rattle.api_map.specs.declared.bulk.Choice.TheVariants as choice;
ghost use Rattle.api_map.specs.declared.sources.Source.TheVariants as source_is;
ghost use Rattle.api_map.specs.Holding.{entry_in, value_in};
ghost use Rattle.api_list.specs.Bulk as spec;

use crate::arguments::list_at;
use api_map::{Bulk, Choice, SiftErr, Source, choice_of, entry_in, source_at, value_in};
use container_outcomes::{
    Compared, Outcome, is_open, null_error, too_deep, too_large, unsupported,
};
use container_parts::Container;
use container_values::{
    collection_at, entry_count, entry_key_at, map_shown, value_at, value_count,
};
use member_arguments::value_at as item_at;
use object_heap::Heap;
use object_values::{Elements, Guard, Object, Value};

// Whether the elements that are values are all items of a list.
fn values_in(heap: &Heap, list: u32, container: Container) -> Compared
    ensures { result ≡ spec.all_there (value_in heap.now.objects (source_is.Items list)) (elements.values_of heap.now.objects container) }
{
    for at in 0..value_count(heap, container) {
        let Some(value) = value_at(heap, container, at) else {
            unreachable!()
        };
        match value_in(heap, Source::Items(list), value) {
            Compared::Same => {}
            Compared::Other => return Compared::Other,
            Compared::Deep => return Compared::Deep,
            Compared::Large => return Compared::Large,
        }
    }
    Compared::Same
}

// Whether the entries that a view shows are all items of a list.
fn entries_in(heap: &Heap, list: u32, container: Container) -> Compared
    ensures { result ≡ spec.all_there (entry_in heap.now.objects (source_is.Items list) (elements.map_shown container)) (elements.entry_keys_of heap.now.objects container) }
{
    let map = map_shown(container);
    for at in 0..entry_count(heap, container) {
        let Some(key) = entry_key_at(heap, container, at) else {
            unreachable!()
        };
        match entry_in(heap, Source::Items(list), map, key) {
            Compared::Same => {}
            Compared::Other => return Compared::Other,
            Compared::Deep => return Compared::Deep,
            Compared::Large => return Compared::Large,
        }
    }
    Compared::Same
}

fn all_in(heap: &Heap, list: u32, container: Container) -> Compared
    ensures { result ≡ spec.all_in heap.now.objects list container }
{
    match values_in(heap, list, container) {
        Compared::Same => entries_in(heap, list, container),
        Compared::Other => Compared::Other,
        Compared::Deep => Compared::Deep,
        Compared::Large => Compared::Large,
    }
}

fn all_held(heap: &Heap, list: u32, container: Container) -> Outcome
    ensures { Tells (spec.all_held heap.now.objects list container) result }
{
    match all_in(heap, list, container) {
        Compared::Same => Outcome::Gives(Value::Bool(true)),
        Compared::Other => Outcome::Gives(Value::Bool(false)),
        Compared::Deep => too_deep(heap),
        Compared::Large => too_large(heap),
    }
}

fn contains_all_of(heap: &Heap, source: Option<Container>, list: u32) -> Outcome
    ensures { Tells (spec.contains_all_of heap.now.objects source list) result }
{
    match source {
        Some(container) => all_held(heap, list, container),
        None => null_error(),
    }
}

fn choose(heap: &Heap, bulk: Bulk, source: Source, item: &Value) -> Choice
    ensures { result ≡ spec.choose heap.now.objects bulk source item.now }
{
    choice_of(bulk, value_in(heap, source, item))
}

fn keep_item(left: &mut Elements<Value>, item: &Value) -> Result<(), SiftErr>
    ensures { spec.SiftsOne choice.Stays item.now left.old left.new result }
{
    let Ok(item) = item.share() else {
        return Err(SiftErr::NoMemory);
    };
    match left.push(item) {
        Ok(()) => Ok(()),
        Err(_) => Err(SiftErr::NoMemory),
    }
}

// Puts an item behind those that stay, if it stays.
fn sift_one(
    heap: &Heap,
    bulk: Bulk,
    source: Source,
    item: &Value,
    left: &mut Elements<Value>,
) -> Result<(), SiftErr>
    ensures { spec.SiftsOne (spec.choose heap.now.objects bulk source item.now) item.now left.old left.new result }
{
    match choose(heap, bulk, source, item) {
        Choice::Stays => keep_item(left, item),
        Choice::Goes => Ok(()),
        Choice::Deep => Err(SiftErr::Deep),
        Choice::Large => Err(SiftErr::Large),
    }
}

// The items that stay.
fn sift(
    heap: &Heap,
    bulk: Bulk,
    source: Source,
    items: &[Value],
) -> Result<Elements<Value>, SiftErr>
    ensures { spec.Sifts (spec.sift (spec.choose heap.now.objects bulk source) items.now) result }
{
    let mut left = Elements::new(heap.alloc());
    for at in 0..items.len() {
        let Some(item) = item_at(items, at) else {
            unreachable!()
        };
        match sift_one(heap, bulk, source, item, &mut left) {
            Ok(()) => {}
            Err(cause) => return Err(cause),
        }
    }
    Ok(left)
}

// Each item that goes is a change.
fn changes_after(changes: u64, before: usize, left: usize) -> u64
    ensures { result ≡ changed_by changes (before - left) }
{
    changes.wrapping_add(before.saturating_sub(left) as u64)
}

fn list_left(id: u32, class: u32, changes: u64, before: usize, left: Elements<Value>) -> Outcome
    ensures { result ≡ spec.list_left id class changes before (spec.Left left) }
{
    let count = left.len();
    let object = Object::List {
        class,
        items: left,
        guard: Guard::Open,
        changes: changes_after(changes, before, count),
    };
    Outcome::Becomes(id, object, Value::Bool(count < before))
}

#[tactic(auto, using(crate::proofs::Sifting::list_needs))]
fn list_sifted(
    heap: &Heap,
    id: u32,
    class: u32,
    changes: u64,
    items: &[Value],
    bulk: Bulk,
    source: Source,
) -> Outcome
    ensures { Tells (spec.list_left id class changes (length items.now) (spec.sift (spec.choose heap.now.objects bulk source) items.now)) result }
{
    match sift(heap, bulk, source, items) {
        Ok(left) => list_left(id, class, changes, items.len(), left),
        Err(SiftErr::Deep) => too_deep(heap),
        Err(SiftErr::Large) => too_large(heap),
        Err(SiftErr::NoMemory) => Outcome::NoMemory,
    }
}

fn object_sifted(heap: &Heap, id: u32, object: &Object, bulk: Bulk, source: Source) -> Outcome
    ensures { Tells (spec.sifted_in heap.now.objects bulk source id (Some object.now)) result }
{
    match object {
        Object::List {
            class,
            items,
            changes,
            ..
        } => list_sifted(heap, id, *class, *changes, items.as_slice(), bulk, source),
        _ => Outcome::Gives(Value::Bool(false)),
    }
}

fn sifted_by(heap: &Heap, bulk: Bulk, list: u32, source: Source) -> Outcome
    ensures { Tells (spec.sifted_by heap.now.objects bulk list source) result }
{
    match heap.get(list) {
        Some(object) => object_sifted(heap, list, object, bulk, source),
        None => Outcome::Gives(Value::Bool(false)),
    }
}

fn sifted_of(bulk: Bulk, heap: &Heap, source: Option<Source>, list: u32) -> Outcome
    ensures { Tells (spec.sifted_of bulk heap.now.objects source list) result }
{
    if !is_open(heap, list) {
        return unsupported();
    }
    match source {
        Some(source) => sifted_by(heap, bulk, list, source),
        None => null_error(),
    }
}

/// `containsAll(Collection)`.
pub fn contains_all(heap: &Heap, args: &[Value]) -> Outcome
    ensures { Tells (spec.contains_all heap.now.objects args.now) result }
{
    match list_at(heap, args, 0) {
        Some(list) => contains_all_of(heap, collection_at(heap, args, 1), list),
        None => null_error(),
    }
}

/// `removeAll(Collection)` and `retainAll(Collection)`.
pub fn sift_all(bulk: Bulk, heap: &Heap, args: &[Value]) -> Outcome
    ensures { Tells (spec.sift_all bulk heap.now.objects args.now) result }
{
    match list_at(heap, args, 0) {
        Some(list) => sifted_of(bulk, heap, source_at(heap, args, 1), list),
        None => null_error(),
    }
}
