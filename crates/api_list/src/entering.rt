//! Entries that are made and go into a list, which is paid together.
ghost use Rattle.std.specs.Prelude.{◌≡◌, ◌+◌, ◌-◌, ◌*◌, ◌≤◌, ◌<◌, ◌++◌, true, false, IfOk, OnOk, Some, take, drop};
ghost use Rattle.object_values.specs.declared.value.Value.TheVariants as v;
ghost use Rattle.object_heap.specs.Effects.{Answers, gives_paid};
ghost use Rattle.object_heap.specs.Objects.{renewed_by};
ghost use Rattle.object_heap.specs.Parts.{open_at};
ghost use Rattle.object_heap.specs.Store.{weight, with_change};
ghost use Rattle.container_values.specs.Elements.{entry_references};
ghost use Rattle.api_list.specs.Taking as spec;

use container_outcomes::copied;
use container_parts::Container;
use container_values::{entries, entry_count, entry_references};
use object_heap::{Answer, Heap, HeapErr};
use object_values::{Elements, Guard, Object, Value};
use std::alloc::{AllocError, Global};

fn push_values(all: &mut Elements<Value>, values: &[Value]) -> Result<(), AllocError>
    ensures { OnOk result (all.new ≡ all.old ++ values.now) }
{
    for at in 0..values.len() {
        let value = values[at].share()?;
        all.push(value)?;
    }
    Ok(())
}

#[tactic(auto, using(std::proofs::lemmas::List::take_all))]
fn front_of(items: &[Value], at: usize) -> &[Value]
    ensures { result.now ≡ take at items.now }
{
    if at < items.len() {
        &items[..at]
    } else {
        items
    }
}

#[tactic(auto, using(std::proofs::lemmas::List::drop_all))]
fn back_of(items: &[Value], at: usize) -> &[Value]
    ensures { result.now ≡ drop at items.now }
{
    if at < items.len() { &items[at..] } else { &[] }
}

// Items with further ones inserted from a place on.
fn items_with(
    alloc: Global,
    items: &[Value],
    at: usize,
    more: &[Value],
) -> Result<Elements<Value>, AllocError>
    ensures { IfOk result (λ all. all ≡ take at items.now ++ more.now ++ drop at items.now) }
{
    let mut all = copied(alloc, front_of(items, at))?;
    push_values(&mut all, more)?;
    push_values(&mut all, back_of(items, at))?;
    Ok(all)
}

fn list_with(
    heap: &Heap,
    object: &Object,
    at: usize,
    more: &[Value],
) -> Result<Option<Object>, AllocError>
    ensures { IfOk result (λ found. found ≡ spec.grown at more.now (Some object.now)) }
{
    match object {
        Object::List {
            class,
            items,
            changes,
            ..
        } => {
            let items = items_with(heap.alloc(), items.as_slice(), at, more)?;
            Ok(Some(Object::List {
                class: *class,
                items,
                guard: Guard::Open,
                changes: changes.wrapping_add(more.len() as u64),
            }))
        }
        _ => Ok(None),
    }
}

// The list with references to the entries, if something may change it.
fn list_grown(
    heap: &Heap,
    list: u32,
    at: usize,
    container: Container,
) -> Result<Option<Object>, AllocError>
    ensures { IfOk result (λ found. found ≡ spec.grown at (entry_references heap.now.objects container) (open_at heap.now.objects list)) }
{
    if heap.is_frozen(list) {
        return Ok(None);
    }
    let more = entry_references(heap, container)?;
    match heap.get(list) {
        Some(object) => list_with(heap, object, at, more.as_slice()),
        None => Ok(None),
    }
}

// Whether there is room for entries, which weigh 3 each, and for as many references.
fn has_room(heap: &Heap, count: usize) -> bool
    ensures yes { result ≡ true → 4 * count ≤ heap.now.room }
    ensures no { result ≡ false → heap.now.room < 4 * count }
{
    count as u64 <= heap.room_left() / 4
}

// Renews a list, for which there is room.
fn renewed(heap: &mut Heap, list: u32, object: Object)
    requires { weight (with_change heap.old.objects list (renewed_by object)) - weight heap.old.objects ≤ heap.old.room }
    ensures { heap.new ≡ spec.renewed_freely heap.old list object }
{
    let _renewed = heap.renew(list, object);
}

// Adds entries and renews a list, for which there is room.
fn enter_within(
    heap: &mut Heap,
    list: u32,
    made: Elements<Object>,
    object: Object,
    count: usize,
) -> Answer
    requires made { weight (heap.old.objects ++ made) ≡ weight heap.old.objects + 3 * count }
    requires all { weight (with_change (heap.old.objects ++ made) list (renewed_by object)) ≡ weight heap.old.objects + 4 * count }
    requires room { 4 * count ≤ heap.old.room }
    ensures { Answers (gives_paid heap.old (with_change (heap.old.objects ++ made) list (renewed_by object)) (v.Bool true)) heap.old heap.new result }
{
    match heap.add_all(made) {
        Ok(()) => {
            renewed(heap, list, object);
            Answer::Value(Value::Bool(true))
        }
        Err(HeapErr::Room) => {
            drop(object);
            Answer::Room
        }
        Err(HeapErr::NoMemory) => {
            drop(object);
            Answer::NoMemory
        }
    }
}

// Adds entries and renews a list, where there is room for both.
fn enter_list(
    heap: &mut Heap,
    list: u32,
    made: Elements<Object>,
    object: Object,
    count: usize,
) -> Answer
    requires made { weight (heap.old.objects ++ made) ≡ weight heap.old.objects + 3 * count }
    requires all { weight (with_change (heap.old.objects ++ made) list (renewed_by object)) ≡ weight heap.old.objects + 4 * count }
    ensures { Answers (gives_paid heap.old (with_change (heap.old.objects ++ made) list (renewed_by object)) (v.Bool true)) heap.old heap.new result }
{
    if has_room(heap, count) {
        enter_within(heap, list, made, object, count)
    } else {
        drop(made);
        drop(object);
        Answer::Room
    }
}

// Makes the entries for a list that has grown by them.
fn enter_as(heap: &mut Heap, list: u32, at: usize, container: Container, object: Object) -> Answer
    requires { spec.grown at (entry_references heap.old.objects container) (open_at heap.old.objects list) ≡ Some object }
    ensures { Answers (spec.entered_as heap.old list container (Some object)) heap.old heap.new result }
{
    let count = entry_count(heap, container);
    match entries(heap, container) {
        Ok(made) => enter_list(heap, list, made, object, count),
        Err(_) => {
            drop(object);
            Answer::NoMemory
        }
    }
}

/// Makes the entries that a view shows, and inserts them into a list from a place on. The list is made anew.
pub fn enter(heap: &mut Heap, list: u32, at: usize, container: Container) -> Answer
    ensures { Answers (spec.entered heap.old list at container) heap.old heap.new result }
{
    match list_grown(heap, list, at, container) {
        Ok(Some(object)) => enter_as(heap, list, at, container, object),
        Ok(None) => Answer::Value(Value::Bool(false)),
        Err(_) => Answer::NoMemory,
    }
}
