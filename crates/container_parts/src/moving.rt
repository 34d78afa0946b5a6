//! Iterators that are made and move on, and what they take out.
ghost use Rattle.std.specs.Prelude.{◌≡◌, IfOk, Some};
ghost use Rattle.object_values.specs.declared.object.Object.TheVariants as o;
ghost use Rattle.object_heap.specs.Effects.{Answers};
ghost use Rattle.container_parts.specs.declared.elements.Element.TheVariants as e;
ghost use Rattle.container_parts.specs.declared.containers.Container.TheVariants as container;
ghost use Rattle.container_parts.specs.Iterators as spec;
ghost use Rattle.container_parts.specs.Iterators.{TakesNone};

use crate::containers::{Container, changes_now, container_of, count_of, lets_cut};
use crate::cursors::{Cursor, changes_over, count_over, iterator_of};
use crate::elements::{Element, element_at};
use object_heap::{Answer, Heap, HeapErr, throw};
use object_values::{Object, Value};
use pl_types::classes::{
    CONCURRENT_MODIFICATION_EXCEPTION, ILLEGAL_STATE_EXCEPTION, NO_SUCH_ELEMENT_EXCEPTION,
    NULL_POINTER_EXCEPTION, UNSUPPORTED_OPERATION_EXCEPTION,
};
use pl_units::UText;
use std::alloc::AllocError;

// Renews an iterator, which is free.
fn place_at(heap: &mut Heap, id: u32, over: u32, cursor: u64, seen: u64, last: Option<u64>)
    ensures { heap.new ≡ spec.with_iterator heap.old id (o.Iter over cursor seen last) }
{
    let _renewed = heap.renew(
        id,
        Object::Iter {
            over,
            cursor,
            seen,
            last,
        },
    );
}

fn move_on(heap: &mut Heap, id: u32, it: Cursor)
    ensures { heap.new ≡ spec.with_iterator heap.old id (spec.moved it) }
{
    place_at(
        heap,
        id,
        it.over,
        it.cursor.wrapping_add(1),
        it.seen,
        Some(it.cursor),
    );
}

fn move_back(heap: &mut Heap, id: u32, it: Cursor, at: u64)
    ensures { heap.new ≡ spec.with_iterator heap.old id (spec.moved_back it at) }
{
    place_at(heap, id, it.over, at, it.seen.wrapping_add(1), None);
}

fn fails(heap: &mut Heap, class: u32) -> Answer
    ensures { Answers (spec.fails heap.old class) heap.old heap.new result }
{
    throw(heap, class, None)
}

/// Gives a value that is there, behind which the iterator goes.
pub fn give(heap: &mut Heap, id: u32, it: Cursor, value: Value) -> Answer
    ensures { Answers (spec.given heap.old id it (Some (e.There value))) heap.old heap.new result }
{
    move_on(heap, id, it);
    Answer::Value(value)
}

/// Gives an entry that is made, behind which the iterator goes.
pub fn give_entry(heap: &mut Heap, id: u32, it: Cursor, map: u32, key: Value) -> Answer
    ensures { Answers (spec.given heap.old id it (Some (e.Entry map key))) heap.old heap.new result }
{
    match heap.add(Object::Entry { map, key }) {
        Ok(entry) => {
            move_on(heap, id, it);
            Answer::Value(Value::Ref(entry))
        }
        Err(HeapErr::Room) => Answer::Room,
        Err(HeapErr::NoMemory) => Answer::NoMemory,
    }
}

fn given(heap: &mut Heap, id: u32, it: Cursor, found: Option<Element>) -> Answer
    ensures { Answers (spec.given heap.old id it found) heap.old heap.new result }
{
    match found {
        Some(element) => element.give(heap, id, it),
        None => fails(heap, CONCURRENT_MODIFICATION_EXCEPTION),
    }
}

fn element_over(
    heap: &Heap,
    over: Option<Container>,
    at: u64,
) -> Result<Option<Element>, AllocError>
    ensures { IfOk result (λ found. found ≡ spec.element_over heap.now.objects over at) }
{
    match over {
        Some(container) => element_at(heap, container, at as usize),
        None => Ok(None),
    }
}

fn next_unchanged(heap: &mut Heap, id: u32, it: Cursor, over: Option<Container>) -> Answer
    ensures { Answers (spec.given heap.old id it (spec.element_over heap.old.objects over it.cursor)) heap.old heap.new result }
{
    match element_over(heap, over, it.cursor) {
        Ok(found) => given(heap, id, it, found),
        Err(_) => Answer::NoMemory,
    }
}

fn next_over(heap: &mut Heap, id: u32, it: Cursor, over: Option<Container>) -> Answer
    ensures { Answers (spec.next_over heap.old id it over) heap.old heap.new result }
{
    if it.cursor == count_over(heap, over) {
        fails(heap, NO_SUCH_ELEMENT_EXCEPTION)
    } else if it.seen == changes_over(heap, over) {
        next_unchanged(heap, id, it, over)
    } else {
        fails(heap, CONCURRENT_MODIFICATION_EXCEPTION)
    }
}

fn next_of(heap: &mut Heap, id: u32, it: Cursor) -> Answer
    ensures { Answers (spec.next_of heap.old id (Some it)) heap.old heap.new result }
{
    let over = container_of(heap, it.over);
    next_over(heap, id, it, over)
}

/// The next element of an iterator, which moves on. An entry of a view is made, which costs its weight, 3.
///
/// `Thrown`: NullPointerException where it is no iterator; NoSuchElementException at the end; ConcurrentModificationException
/// where something else has changed what it stands over, or the next place is past the end. `Room`: there is none for an entry or
/// an exception. `NoMemory`: there was none for an entry, an exception or the copy of a text.
pub fn next(heap: &mut Heap, id: u32) -> Answer
    ensures { Answers (spec.next heap.old id) heap.old heap.new result }
{
    match iterator_of(heap, id) {
        Some(it) => next_of(heap, id, it),
        None => fails(heap, NULL_POINTER_EXCEPTION),
    }
}

fn cut_item(heap: &mut Heap, list: u32, at: usize)
    ensures { heap.new ≡ spec.without_element heap.old (container.Items list) at }
{
    match heap.cut(list, at) {
        Some(item) => drop(item),
        None => {}
    }
}

fn cut_pair(heap: &mut Heap, map: u32, at: usize)
    ensures { heap.new ≡ spec.without_element heap.old (container.Keys map) at }
{
    match heap.map_cut_at(map, at) {
        Some(pair) => drop(pair),
        None => {}
    }
}

fn cut_element(heap: &mut Heap, over: Container, at: usize)
    ensures { heap.new ≡ spec.without_element heap.old over at }
{
    match over {
        Container::Items(list) => cut_item(heap, list, at),
        Container::Array(_) => {}
        Container::Keys(set) => cut_pair(heap, set, at),
        Container::Shown(map, _) => cut_pair(heap, map, at),
    }
}

fn take_out(heap: &mut Heap, id: u32, it: Cursor, over: Container, at: u64) -> Answer
    ensures does { Answers (spec.taken_out heap.old id it over at) heap.old heap.new result }
    ensures memory { TakesNone (spec.taken_out heap.old id it over at) result }
{
    cut_element(heap, over, at as usize);
    move_back(heap, id, it, at);
    Answer::Value(Value::Null)
}

#[tactic(auto, unfolding(crate::specs::Iterators::no_element))]
fn no_element(heap: &mut Heap) -> Answer
    ensures { Answers (spec.no_element heap.old) heap.old heap.new result }
{
    match UText::from_utf8(heap.alloc(), "no element") {
        Ok(message) => throw(heap, ILLEGAL_STATE_EXCEPTION, Some(message)),
        Err(_) => Answer::NoMemory,
    }
}

fn take_at(heap: &mut Heap, id: u32, it: Cursor, over: Container, at: u64) -> Answer
    ensures does { Answers (spec.taken_if_there heap.old id it over (Some at)) heap.old heap.new result }
    ensures memory { TakesNone (spec.taken_if_there heap.old id it over (Some at)) result }
{
    if it.seen != changes_now(heap, over) {
        return fails(heap, CONCURRENT_MODIFICATION_EXCEPTION);
    }
    if at < count_of(heap, over) as u64 {
        take_out(heap, id, it, over, at)
    } else {
        fails(heap, CONCURRENT_MODIFICATION_EXCEPTION)
    }
}

fn take_last(heap: &mut Heap, id: u32, it: Cursor, over: Container) -> Answer
    ensures does { Answers (spec.taken_if_there heap.old id it over it.last) heap.old heap.new result }
    ensures memory { TakesNone (spec.taken_if_there heap.old id it over it.last) result }
{
    match it.last {
        Some(at) => take_at(heap, id, it, over, at),
        None => no_element(heap),
    }
}

fn remove_from(heap: &mut Heap, id: u32, it: Cursor, over: Container) -> Answer
    ensures does { Answers (spec.remove_over heap.old id it (Some over)) heap.old heap.new result }
    ensures memory { TakesNone (spec.remove_over heap.old id it (Some over)) result }
{
    if lets_cut(heap, over) {
        take_last(heap, id, it, over)
    } else {
        fails(heap, UNSUPPORTED_OPERATION_EXCEPTION)
    }
}

fn remove_over(heap: &mut Heap, id: u32, it: Cursor) -> Answer
    ensures does { Answers (spec.remove_of heap.old id (Some it)) heap.old heap.new result }
    ensures memory { TakesNone (spec.remove_of heap.old id (Some it)) result }
{
    match container_of(heap, it.over) {
        Some(over) => remove_from(heap, id, it, over),
        None => fails(heap, UNSUPPORTED_OPERATION_EXCEPTION),
    }
}

/// Takes the element that an iterator gave last out of what it stands over, and gives null. That is free, and takes no memory but
/// for an exception.
///
/// `Thrown`: NullPointerException where it is no iterator; UnsupportedOperationException over an array or what is not open;
/// IllegalStateException `no element` where it has given none since the last was taken out; ConcurrentModificationException where
/// something else has changed what it stands over, or the place is past the end. `Room`: there is none for an exception.
pub fn remove(heap: &mut Heap, id: u32) -> Answer
    ensures does { Answers (spec.remove heap.old id) heap.old heap.new result }
    ensures memory { TakesNone (spec.remove heap.old id) result }
{
    match iterator_of(heap, id) {
        Some(it) => remove_over(heap, id, it),
        None => fails(heap, NULL_POINTER_EXCEPTION),
    }
}

fn iterate_over(heap: &mut Heap, id: u32, over: Container) -> Answer
    ensures { Answers (spec.iterate_over heap.old id (Some over)) heap.old heap.new result }
{
    let it = Object::Iter {
        over: id,
        cursor: 0,
        seen: changes_now(heap, over),
        last: None,
    };
    match heap.add(it) {
        Ok(made) => Answer::Value(Value::Ref(made)),
        Err(HeapErr::Room) => Answer::Room,
        Err(HeapErr::NoMemory) => Answer::NoMemory,
    }
}

/// A new iterator over a list, an array, a set or a view, before its first element. It costs 1.
///
/// `Thrown`: NullPointerException where it has no elements. `Room`: there is none for the iterator or the exception. `NoMemory`:
/// there was none for it.
pub fn iterate(heap: &mut Heap, id: u32) -> Answer
    ensures { Answers (spec.iterate heap.old id) heap.old heap.new result }
{
    match container_of(heap, id) {
        Some(over) => iterate_over(heap, id, over),
        None => fails(heap, NULL_POINTER_EXCEPTION),
    }
}
