//! What a loop over elements does: an iterator over what has elements, whether it has one left, and the next one.
ghost use Rattle.std.specs.Prelude.{◌≡◌, Some, length, slice_get};
ghost use Rattle.object_values.specs.declared.value.Value.{Value as declared};
ghost use Rattle.object_values.specs.declared.object.Object.TheVariants as o;
ghost use Rattle.object_heap.specs.Effects.{Answers};
ghost use Rattle.object_heap.specs.Fits.{Rules, Fits, AnswerFits};
ghost use Rattle.container_parts.specs.Containers.{container_of, element_at};
ghost use Rattle.container_parts.specs.Iterators as iterators;
ghost use Rattle.container_parts.specs.Iterators.{iterator_of};
ghost use Rattle.container_parts.specs.declared.elements.Element.TheVariants as element;
ghost use Rattle.container_values.specs.Elements.{values_of};
ghost use Rattle.container_ops.specs.Loops as spec;
ghost use Rattle.container_ops.specs.Types.{Spares};

use crate::errors::{on_null, on_other_kind};
use container_outcomes::shared;
use container_parts::{
    Container, Cursor, changes_now, container_of, count_of, element_at, has_next, iterate,
    iterator_of,
};
use container_values::value_at;
use object_heap::{Answer, Heap, throw};
use object_values::{Object, Value};
use pl_types::classes::{CONCURRENT_MODIFICATION_EXCEPTION, NO_SUCH_ELEMENT_EXCEPTION};

fn iterated_over(heap: &mut Heap, id: u32) -> Answer
    ensures { Answers (spec.iterated_if heap.old id (container_of heap.old.objects id)) heap.old heap.new result }
{
    match container_of(heap, id) {
        Some(_) => iterate(heap, id),
        None => on_other_kind(heap),
    }
}

#[tactic(auto, unfolding(crate::specs::Loops::iterated))]
fn iterated_at(heap: &mut Heap, over: &Value) -> Answer
    ensures { Answers (spec.iterated heap.old over.now) heap.old heap.new result }
{
    match over {
        Value::Null => on_null(heap),
        Value::Ref(id) => iterated_over(heap, *id),
        _ => on_other_kind(heap),
    }
}

/// A new iterator over an array, a list, a set or a view, before its first element. It costs 1.
///
/// `Thrown`: NullPointerException of null, ClassCastException of what has no elements. `Room`: there is none for the iterator or the
/// exception. `NoMemory`: there was none for it.
pub fn iterated(heap: &mut Heap, over: &Value) -> Answer
    ensures does { Answers (spec.iterated heap.old over.now) heap.old heap.new result }
    ensures keeps { (rules : Rules) → Fits rules heap.old.objects → AnswerFits rules heap.new result }
{
    iterated_at(heap, over)
}

fn has_more_of(heap: &mut Heap, id: u32) -> Answer
    ensures does { Answers (spec.has_more_if heap.old (iterator_of heap.old.objects id)) heap.old heap.new result }
    ensures memory { Spares heap.old (spec.has_more_if heap.old (iterator_of heap.old.objects id)) result }
{
    match iterator_of(heap, id) {
        Some(_) => {
            let is_before_end = has_next(heap, id);
            Answer::Value(Value::Bool(is_before_end))
        }
        None => on_other_kind(heap),
    }
}

#[tactic(auto, unfolding(crate::specs::Loops::has_more))]
fn has_more_at(heap: &mut Heap, iterator: &Value) -> Answer
    ensures does { Answers (spec.has_more heap.old iterator.now) heap.old heap.new result }
    ensures memory { Spares heap.old (spec.has_more heap.old iterator.now) result }
{
    match iterator {
        Value::Null => on_null(heap),
        Value::Ref(id) => has_more_of(heap, *id),
        _ => on_other_kind(heap),
    }
}

/// Whether an iterator has an element left.
///
/// `Thrown`: NullPointerException of null, ClassCastException of what is no iterator. `Room`: there is none for the exception.
/// `NoMemory`: there was none for it.
pub fn has_more(heap: &mut Heap, iterator: &Value) -> Answer
    ensures does { Answers (spec.has_more heap.old iterator.now) heap.old heap.new result }
    ensures memory { Spares heap.old (spec.has_more heap.old iterator.now) result }
    ensures keeps { (rules : Rules) → Fits rules heap.old.objects → AnswerFits rules heap.new result }
{
    has_more_at(heap, iterator)
}

// Renews an iterator, which is free.
fn place_at(heap: &mut Heap, id: u32, over: u32, cursor: u64, seen: u64, last: Option<u64>)
    ensures { heap.new ≡ iterators.with_iterator heap.old id (o.Iter over cursor seen last) }
{
    let _renewed = heap.renew(
        id,
        Object::Iter {
            over,
            cursor,
            seen,
            last,
        },
    );
}

// The iterator behind the element that it gives.
fn move_on(heap: &mut Heap, id: u32, it: Cursor)
    ensures { heap.new ≡ iterators.with_iterator heap.old id (iterators.moved it) }
{
    place_at(
        heap,
        id,
        it.over,
        it.cursor.wrapping_add(1),
        it.seen,
        Some(it.cursor),
    );
}

// An element that is made, or none.
fn give_made(heap: &mut Heap, id: u32, it: Cursor, over: Container) -> Answer
    ensures { Answers (iterators.given heap.old id it (element_at heap.old.objects over it.cursor)) heap.old heap.new result }
{
    match element_at(heap, over, it.cursor as usize) {
        Ok(Some(element)) => element.give(heap, id, it),
        Ok(None) => throw(heap, CONCURRENT_MODIFICATION_EXCEPTION, None),
        Err(_) => Answer::NoMemory,
    }
}

// A copy of the element at a place, if it is a value already; none within, where there is no memory for it.
fn value_copied(heap: &Heap, over: Container, at: usize) -> Option<Option<Value>>
    ensures { spec.CopiedAt (slice_get (values_of heap.now.objects over) at) result }
{
    match value_at(heap, over, at) {
        Some(value) => Some(shared(value)),
        None => None,
    }
}

fn give_copy(heap: &mut Heap, id: u32, it: Cursor, copy: Option<Value>) -> Answer
    ensures does { (value : declared) → spec.Copies value copy → Answers (iterators.given heap.old id it (Some (element.There value))) heap.old heap.new result }
    ensures memory { (value : declared) → spec.Copies value copy → Spares heap.old (iterators.given heap.old id it (Some (element.There value))) result }
{
    match copy {
        Some(value) => {
            move_on(heap, id, it);
            Answer::Value(value)
        }
        None => Answer::NoMemory,
    }
}

fn give(heap: &mut Heap, id: u32, it: Cursor, over: Container) -> Answer
    ensures does { Answers (iterators.given heap.old id it (element_at heap.old.objects over it.cursor)) heap.old heap.new result }
    ensures memory { Spares heap.old (iterators.given heap.old id it (element_at heap.old.objects over it.cursor)) result }
{
    match value_copied(heap, over, it.cursor as usize) {
        Some(copy) => give_copy(heap, id, it, copy),
        None => give_made(heap, id, it, over),
    }
}

fn next_in(heap: &mut Heap, id: u32, it: Cursor, over: Container) -> Answer
    ensures does { Answers (iterators.next_over heap.old id it (Some over)) heap.old heap.new result }
    ensures memory { Spares heap.old (iterators.next_over heap.old id it (Some over)) result }
{
    if it.cursor == count_of(heap, over) as u64 {
        throw(heap, NO_SUCH_ELEMENT_EXCEPTION, None)
    } else if it.seen == changes_now(heap, over) {
        give(heap, id, it, over)
    } else {
        throw(heap, CONCURRENT_MODIFICATION_EXCEPTION, None)
    }
}

// Of an iterator over what has no elements.
fn next_of_none(heap: &mut Heap, id: u32, it: Cursor) -> Answer
    ensures does { Answers (iterators.next_over heap.old id it None) heap.old heap.new result }
    ensures memory { Spares heap.old (iterators.next_over heap.old id it None) result }
{
    if it.cursor == 0 {
        throw(heap, NO_SUCH_ELEMENT_EXCEPTION, None)
    } else {
        throw(heap, CONCURRENT_MODIFICATION_EXCEPTION, None)
    }
}

fn next_over(heap: &mut Heap, id: u32, it: Cursor) -> Answer
    ensures does { Answers (iterators.next_over heap.old id it (container_of heap.old.objects it.over)) heap.old heap.new result }
    ensures memory { Spares heap.old (iterators.next_over heap.old id it (container_of heap.old.objects it.over)) result }
{
    match container_of(heap, it.over) {
        Some(over) => next_in(heap, id, it, over),
        None => next_of_none(heap, id, it),
    }
}

fn next_of(heap: &mut Heap, id: u32) -> Answer
    ensures does { Answers (spec.next_if heap.old id (iterator_of heap.old.objects id)) heap.old heap.new result }
    ensures memory { Spares heap.old (spec.next_if heap.old id (iterator_of heap.old.objects id)) result }
{
    match iterator_of(heap, id) {
        Some(it) => next_over(heap, id, it),
        None => on_other_kind(heap),
    }
}

#[tactic(auto, unfolding(crate::specs::Loops::next_element))]
fn next_element_at(heap: &mut Heap, iterator: &Value) -> Answer
    ensures does { Answers (spec.next_element heap.old iterator.now) heap.old heap.new result }
    ensures memory { Spares heap.old (spec.next_element heap.old iterator.now) result }
{
    match iterator {
        Value::Null => on_null(heap),
        Value::Ref(id) => next_of(heap, *id),
        _ => on_other_kind(heap),
    }
}

/// The next element of an iterator, which moves on. An entry of a view is made, which costs its weight, 3; for all else it takes memory
/// for the copy of a text alone.
///
/// `Thrown`: NullPointerException of null, ClassCastException of what is no iterator; NoSuchElementException at the end;
/// ConcurrentModificationException where something else has changed what it stands over, or the next place is past the end. `Room`:
/// there is none for an entry or an exception. `NoMemory`: there was none for an entry, an exception or the copy of a text.
pub fn next_element(heap: &mut Heap, iterator: &Value) -> Answer
    ensures does { Answers (spec.next_element heap.old iterator.now) heap.old heap.new result }
    ensures memory { Spares heap.old (spec.next_element heap.old iterator.now) result }
    ensures keeps { (rules : Rules) → Fits rules heap.old.objects → AnswerFits rules heap.new result }
{
    next_element_at(heap, iterator)
}
