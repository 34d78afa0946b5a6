//! Elements of arrays, read and written as of a type, and the lengths of arrays.
ghost use Rattle.std.specs.Prelude.{◌≡◌, Some, length, slice_get};
ghost use Rattle.object_heap.specs.Effects.{Answers};
ghost use Rattle.object_heap.specs.Fits.{Rules, Fits, ValueFits, AnswerFits};
ghost use Rattle.object_values.specs.declared.value.Value.{Value as declared};
ghost use Rattle.container_parts.specs.Iterators.{TakesNone};
ghost use Rattle.container_outcomes.specs.declared.outcome.Outcome.{Outcome};
ghost use Rattle.container_outcomes.specs.declared.outcome.Outcome.TheVariants as declared_outcome;
ghost use Rattle.container_outcomes.specs.Outcomes.{IsGiven, Tells, effect};
ghost use Rattle.container_ops.specs.Elements as spec;
ghost use Rattle.container_ops.specs.Types.{Spares};

use crate::errors::other_kind;
use crate::places::{count_as_int, place_at};
use crate::types::{goes_with, has_type, is_read_as};
use container_outcomes::{Outcome, array_index_error, given, null_error};
use object_heap::{Answer, Heap};
use object_values::{Object, Value};
use pl_types::Ty;

// ---- reading

fn given_as_read(of: &Ty, item: &Value) -> Outcome
    ensures { Tells (spec.given_as_read of.now item.now) result }
{
    if is_read_as(of, item) {
        given(item)
    } else {
        other_kind()
    }
}

fn item_read(of: &Ty, items: &[Value], place: usize) -> Outcome
    ensures { Tells (spec.item_read of.now items.now place) result }
{
    match items.get(place) {
        Some(item) => given_as_read(of, item),
        None => given_as_read(of, &Value::Null),
    }
}

fn read_item(heap: &Heap, of: &Ty, items: &[Value], at: i32) -> Outcome
    ensures { Tells (spec.in_array items.now at (spec.item_read of.now items.now)) result }
{
    match place_at(items.len(), at) {
        Ok(place) => item_read(of, items, place),
        Err(index) => array_index_error(heap, index, items.len()),
    }
}

fn read_in(heap: &Heap, of: &Ty, at: i32, object: &Object) -> Outcome
    ensures { Tells (spec.read_in of.now at (Some object.now)) result }
{
    match object {
        Object::Array { elem, items } => {
            if goes_with(of, elem) {
                read_item(heap, of, items.as_slice(), at)
            } else {
                other_kind()
            }
        }
        _ => other_kind(),
    }
}

fn read_of(heap: &Heap, of: &Ty, id: u32, at: i32) -> Outcome
    ensures { Tells (spec.read_in of.now at (slice_get heap.now.objects id)) result }
{
    match heap.get(id) {
        Some(object) => read_in(heap, of, at, object),
        None => other_kind(),
    }
}

fn read_at(heap: &Heap, of: &Ty, array: &Value, at: i32) -> Outcome
    ensures { Tells (spec.read_at heap.now.objects of.now array.now at) result }
{
    match array {
        Value::Null => null_error(),
        Value::Ref(id) => read_of(heap, of, *id, at),
        _ => other_kind(),
    }
}

/// What stands at an index of an array, which is read as of a type: `a[i]`. A negative index counts from the end. It takes memory for
/// the copy of a text alone.
///
/// `Thrown`: NullPointerException of null; ClassCastException of what is no array, or is an array whose elements are of another type
/// where one of the two types is primitive; ArrayIndexOutOfBoundsException of a place that is out of range, with the index as it was
/// counted. `Room`: there is none for the exception. `NoMemory`: there was none for it, or for a text.
#[tactic(auto, unfolding(crate::specs::Elements::element_read))]
pub fn element_read(heap: &mut Heap, of: &Ty, array: &Value, at: i32) -> Answer
    ensures does { Answers (spec.element_read heap.old of.now array.now at) heap.old heap.new result }
    ensures memory { Spares heap.old (spec.element_read heap.old of.now array.now at) result }
    ensures keeps { (rules : Rules) → Fits rules heap.old.objects → AnswerFits rules heap.new result }
{
    let told = read_at(heap, of, array, at);
    told.settle(heap)
}

fn item_given(items: &[Value], place: usize) -> Outcome
    ensures { Tells (spec.item_given items.now place) result }
{
    match items.get(place) {
        Some(item) => given(item),
        None => Outcome::Gives(Value::Null),
    }
}

fn give_item(heap: &Heap, items: &[Value], at: i32) -> Outcome
    ensures { Tells (spec.in_array items.now at (spec.item_given items.now)) result }
{
    match place_at(items.len(), at) {
        Ok(place) => item_given(items, place),
        Err(index) => array_index_error(heap, index, items.len()),
    }
}

fn give_in(heap: &Heap, at: i32, object: &Object) -> Outcome
    ensures { Tells (spec.given_in at (Some object.now)) result }
{
    match object {
        Object::Array { items, .. } => give_item(heap, items.as_slice(), at),
        _ => other_kind(),
    }
}

fn give_of(heap: &Heap, id: u32, at: i32) -> Outcome
    ensures { Tells (spec.given_in at (slice_get heap.now.objects id)) result }
{
    match heap.get(id) {
        Some(object) => give_in(heap, at, object),
        None => other_kind(),
    }
}

fn give_at(heap: &Heap, array: &Value, at: i32) -> Outcome
    ensures { Tells (spec.given_at heap.now.objects array.now at) result }
{
    match array {
        Value::Null => null_error(),
        Value::Ref(id) => give_of(heap, *id, at),
        _ => other_kind(),
    }
}

/// The same of an array whose type is found when the script runs, whose element is given as it is.
///
/// `Thrown`: NullPointerException of null; ClassCastException of what is no array; ArrayIndexOutOfBoundsException of a place that is
/// out of range. `Room`: there is none for the exception. `NoMemory`: there was none for it, or for a text.
#[tactic(auto, unfolding(crate::specs::Elements::element_given))]
pub fn element_given(heap: &mut Heap, array: &Value, at: i32) -> Answer
    ensures does { Answers (spec.element_given heap.old array.now at) heap.old heap.new result }
    ensures memory { Spares heap.old (spec.element_given heap.old array.now at) result }
    ensures keeps { (rules : Rules) → Fits rules heap.old.objects → AnswerFits rules heap.new result }
{
    let told = give_at(heap, array, at);
    told.settle(heap)
}

// ---- writing

// The object and the place at which an element is written, or what is thrown.
fn place_in(heap: &Heap, id: u32, items: &[Value], at: i32) -> Result<(u32, usize), Outcome>
    ensures { (item : declared) → spec.Lands (spec.in_array items.now at (spec.item_written id item)) item result }
{
    match place_at(items.len(), at) {
        Ok(place) => Ok((id, place)),
        Err(index) => Err(array_index_error(heap, index, items.len())),
    }
}

fn place_if_typed(
    heap: &Heap,
    id: u32,
    elem: &Ty,
    items: &[Value],
    at: i32,
    item: &Value,
) -> Result<(u32, usize), Outcome>
    ensures { spec.Lands (spec.written_if_typed heap.now.objects id elem.now items.now at item.now) item.now result }
{
    if has_type(heap, elem, item) {
        place_in(heap, id, items, at)
    } else {
        Err(other_kind())
    }
}

fn place_in_object(
    heap: &Heap,
    of: &Ty,
    id: u32,
    at: i32,
    item: &Value,
    object: &Object,
) -> Result<(u32, usize), Outcome>
    ensures { spec.Lands (spec.written_in heap.now.objects of.now id at item.now (Some object.now)) item.now result }
{
    match object {
        Object::Array { elem, items } => {
            if goes_with(of, elem) {
                place_if_typed(heap, id, elem, items.as_slice(), at, item)
            } else {
                Err(other_kind())
            }
        }
        _ => Err(other_kind()),
    }
}

fn place_of(heap: &Heap, of: &Ty, id: u32, at: i32, item: &Value) -> Result<(u32, usize), Outcome>
    ensures { spec.Lands (spec.written_in heap.now.objects of.now id at item.now (slice_get heap.now.objects id)) item.now result }
{
    match heap.get(id) {
        Some(object) => place_in_object(heap, of, id, at, item, object),
        None => Err(other_kind()),
    }
}

fn place_written(
    heap: &Heap,
    of: &Ty,
    array: &Value,
    at: i32,
    item: &Value,
) -> Result<(u32, usize), Outcome>
    ensures { spec.Lands (spec.written_at heap.now.objects of.now array.now at item.now) item.now result }
{
    match array {
        Value::Null => Err(null_error()),
        Value::Ref(id) => place_of(heap, of, *id, at, item),
        _ => Err(other_kind()),
    }
}

fn put(heap: &mut Heap, id: u32, place: usize, item: Value) -> Answer
    ensures does { Answers (effect heap.old (declared_outcome.Sets id place item)) heap.old heap.new result }
    ensures memory { IsGiven result }
{
    match heap.put(id, place, item) {
        Some(before) => Answer::Value(before),
        None => Answer::Value(Value::Null),
    }
}

fn refuse(heap: &mut Heap, item: Value, told: Outcome) -> Answer
    ensures { (thrown : Outcome) → Tells thrown told → Answers (effect heap.old thrown) heap.old heap.new result }
{
    drop(item);
    told.settle(heap)
}

#[tactic(auto, unfolding(crate::specs::Elements::element_written))]
fn written(heap: &mut Heap, of: &Ty, array: &Value, at: i32, item: Value) -> Answer
    ensures does { Answers (spec.element_written heap.old of.now array.now at item) heap.old heap.new result }
    ensures memory { TakesNone (spec.element_written heap.old of.now array.now at item) result }
{
    match place_written(heap, of, array, at, &item) {
        Ok((id, place)) => put(heap, id, place, item),
        Err(told) => refuse(heap, item, told),
    }
}

/// Writes an element at an index of an array, which takes values of its element type alone: `a[i] = v`. A negative index counts from
/// the end. The element that stood there is answered. It takes no memory but for an exception.
///
/// `Thrown`: as for `element_read`, and ClassCastException of a value that is not of the element type, before the index is tested.
/// `Room`: there is none for the exception. `NoMemory`: there was none for it.
pub fn element_written(heap: &mut Heap, of: &Ty, array: &Value, at: i32, item: Value) -> Answer
    ensures does { Answers (spec.element_written heap.old of.now array.now at item) heap.old heap.new result }
    ensures memory { TakesNone (spec.element_written heap.old of.now array.now at item) result }
    ensures keeps { (rules : Rules) → Fits rules heap.old.objects → ValueFits (length heap.old.objects) item → AnswerFits rules heap.new result }
{
    written(heap, of, array, at, item)
}

// ---- lengths

fn length_in(object: &Object) -> Outcome
    ensures { result ≡ spec.length_in (Some object.now) }
{
    match object {
        Object::Array { items, .. } => Outcome::Gives(Value::Int(count_as_int(items.len()))),
        _ => other_kind(),
    }
}

fn length_told(heap: &Heap, id: u32) -> Outcome
    ensures { result ≡ spec.length_in (slice_get heap.now.objects id) }
{
    match heap.get(id) {
        Some(object) => length_in(object),
        None => other_kind(),
    }
}

fn length_at(heap: &Heap, value: &Value) -> Outcome
    ensures { Tells (spec.length_told heap.now.objects value.now) result }
{
    match value {
        Value::Null => null_error(),
        Value::Ref(id) => length_told(heap, *id),
        _ => other_kind(),
    }
}

/// How many elements an array has: `a.length`.
///
/// `Thrown`: NullPointerException of null, ClassCastException of what is no array. `Room`: there is none for the exception. `NoMemory`:
/// there was none for it.
#[tactic(auto, unfolding(crate::specs::Elements::length_of))]
pub fn length_of(heap: &mut Heap, value: &Value) -> Answer
    ensures does { Answers (spec.length_of heap.old value.now) heap.old heap.new result }
    ensures memory { Spares heap.old (spec.length_of heap.old value.now) result }
    ensures keeps { (rules : Rules) → Fits rules heap.old.objects → AnswerFits rules heap.new result }
{
    let told = length_at(heap, value);
    told.settle(heap)
}
