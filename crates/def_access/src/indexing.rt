//! An index in brackets, of a value whose class is found when the script runs.
ghost use Rattle.std.specs.Prelude.{◌≡◌, [], ◌∷◌, IfOk, Some};
ghost use Rattle.def_access.specs.Access as spec;
ghost use Rattle.def_access.specs.Coming.{ActsAs, Comes};

use crate::accessed::Accessed;
use crate::casting::{index_of, place_in};
use allowlist::Allow;
use container_ops::{element_given, element_written, on_other_kind};
use def_resolve::{IndexAccess, Purpose, index_access, throw_no_index};
use member_calls::is_built;
use number_ops::to_type;
use object_heap::{Answer, Heap};
use object_values::Value;
use pl_types::Ty;
use std::alloc::AllocError;

// ---- reading

fn read_key(heap: &mut Heap, receiver: &Value, index: Value, number: u32) -> Accessed
    ensures { Comes (spec.index_read_by heap.old receiver.now index (Some (IndexAccess.Key number))) heap.old heap.new receiver.now [] result }
{
    if is_built(number) {
        Accessed::CallsWith(number, index)
    } else {
        drop(index);
        Accessed::Acts(throw_no_index(heap, receiver, Purpose::Read))
    }
}

fn read_item(heap: &mut Heap, receiver: &Value, index: &Value, number: u32) -> Accessed
    ensures { Comes (spec.index_read_by heap.old receiver.now index.now (Some (IndexAccess.Item number))) heap.old heap.new receiver.now [] result }
{
    if !is_built(number) {
        return Accessed::Acts(throw_no_index(heap, receiver, Purpose::Read));
    }
    match index_of(heap, index) {
        Ok(at) => Accessed::CallsWith(number, place_in(heap, receiver, at)),
        Err(answer) => Accessed::Acts(answer),
    }
}

fn read_element(heap: &mut Heap, receiver: &Value, index: &Value) -> Accessed
    ensures { Comes (spec.index_read_by heap.old receiver.now index.now (Some IndexAccess.Element)) heap.old heap.new receiver.now [] result }
{
    match index_of(heap, index) {
        Ok(at) => Accessed::Acts(element_given(heap, receiver, at)),
        Err(answer) => Accessed::Acts(answer),
    }
}

/// What an index in brackets comes to, by what [`index_access`] has found for it, which a caller may have kept: `x[i]`.
///
/// `CallsWith`: the member takes the receiver and this argument. `Acts`: what was read or thrown, as [`index_read`] says.
pub fn index_found(
    heap: &mut Heap,
    receiver: &Value,
    index: Value,
    found: Option<IndexAccess>,
) -> Accessed
    ensures { Comes (spec.index_read_by heap.old receiver.now index found) heap.old heap.new receiver.now [] result }
{
    match found {
        Some(IndexAccess::Key(number)) => read_key(heap, receiver, index, number),
        Some(IndexAccess::Item(number)) => read_item(heap, receiver, &index, number),
        Some(IndexAccess::Element) => read_element(heap, receiver, &index),
        None => {
            drop(index);
            Accessed::Acts(throw_no_index(heap, receiver, Purpose::Read))
        }
    }
}

/// What an index in brackets comes to: `x[i]`. Of a map the index is a key, of a list it is cast to int and counted from the front, and
/// of an array the element is read at once.
///
/// `CallsWith`: the member takes the receiver and this argument. `Acts`: what was read or thrown: of null NullPointerException; where
/// nothing is found what [`throw_no_index`] throws; what the cast of the index throws; of an array what [`element_given`] does.
#[tactic(auto, unfolding(crate::specs::Access::index_read))]
pub fn index_read(allow: &Allow, heap: &mut Heap, receiver: &Value, index: Value) -> Accessed
    ensures { Comes (spec.index_read allow.now heap.old receiver.now index) heap.old heap.new receiver.now [] result }
{
    let found = index_access(allow, heap, receiver, Purpose::Read);
    index_found(heap, receiver, index, found)
}

// ---- writing

fn write_key(
    heap: &mut Heap,
    receiver: &Value,
    index: Value,
    value: &Value,
    number: u32,
) -> Accessed
    ensures { Comes (spec.index_written_by heap.old receiver.now index value.now (Some (IndexAccess.Key number))) heap.old heap.new receiver.now (value.now ∷ []) result }
{
    if is_built(number) {
        Accessed::CallsWith(number, index)
    } else {
        drop(index);
        Accessed::Acts(throw_no_index(heap, receiver, Purpose::Write))
    }
}

fn write_item(
    heap: &mut Heap,
    receiver: &Value,
    index: &Value,
    value: &Value,
    number: u32,
) -> Accessed
    ensures { Comes (spec.index_written_by heap.old receiver.now index.now value.now (Some (IndexAccess.Item number))) heap.old heap.new receiver.now (value.now ∷ []) result }
{
    // The value goes to the member as it is.
    let _value = value;
    if !is_built(number) {
        return Accessed::Acts(throw_no_index(heap, receiver, Purpose::Write));
    }
    match index_of(heap, index) {
        Ok(at) => Accessed::CallsWith(number, place_in(heap, receiver, at)),
        Err(answer) => Accessed::Acts(answer),
    }
}

// The element type of an array.
fn own_type(heap: &Heap, array: &Value) -> Result<Option<Ty>, AllocError>
    ensures { IfOk result (λ of. of ≡ spec.own_type heap.now.objects array.now) }
{
    let Value::Ref(id) = array else {
        return Ok(None);
    };
    match heap.elem(*id) {
        Some(elem) => Ok(Some(elem.share(heap.alloc())?)),
        None => Ok(None),
    }
}

fn put_element(heap: &mut Heap, elem: &Ty, array: &Value, value: &Value, at: i32) -> Answer
    ensures { ActsAs (spec.element_put heap.old elem.now array.now at (spec.cast_to heap.old.objects value.now elem.now)) heap.old heap.new result }
{
    match to_type(heap, value, elem, false) {
        Answer::Value(cast) => element_written(heap, elem, array, at, cast),
        Answer::Thrown(id) => Answer::Thrown(id),
        Answer::Room => Answer::Room,
        Answer::NoMemory => Answer::NoMemory,
    }
}

fn write_own(heap: &mut Heap, array: &Value, value: &Value, at: i32) -> Answer
    ensures { ActsAs (spec.own_element_written heap.old array.now value.now at) heap.old heap.new result }
{
    match own_type(heap, array) {
        Ok(Some(elem)) => put_element(heap, &elem, array, value, at),
        Ok(None) => on_other_kind(heap),
        Err(_) => Answer::NoMemory,
    }
}

fn write_element(heap: &mut Heap, receiver: &Value, index: &Value, value: &Value) -> Accessed
    ensures { Comes (spec.index_written_by heap.old receiver.now index.now value.now (Some IndexAccess.Element)) heap.old heap.new receiver.now (value.now ∷ []) result }
{
    match index_of(heap, index) {
        Ok(at) => Accessed::Acts(write_own(heap, receiver, value, at)),
        Err(answer) => Accessed::Acts(answer),
    }
}

/// What a value comes to that is written at an index in brackets, by what [`index_access`] has found for it, which a caller may have
/// kept: `x[i] = v`.
///
/// `CallsWith`: the member takes the receiver, this argument and the value. `Acts`: what was written or thrown, as [`index_written`]
/// says.
pub fn index_put_found(
    heap: &mut Heap,
    receiver: &Value,
    index: Value,
    value: &Value,
    found: Option<IndexAccess>,
) -> Accessed
    ensures { Comes (spec.index_written_by heap.old receiver.now index value.now found) heap.old heap.new receiver.now (value.now ∷ []) result }
{
    match found {
        Some(IndexAccess::Key(number)) => write_key(heap, receiver, index, value, number),
        Some(IndexAccess::Item(number)) => write_item(heap, receiver, &index, value, number),
        Some(IndexAccess::Element) => write_element(heap, receiver, &index, value),
        None => {
            drop(index);
            Accessed::Acts(throw_no_index(heap, receiver, Purpose::Write))
        }
    }
}

/// What a value comes to that is written at an index in brackets: `x[i] = v`. Of a map the index is a key; of a list it is cast to int
/// and counted from the front; of an array it is cast to int, then the value to the element type, and then the element is written.
///
/// `CallsWith`: the member takes the receiver, this argument and the value. `Acts`: the element that stood there, or what was thrown:
/// of null NullPointerException; where nothing is found what [`throw_no_index`] throws; what a cast throws; of an array what
/// [`element_written`] does.
#[tactic(auto, unfolding(crate::specs::Access::index_written))]
pub fn index_written(
    allow: &Allow,
    heap: &mut Heap,
    receiver: &Value,
    index: Value,
    value: &Value,
) -> Accessed
    ensures { Comes (spec.index_written allow.now heap.old receiver.now index value.now) heap.old heap.new receiver.now (value.now ∷ []) result }
{
    let found = index_access(allow, heap, receiver, Purpose::Write);
    index_put_found(heap, receiver, index, value, found)
}
