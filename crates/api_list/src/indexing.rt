//! Indexes in brackets, of lists and of arrays.
ghost use Rattle.std.specs.Prelude.{◌≡◌, Some, length, slice_get};
ghost use Rattle.member_arguments.specs.Arguments.{object_at};
ghost use Rattle.object_heap.specs.Effects.{Answers};
ghost use Rattle.object_heap.specs.Fits.{Rules, Fits, AllFit, AnswerFits};
ghost use Rattle.container_outcomes.specs.declared.outcome.Outcome.{Outcome};
ghost use Rattle.container_outcomes.specs.Outcomes.{Tells, WantsMemory, effect};
ghost use Rattle.api_list.specs.Lists as lists;
ghost use Rattle.api_list.specs.Indexing as spec;

use container_outcomes::{
    Outcome, array_index_error, given, index_error, is_open, null_error, shared, unsupported,
};
use member_arguments::{int_at, object_at, value_at};
use object_heap::{Answer, Heap};
use object_values::{Object, Value};

// The place of an index among so many items, a negative one being counted from the end; or the index that is out of range, as it was
// counted.
fn place_at(count: usize, at: i32) -> Result<usize, i32>
    ensures { spec.Places (spec.counted count at) (lists.place_of count (spec.counted count at)) result }
{
    if at >= 0 {
        let place = at as usize;
        return if place < count { Ok(place) } else { Err(at) };
    }
    let back = (-(at + 1)) as usize;
    if back < count {
        Ok(count - 1 - back)
    } else {
        Err(at + count as i32)
    }
}

fn item_read(heap: &Heap, id: u32, place: usize) -> Outcome
    ensures { Tells (spec.item_read heap.now.objects id place) result }
{
    match value_at(heap.items(id), place) {
        Some(item) => given(item),
        None => Outcome::Gives(Value::Null),
    }
}

fn read_list(heap: &Heap, list: u32, at: i32) -> Outcome
    ensures { Tells (spec.read_list heap.now.objects list at) result }
{
    let count = heap.items(list).len();
    match place_at(count, at) {
        Ok(place) => item_read(heap, list, place),
        Err(index) => index_error(heap, index, count),
    }
}

fn read_array(heap: &Heap, array: u32, at: i32) -> Outcome
    ensures { Tells (spec.read_array heap.now.objects array at) result }
{
    let count = heap.items(array).len();
    match place_at(count, at) {
        Ok(place) => item_read(heap, array, place),
        Err(index) => array_index_error(heap, index, count),
    }
}

fn item_written(id: u32, place: usize, item: &Value) -> Outcome
    ensures { Tells (spec.item_written id item.now place) result }
{
    match shared(item) {
        Some(item) => Outcome::Sets(id, place, item),
        None => Outcome::NoMemory,
    }
}

fn write_list(heap: &Heap, list: u32, at: i32, item: &Value) -> Outcome
    ensures { Tells (spec.write_list heap.now.objects list at item.now) result }
{
    if !is_open(heap, list) {
        return unsupported();
    }
    let count = heap.items(list).len();
    match place_at(count, at) {
        Ok(place) => item_written(list, place, item),
        Err(index) => index_error(heap, index, count),
    }
}

fn write_array(heap: &Heap, array: u32, at: i32, item: &Value) -> Outcome
    ensures { Tells (spec.write_array heap.now.objects array at item.now) result }
{
    let count = heap.items(array).len();
    match place_at(count, at) {
        Ok(place) => item_written(array, place, item),
        Err(index) => array_index_error(heap, index, count),
    }
}

fn read_in(heap: &Heap, id: u32, at: i32, object: &Object) -> Outcome
    ensures { Tells (spec.read_in heap.now.objects id at (Some object.now)) result }
{
    match object {
        Object::List { .. } => read_list(heap, id, at),
        Object::Array { .. } => read_array(heap, id, at),
        _ => null_error(),
    }
}

fn read_of(heap: &Heap, id: u32, at: i32) -> Outcome
    ensures { Tells (spec.read_of heap.now.objects id at) result }
{
    match heap.get(id) {
        Some(object) => read_in(heap, id, at, object),
        None => null_error(),
    }
}

fn write_in(heap: &Heap, id: u32, at: i32, item: &Value, object: &Object) -> Outcome
    ensures { Tells (spec.write_in heap.now.objects id at item.now (Some object.now)) result }
{
    match object {
        Object::List { .. } => write_list(heap, id, at, item),
        Object::Array { .. } => write_array(heap, id, at, item),
        _ => null_error(),
    }
}

fn write_of(heap: &Heap, id: u32, at: i32, item: &Value) -> Outcome
    ensures { Tells (spec.write_of heap.now.objects id at item.now) result }
{
    match heap.get(id) {
        Some(object) => write_in(heap, id, at, item, object),
        None => null_error(),
    }
}

fn read(heap: &Heap, args: &[Value]) -> Outcome
    ensures { Tells (spec.read_index heap.now.objects args.now) result }
{
    match (object_at(args, 0), int_at(args, 1)) {
        (Some(id), Some(at)) => read_of(heap, id, at),
        _ => null_error(),
    }
}

fn write(heap: &Heap, args: &[Value]) -> Outcome
    ensures { Tells (spec.write_index heap.now.objects args.now) result }
{
    match (object_at(args, 0), int_at(args, 1), value_at(args, 2)) {
        (Some(id), Some(at), Some(item)) => write_of(heap, id, at, item),
        _ => null_error(),
    }
}

/// What stands at an index in brackets of a list or an array, which are the arguments: `c[i]`. A negative index counts from the end.
/// An argument that is missing or of another kind counts as null.
///
/// `Thrown`: NullPointerException of null; of a place that is out of range IndexOutOfBoundsException of a list, and
/// ArrayIndexOutOfBoundsException of an array, with the index as it was counted. `Room`: there is none for the exception.
/// `NoMemory`: there was none for it, or for a text.
pub fn read_index(heap: &mut Heap, args: &[Value]) -> Answer
    ensures does { Answers (effect heap.old (spec.read_index heap.old.objects args.now)) heap.old heap.new result }
    ensures memory { WantsMemory (spec.read_index heap.old.objects args.now) result }
    ensures keeps { (rules : Rules) → Fits rules heap.old.objects → AllFit (length heap.old.objects) args.now → AnswerFits rules heap.new result }
{
    let told = read(heap, args);
    told.settle(heap)
}

/// Writes an item at an index in brackets of a list or an array: `c[i] = v`, whose parts are the arguments. A negative index counts
/// from the end. The item that stood there is answered. An argument that is missing or of another kind counts as null.
///
/// `Thrown`: as for `read_index`, and before that UnsupportedOperationException of a frozen list. `Room`: there is none for the
/// exception. `NoMemory`: there was none for it, or for a text.
pub fn write_index(heap: &mut Heap, args: &[Value]) -> Answer
    ensures does { Answers (effect heap.old (spec.write_index heap.old.objects args.now)) heap.old heap.new result }
    ensures memory { WantsMemory (spec.write_index heap.old.objects args.now) result }
    ensures keeps { (rules : Rules) → Fits rules heap.old.objects → AllFit (length heap.old.objects) args.now → spec.ItemTaken rules heap.old.objects (object_at args.now 0) (slice_get args.now 2) → AnswerFits rules heap.new result }
{
    let told = write(heap, args);
    told.settle(heap)
}
