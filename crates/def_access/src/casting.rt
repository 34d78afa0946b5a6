//! Casts of indexes and of arguments.
ghost use Rattle.std.specs.Prelude.{◌≡◌, slice_get, slice_set};
ghost use Rattle.container_ops.specs.Lists.{count_as_int};
ghost use Rattle.def_access.specs.Access as spec;
ghost use Rattle.def_access.specs.Coming as coming;

use container_ops::on_other_kind;
use number_ops::to_type;
use object_heap::{Answer, Heap};
use object_values::Value;
use pl_types::{Primitive, Ty};

fn int_of(value: &Value) -> Option<i32>
    ensures { result ≡ coming.int_of value.now }
{
    match value {
        Value::Int(at) => Some(*at),
        _ => None,
    }
}

fn int_in(heap: &mut Heap, value: &Value) -> Result<i32, Answer>
    ensures { coming.IntIn value.now heap.old heap.new result }
{
    match int_of(value) {
        Some(at) => Ok(at),
        None => Err(on_other_kind(heap)),
    }
}

/// An index, cast to int; or what comes of it where it is none.
pub fn index_of(heap: &mut Heap, index: &Value) -> Result<i32, Answer>
    ensures { coming.IndexSaid (spec.index_cast heap.old.objects index.now) heap.old heap.new result }
{
    match to_type(heap, index, &Ty::Prim(Primitive::Int), false) {
        Answer::Value(value) => int_in(heap, &value),
        Answer::Thrown(id) => Err(Answer::Thrown(id)),
        Answer::Room => Err(Answer::Room),
        Answer::NoMemory => Err(Answer::NoMemory),
    }
}

// A place as `get` and `set` of lists take it.
fn from_front(count: usize, at: i32) -> i32
    ensures { result ≡ spec.from_front count at }
{
    if at >= 0 {
        return at;
    }
    let back = (-(at + 1)) as usize;
    if back < count {
        count_as_int(count - 1 - back)
    } else {
        at + count as i32
    }
}

fn count_as_int(count: usize) -> i32
    ensures { result ≡ count_as_int count }
{
    if count <= 2_147_483_647 {
        count as i32
    } else {
        2_147_483_647
    }
}

fn size_in(heap: &Heap, receiver: &Value) -> usize
    ensures { result ≡ spec.size_in heap.now.objects receiver.now }
{
    match receiver {
        Value::Ref(id) => heap.size(*id),
        _ => 0,
    }
}

/// The place of an item that an index means.
pub fn place_in(heap: &Heap, receiver: &Value, at: i32) -> Value
    ensures { result ≡ spec.place_in heap.now.objects receiver.now at }
{
    Value::Int(from_front(size_in(heap, receiver), at))
}

// ---- arguments

fn write(values: &mut [Value], at: usize, value: Value)
    ensures { values.new ≡ slice_set values.old at value }
{
    if at < values.len() {
        values[at] = value;
    } else {
        drop(value);
    }
}

// What comes of the cast of a value, if it is there.
fn told_at(heap: &mut Heap, of: &Ty, values: &[Value], at: usize) -> Option<Answer>
    ensures { coming.ToldAt heap.old heap.new of.now (slice_get values.now at) result }
{
    match values.get(at) {
        Some(value) => Some(to_type(heap, value, of, false)),
        None => None,
    }
}

// Puts a cast value in its place; none is answered then.
fn put_cast(values: &mut [Value], at: usize, told: Answer) -> Option<Answer>
    ensures { coming.Puts values.old at told values.new result }
{
    match told {
        Answer::Value(cast) => {
            write(values, at, cast);
            None
        }
        Answer::Thrown(id) => Some(Answer::Thrown(id)),
        Answer::Room => Some(Answer::Room),
        Answer::NoMemory => Some(Answer::NoMemory),
    }
}

// The value at a place, if there is one, cast to a type.
fn cast_at(heap: &mut Heap, of: &Ty, values: &mut [Value], at: usize) -> Option<Answer>
    ensures { coming.CastsAs (spec.cast_there heap.old.objects of.now values.old at (slice_get values.old at) spec.All) heap.old heap.new values.new result }
{
    match told_at(heap, of, values, at) {
        Some(told) => put_cast(values, at, told),
        None => None,
    }
}

/// The values behind the first, each cast to the type of its parameter, from the left. What came of a cast that gives no value is the
/// answer, and none where all were cast.
pub fn cast_all(heap: &mut Heap, params: &[Ty], values: &mut [Value]) -> Option<Answer>
    ensures { coming.CastsAs (spec.casts_from heap.old.objects params.now 1 values.old) heap.old heap.new values.new result }
{
    let mut left = params;
    let mut at = 1;
    'params: while let [of, others @ ..] = left {
        if let Some(answer) = cast_at(heap, of, values, at) {
            return Some(answer);
        }
        left = others;
        at += 1;
    }
    None
}
