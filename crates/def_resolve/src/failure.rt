//! What is thrown where nothing is found. Each call throws a new exception of the heap, which is paid for as any object: `Room` where
//! its charge is above the room left, and `NoMemory` where there was none for its message.

ghost use Rattle.std.specs.Prelude.{◌≡◌, Some, slice_get};
ghost use Rattle.pl_units.specs.Utf16.{units};
ghost use Rattle.object_heap.specs.Effects.{Answers, throws};
ghost use Rattle.def_resolve.specs.Failures as spec;
ghost use Rattle.def_resolve.specs.Failures.{fails};

use crate::access::Purpose;
use crate::message::{accessor_message, beyond_message, method_message};
use object_heap::{Answer, Heap, throw};
use object_values::{Object, Value};
use pl_types::classes::{
    ILLEGAL_ARGUMENT_EXCEPTION, ILLEGAL_STATE_EXCEPTION, INDEX_OUT_OF_BOUNDS_EXCEPTION,
    NULL_POINTER_EXCEPTION,
};
use pl_units::UText;

const NOT_INDEXED: &str = "not a list, map or array";

/// Throws an exception with a message.
fn throw_text(heap: &mut Heap, class: u32, message: &str) -> Answer
    ensures { Answers (throws heap.old class (Some (units message.now))) heap.old heap.new result }
{
    match UText::from_utf8(heap.alloc(), message) {
        Ok(message) => throw(heap, class, Some(message)),
        Err(_) => Answer::NoMemory,
    }
}

fn throw_null(heap: &mut Heap) -> Answer
    ensures { Answers (fails heap.old spec.null_failure) heap.old heap.new result }
{
    throw(heap, NULL_POINTER_EXCEPTION, None)
}

fn throw_argument(heap: &mut Heap, message: &str) -> Answer
    ensures { Answers (fails heap.old (spec.argument_failure message.now)) heap.old heap.new result }
{
    throw_text(heap, ILLEGAL_ARGUMENT_EXCEPTION, message)
}

/// Throws what a call on a value comes to for which [`resolve`](crate::resolve) has nothing, or which has no class: of null a
/// NullPointerException, else an IllegalArgumentException `dynamic method [C, name/arity] not found`, C being the class in full.
#[tactic(auto, unfolding(crate::specs::Failures::no_method))]
pub fn throw_no_method(heap: &mut Heap, receiver: &Value, name: &str, arity: u32) -> Answer
    ensures { Answers (fails heap.old (spec.no_method heap.old.objects receiver.now name.now arity)) heap.old heap.new result }
{
    match receiver {
        Value::Null => throw_null(heap),
        _ => match method_message(heap, receiver, name, arity) {
            Ok(message) => throw_argument(heap, message.as_str()),
            Err(_) => Answer::NoMemory,
        },
    }
}

/// Throws what an access by name comes to for which [`name_access`](crate::name_access) has nothing: of null a
/// NullPointerException, else an IllegalArgumentException `dynamic getter [C, name] not found`, or `setter`.
#[tactic(auto, unfolding(crate::specs::Failures::no_accessor))]
pub fn throw_no_accessor(heap: &mut Heap, receiver: &Value, name: &str, purpose: Purpose) -> Answer
    ensures { Answers (fails heap.old (spec.no_accessor purpose heap.old.objects receiver.now name.now)) heap.old heap.new result }
{
    match receiver {
        Value::Null => throw_null(heap),
        _ => match accessor_message(heap, receiver, name, purpose) {
            Ok(message) => throw_argument(heap, message.as_str()),
            Err(_) => Answer::NoMemory,
        },
    }
}

/// What an index of a list or a map comes to whose member the list of what is allowed leaves out.
fn throw_no_item(heap: &mut Heap, receiver: &Value, purpose: Purpose) -> Answer
    ensures { Answers (fails heap.old (spec.no_item purpose heap.old.objects receiver.now)) heap.old heap.new result }
{
    match purpose {
        Purpose::Read => throw_no_method(heap, receiver, "get", 1),
        Purpose::Write => throw_no_method(heap, receiver, "set", 2),
    }
}

fn throw_no_key(heap: &mut Heap, receiver: &Value, purpose: Purpose) -> Answer
    ensures { Answers (fails heap.old (spec.no_key purpose heap.old.objects receiver.now)) heap.old heap.new result }
{
    match purpose {
        Purpose::Read => throw_no_method(heap, receiver, "get", 1),
        Purpose::Write => throw_no_method(heap, receiver, "put", 2),
    }
}

/// What kinds of values have indices.
#[derive(Clone, Copy)]
enum Indexed {
    List,
    Map,
    Neither,
}

fn indexed_as(heap: &Heap, id: u32) -> Indexed
    ensures { result ≡ spec.indexed_as (slice_get heap.now.objects id) }
{
    match heap.get(id) {
        Some(Object::List { .. }) => Indexed::List,
        Some(Object::Map { .. }) => Indexed::Map,
        _ => Indexed::Neither,
    }
}

/// Throws what an index in brackets comes to for which [`index_access`](crate::index_access) has nothing: of null a
/// NullPointerException; of a list and a map, whose `get`, `set` or `put` is not allowed, what a call of that member throws; and of
/// every other value an IllegalArgumentException `not a list, map or array`.
#[tactic(auto, unfolding(crate::specs::Failures::no_index))]
pub fn throw_no_index(heap: &mut Heap, receiver: &Value, purpose: Purpose) -> Answer
    ensures { Answers (fails heap.old (spec.no_index purpose heap.old.objects receiver.now)) heap.old heap.new result }
{
    match receiver {
        Value::Null => throw_null(heap),
        Value::Ref(id) => match indexed_as(heap, *id) {
            Indexed::List => throw_no_item(heap, receiver, purpose),
            Indexed::Map => throw_no_key(heap, receiver, purpose),
            Indexed::Neither => throw_argument(heap, NOT_INDEXED),
        },
        _ => throw_argument(heap, NOT_INDEXED),
    }
}

/// Throws what a place of a list comes to that no int reaches, by the name behind the dot that it is: an
/// IndexOutOfBoundsException `Index i out of bounds for length n`.
#[tactic(auto, unfolding(crate::specs::Failures::beyond_list))]
pub fn throw_beyond(heap: &mut Heap, id: u32, name: &str) -> Answer
    ensures { Answers (fails heap.old (spec.beyond_list heap.old.objects id name.now)) heap.old heap.new result }
{
    match beyond_message(heap, id, name) {
        Ok(message) => throw_text(heap, INDEX_OUT_OF_BOUNDS_EXCEPTION, message.as_str()),
        Err(_) => Answer::NoMemory,
    }
}

/// Throws what comes of a function value that [`fits`](crate::fits) refuses: an IllegalArgumentException `function does not fit`.
#[tactic(auto, unfolding(crate::specs::Failures::does_not_fit))]
pub fn throw_unfit(heap: &mut Heap) -> Answer
    ensures { Answers (fails heap.old spec.does_not_fit) heap.old heap.new result }
{
    throw_argument(heap, "function does not fit")
}

/// Throws what a call of a function value comes to whose script has ended: an IllegalStateException `function is gone`.
#[tactic(auto, unfolding(crate::specs::Failures::is_gone))]
pub fn throw_gone(heap: &mut Heap) -> Answer
    ensures { Answers (fails heap.old spec.is_gone) heap.old heap.new result }
{
    throw_text(heap, ILLEGAL_STATE_EXCEPTION, "function is gone")
}
