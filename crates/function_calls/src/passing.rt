//! Arguments that are passed to parameters whose types are known when the call runs.
ghost use Rattle.std.specs.Prelude.{◌≡◌, ◌≤◌, slice_get};
ghost use Rattle.object_heap.specs.Effects.{Answers};
ghost use Rattle.def_access.specs.Coming.{Puts};
ghost use Rattle.function_calls.specs.Coming.{MeetsAs, PassesAs};
ghost use Rattle.function_calls.specs.Passing as spec;

use crate::taking::{is_loose, take_of};
use crate::texts::Texts;
use allowlist::Allow;
use number_ops::to_type;
use object_heap::{Answer, Heap};
use object_values::{Elements, Value};
use pl_types::Ty;

fn meet_object(
    texts: &Texts,
    allow: &Allow,
    heap: &mut Heap,
    of: &Ty,
    value: &Value,
    id: u32,
) -> Answer
    requires { value.now ≡ Value.Ref id }
    ensures { Answers (spec.object_meets texts.now allow.now heap.old of.now id) heap.old heap.new result }
{
    if is_loose(heap, id) {
        take_of(texts, allow, heap, of, id)
    } else {
        to_type(heap, value, of, false)
    }
}

/// What comes of a value that meets a parameter of a type: it is cast, as in a cast that is not written, and a function value that has
/// taken no interface takes that of the parameter, in its place.
///
/// `Thrown`: what the cast throws; an IllegalArgumentException `function does not fit` where the parameter is of no interface, or of one
/// whose method is called with another number of arguments.
#[tactic(auto, unfolding(crate::specs::Passing::meets))]
pub fn meet(texts: &Texts, allow: &Allow, heap: &mut Heap, of: &Ty, value: &Value) -> Answer
    ensures { Answers (spec.meets texts.now allow.now heap.old of.now value.now) heap.old heap.new result }
{
    match value {
        Value::Ref(id) => meet_object(texts, allow, heap, of, value, *id),
        _ => to_type(heap, value, of, false),
    }
}

// What comes of the value at a place, if there is one.
fn told_at(
    texts: &Texts,
    allow: &Allow,
    heap: &mut Heap,
    of: &Ty,
    values: &[Value],
    at: usize,
) -> Option<Answer>
    ensures { MeetsAs heap.old heap.new (spec.meets texts.now allow.now heap.old of.now) (slice_get values.now at) result }
{
    match values.get(at) {
        Some(value) => Some(meet(texts, allow, heap, of, value)),
        None => None,
    }
}

// Puts a cast value in its place; none is answered then.
fn put_cast(values: &mut Elements<Value>, at: usize, told: Answer) -> Option<Answer>
    ensures { Puts values.old at told values.new result }
{
    match told {
        Answer::Value(cast) => {
            let _before = values.put(at, cast);
            None
        }
        Answer::Thrown(id) => Some(Answer::Thrown(id)),
        Answer::Room => Some(Answer::Room),
        Answer::NoMemory => Some(Answer::NoMemory),
    }
}

/// The value at a place, if there is one, passed to a parameter of a type.
pub(crate) fn pass_at(
    texts: &Texts,
    allow: &Allow,
    heap: &mut Heap,
    of: &Ty,
    values: &mut Elements<Value>,
    at: usize,
) -> Option<Answer>
    ensures { PassesAs texts.now allow.now heap.old (spec.passed_there texts.now allow.now heap.old of.now values.old at (slice_get values.old at) spec.All) heap.new values.new result }
{
    match told_at(texts, allow, heap, of, values.as_slice(), at) {
        Some(told) => put_cast(values, at, told),
        None => None,
    }
}

/// The values from a place on, each passed to a parameter of its type, from the left. What came of one that gives no value is the answer,
/// and none where all were passed.
pub(crate) fn pass_from(
    texts: &Texts,
    allow: &Allow,
    heap: &mut Heap,
    params: &[Ty],
    from: usize,
    values: &mut Elements<Value>,
) -> Option<Answer>
    requires { from ≤ 2 }
    ensures { PassesAs texts.now allow.now heap.old (spec.passed_from texts.now allow.now params.now from heap.old values.old) heap.new values.new result }
{
    let mut left = params;
    let mut at = from;
    'params: while let [of, others @ ..] = left {
        if let Some(answer) = pass_at(texts, allow, heap, of, values, at) {
            return Some(answer);
        }
        left = others;
        at += 1;
    }
    None
}
