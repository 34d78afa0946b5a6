//! What is asked of values whose types are found at run time, and what is thrown.
ghost use Rattle.std.specs.Prelude.{◌≡◌, false, slice_get, true};
ghost use Rattle.pl_types.specs.declared.ty.Ty.{out-Ty};
ghost use Rattle.object_heap.specs.Effects.{Answers};
ghost use Rattle.object_heap.specs.Fits.{has_layer, is_primitive, kinds};
ghost use Rattle.object_heap.specs.Parts.{asked};
ghost use Rattle.number_ops.specs.Outcomes.{effect, null_error, IsAnswered, Tells, WantsMemory};
ghost use Rattle.number_ops.specs.Relations as spec;
ghost use Rattle.number_ops.specs.Operators.{number_in};
ghost use Rattle.number_ops.specs.declared.outcome.Outcome.{Outcome};

use crate::order::equals;
use crate::outcome::{Outcome, Raised};
use crate::values::{is_array, is_null, is_of, number_in};
use object_heap::{Answer, Heap};
use object_values::{Object, Value};
use pl_types::{Primitive, Ty};

/// `==` of two values: two numbers, chars among them, are equal by their values, and all else at every depth.
///
/// `Thrown`: the values are nested too deeply, or too large to walk. `Room`: the charge of that exception is above the room left.
/// `NoMemory`: there was none for it.
pub fn equal(heap: &mut Heap, a: &Value, b: &Value) -> Answer
    ensures exact { Answers (effect heap.old (spec.equal heap.old.objects a.now b.now)) heap.old heap.new result }
    ensures memory { WantsMemory (spec.equal heap.old.objects a.now b.now) result }
{
    equality(heap, a, b).settle(heap)
}

#[tactic(auto, unfolding(crate::specs::Relations::equal))]
fn equality(heap: &Heap, a: &Value, b: &Value) -> Outcome
    ensures { Tells (spec.equal heap.now.objects a.now b.now) result }
{
    match (number_in(a), number_in(b)) {
        (Some(left), Some(right)) => Outcome::Gives(Value::Bool(left.to_long() == right.to_long())),
        (Some(_), None) => equals(heap, a, b),
        (None, _) => equals(heap, a, b),
    }
}

/// Whether two values are one object, or both null.
#[tactic(auto, unfolding(crate::specs::Relations::is_same))]
pub fn is_same(a: &Value, b: &Value) -> bool
    ensures { result ≡ spec.is_same a.now b.now }
{
    match (a, b) {
        (Value::Null, Value::Null) => true,
        (Value::Ref(a), Value::Ref(b)) => *a == *b,
        _ => false,
    }
}

/// Whether a value is an instance of a type; null is of none.
#[tactic(auto, unfolding(crate::specs::Relations::is_instance))]
pub fn is_instance(heap: &Heap, value: &Value, of: &Ty) -> bool
    ensures { result ≡ spec.is_instance heap.now.objects value.now of.now }
{
    !is_null(value) && has_type(heap, value, of)
}

// Whether a value has a type.
fn has_type(heap: &Heap, value: &Value, of: &Ty) -> bool
    ensures { result ≡ has_layer (kinds heap.now.objects) (out-Ty of.now) value.now }
{
    match of {
        Ty::Void => false,
        Ty::Null => false,
        Ty::Def => true,
        Ty::Prim(primitive) => is_primitive(*primitive, value),
        Ty::Class(class) => is_of(heap, *class, value),
        Ty::Array(elem) => is_array(heap, elem.get(), value),
    }
}

// Whether a value is a primitive's.
fn is_primitive(primitive: Primitive, value: &Value) -> bool
    ensures { result ≡ is_primitive primitive value.now }
{
    match primitive {
        Primitive::Boolean => matches!(value, Value::Bool(_)),
        Primitive::Byte => matches!(value, Value::Byte(_)),
        Primitive::Short => matches!(value, Value::Short(_)),
        Primitive::Char => matches!(value, Value::Char(_)),
        Primitive::Int => matches!(value, Value::Int(_)),
        Primitive::Long => matches!(value, Value::Long(_)),
    }
}

/// What `throw` comes to: an exception is thrown as it is, null is NullPointerException, and any other value ClassCastException.
///
/// `Room`: the charge of a new exception is above the room left. `NoMemory`: there was none for it.
#[tactic(auto, unfolding(crate::specs::Relations::thrown))]
pub fn throw_value(heap: &mut Heap, value: &Value) -> Answer
    ensures exact { Answers (spec.thrown heap.old value.now) heap.old heap.new result }
    ensures memory { spec.is_exception heap.old.objects value.now ≡ true → IsAnswered result }
{
    match value {
        Value::Null => throw_null(heap),
        Value::Ref(id) => throw_object(heap, *id),
        _ => throw_other(heap),
    }
}

// Throws an object, which is to be an exception.
fn throw_object(heap: &mut Heap, id: u32) -> Answer
    ensures exact { Answers (spec.thrown_if heap.old id (slice_get heap.old.objects id)) heap.old heap.new result }
    ensures memory { asked spec.is_exception_object false (slice_get heap.old.objects id) ≡ true → IsAnswered result }
{
    match heap.get(id) {
        Some(Object::Exc { .. }) => Answer::Thrown(id),
        Some(_) => throw_other(heap),
        None => throw_other(heap),
    }
}

// What is no exception is thrown.
fn throw_other(heap: &mut Heap) -> Answer
    ensures { Answers (spec.no_exception heap.old) heap.old heap.new result }
{
    Outcome::Throws(Raised::ClassCast, None).settle(heap)
}

fn throw_null(heap: &mut Heap) -> Answer
    ensures { Answers (effect heap.old null_error) heap.old heap.new result }
{
    Outcome::Throws(Raised::NullPointer, None).settle(heap)
}
