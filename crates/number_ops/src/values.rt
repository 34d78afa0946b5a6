//! What values are, and the numbers in them.
ghost use Rattle.std.specs.Prelude.{◌≡◌, false, slice_get};
ghost use Rattle.object_heap.specs.Parts.{asked};
ghost use Rattle.object_heap.specs.Fits.{value_is_of, value_is_array, class_is_of, kinds};
ghost use Rattle.number_ops.specs.Operators as spec;
ghost use Rattle.number_ops.specs.Operators.{boxed, truth_in, compares};
ghost use Rattle.number_ops.specs.Casts.{primitive_in};
ghost use Rattle.number_ops.specs.Outcomes.{is_text};

use crate::names::class_of_view;
use arithmetic::{Num, Op};
use object_heap::Heap;
use object_values::{Object, Value};
use pl_types::classes::{
    BOOLEAN, BYTE, CHARACTER, ENTRY, INTEGER, ITERATOR, LONG, OBJECT, SHORT, STRING, STRING_BUILDER,
};
use pl_types::{Primitive, Ty, class_below};

/// The number in a box, as an operator takes it.
pub fn number_in(value: &Value) -> Option<Num>
    ensures { result ≡ spec.number_in value.now }
{
    match value {
        Value::Byte(number) => Some(Num::Int(i32::from(*number))),
        Value::Short(number) => Some(Num::Int(i32::from(*number))),
        Value::Char(unit) => Some(Num::Int(i32::from(*unit))),
        Value::Int(number) => Some(Num::Int(*number)),
        Value::Long(number) => Some(Num::Long(*number)),
        _ => None,
    }
}

/// Whether a value is null.
pub fn is_null(value: &Value) -> bool
    ensures { result ≡ spec.is_null value.now }
{
    match value {
        Value::Null => true,
        _ => false,
    }
}

/// Whether a value is a text.
pub fn is_text(value: &Value) -> bool
    ensures { result ≡ is_text value.now }
{
    match value {
        Value::Str(_) => true,
        _ => false,
    }
}

/// A number in its box.
pub fn boxed(number: Num) -> Value
    ensures { result ≡ boxed number }
{
    match number {
        Num::Int(number) => Value::Int(number),
        Num::Long(number) => Value::Long(number),
    }
}

/// The truth value that the number of a comparison stands for.
pub fn truth_in(number: Num) -> Value
    ensures { result ≡ truth_in number }
{
    match number {
        Num::Int(number) => Value::Bool(number != 0),
        Num::Long(number) => Value::Bool(number != 0),
    }
}

/// Whether an operator compares.
pub fn compares(op: Op) -> bool
    ensures { result ≡ compares op }
{
    matches!(op, Op::Lt | Op::Le | Op::Gt | Op::Ge | Op::Eq | Op::Ne)
}

/// The primitive type of what is in a box.
pub fn primitive_in(value: &Value) -> Option<Primitive>
    ensures { result ≡ primitive_in value.now }
{
    match value {
        Value::Bool(_) => Some(Primitive::Boolean),
        Value::Byte(_) => Some(Primitive::Byte),
        Value::Short(_) => Some(Primitive::Short),
        Value::Char(_) => Some(Primitive::Char),
        Value::Int(_) => Some(Primitive::Int),
        Value::Long(_) => Some(Primitive::Long),
        _ => None,
    }
}

/// Whether a value is of a class.
pub fn is_of(heap: &Heap, class: u32, value: &Value) -> bool
    ensures { result ≡ value_is_of (kinds heap.now.objects) class value.now }
{
    match value {
        Value::Null => true,
        Value::Bool(_) => class_below(BOOLEAN, class),
        Value::Byte(_) => class_below(BYTE, class),
        Value::Short(_) => class_below(SHORT, class),
        Value::Char(_) => class_below(CHARACTER, class),
        Value::Int(_) => class_below(INTEGER, class),
        Value::Long(_) => class_below(LONG, class),
        Value::Str(_) => class_below(STRING, class),
        Value::Ref(id) => is_of_class(heap, class, *id),
    }
}

fn is_of_class(heap: &Heap, class: u32, id: u32) -> bool
    ensures { result ≡ asked (spec.object_is_of class) false (slice_get heap.now.objects id) }
{
    match heap.get(id) {
        Some(object) => object_is_of(class, object),
        None => false,
    }
}

fn object_is_of(class: u32, object: &Object) -> bool
    ensures { result ≡ spec.object_is_of class object.now }
{
    class == OBJECT || has_class(class, object)
}

fn has_class(wanted: u32, object: &Object) -> bool
    ensures { result ≡ spec.has_class wanted object.now }
{
    match object {
        Object::List { class, .. } => class_below(*class, wanted),
        Object::Map { class, .. } => class_below(*class, wanted),
        Object::Set { class, .. } => class_below(*class, wanted),
        Object::Array { .. } => false,
        Object::View { part, .. } => class_below(class_of_view(*part), wanted),
        Object::Entry { .. } => class_below(ENTRY, wanted),
        Object::Iter { .. } => class_below(ITERATOR, wanted),
        Object::Builder { .. } => class_below(STRING_BUILDER, wanted),
        Object::Fun { iface, .. } => interface_is_of(wanted, *iface),
        Object::Exc { class, .. } => class_below(*class, wanted),
    }
}

fn interface_is_of(wanted: u32, class: Option<u32>) -> bool
    ensures { result ≡ class_is_of wanted class }
{
    match class {
        Some(class) => class_below(class, wanted),
        None => false,
    }
}

/// Whether a value is an array of this element type, or null.
pub fn is_array(heap: &Heap, elem: &Ty, value: &Value) -> bool
    ensures { result ≡ value_is_array (kinds heap.now.objects) elem.now value.now }
{
    match value {
        Value::Null => true,
        Value::Ref(id) => is_array_at(heap, elem, *id),
        _ => false,
    }
}

fn is_array_at(heap: &Heap, elem: &Ty, id: u32) -> bool
    ensures { result ≡ asked (spec.object_is_array elem.now) false (slice_get heap.now.objects id) }
{
    match heap.get(id) {
        Some(object) => object_is_array(elem, object),
        None => false,
    }
}

fn object_is_array(elem: &Ty, object: &Object) -> bool
    ensures { result ≡ spec.object_is_array elem.now object.now }
{
    match object {
        Object::Array { elem: other, .. } => other.is(elem),
        _ => false,
    }
}
