//! The messages of what is thrown.

ghost use Rattle.std.specs.Prelude.{◌≡◌, ◌++◌, IfOk, OnOk, decimal};
ghost use Rattle.std.specs.String.{string_bytes};
ghost use Rattle.object_heap.specs.Objects.{AnArray};
ghost use Rattle.def_resolve.specs.Failures as spec;

use crate::access::Purpose;
use crate::class::{class_of, class_of_object};
use itoa::Buffer;
use object_heap::Heap;
use object_values::{Object, Value};
use pl_types::{ClassNames, Ty, push_type};
use std::alloc::AllocError;

fn push_number(text: &mut String, number: usize) -> Result<(), AllocError>
    ensures { OnOk result (string_bytes text.new ≡ string_bytes text.old ++ decimal number) }
{
    let mut buffer = Buffer::new();
    text.push_str(buffer.format(number))
}

fn push_class(text: &mut String, class: Option<u32>) -> Result<(), AllocError>
    ensures { OnOk result (string_bytes text.new ≡ string_bytes text.old ++ spec.name_of_class class) }
{
    match class {
        Some(class) => push_type(text, &Ty::Class(class), ClassNames::Full),
        None => text.push_str("lambda"),
    }
}

fn push_array(text: &mut String, elem: &Ty) -> Result<(), AllocError>
    ensures { OnOk result (string_bytes text.new ≡ string_bytes text.old ++ spec.name_of_kind (AnArray elem.now)) }
{
    push_type(text, elem, ClassNames::Short)?;
    text.push_str("[]")
}

fn push_object(text: &mut String, object: &Object) -> Result<(), AllocError>
    ensures { OnOk result (string_bytes text.new ≡ string_bytes text.old ++ spec.name_of_object object.now) }
{
    match object {
        Object::Array { elem, .. } => push_array(text, elem),
        _ => push_class(text, class_of_object(object)),
    }
}

/// Writes the class of a value in full; of an array its type, and of a function value that has taken no interface `lambda`.
fn push_name(text: &mut String, heap: &Heap, value: &Value) -> Result<(), AllocError>
    ensures { OnOk result (string_bytes text.new ≡ string_bytes text.old ++ spec.name_of heap.now.objects value.now) }
{
    match value {
        Value::Null => text.push_str("null"),
        Value::Ref(id) => match heap.get(*id) {
            Some(object) => push_object(text, object),
            None => Ok(()),
        },
        _ => push_class(text, class_of(heap, value)),
    }
}

pub(crate) fn method_message(
    heap: &Heap,
    receiver: &Value,
    name: &str,
    arity: u32,
) -> Result<String, AllocError>
    ensures { IfOk result (λ text. string_bytes text ≡ spec.method_message heap.now.objects receiver.now name.now arity) }
{
    let mut text = String::from_str(heap.alloc(), "dynamic method [")?;
    push_name(&mut text, heap, receiver)?;
    text.push_str(", ")?;
    text.push_str(name)?;
    text.push_str("/")?;
    push_number(&mut text, arity as usize)?;
    text.push_str("] not found")?;
    Ok(text)
}

fn accessor_begin(purpose: Purpose) -> &'static str
    ensures { result.now ≡ spec.accessor_begin purpose }
{
    match purpose {
        Purpose::Read => "dynamic getter [",
        Purpose::Write => "dynamic setter [",
    }
}

pub(crate) fn accessor_message(
    heap: &Heap,
    receiver: &Value,
    name: &str,
    purpose: Purpose,
) -> Result<String, AllocError>
    ensures { IfOk result (λ text. string_bytes text ≡ spec.accessor_message purpose heap.now.objects receiver.now name.now) }
{
    let mut text = String::from_str(heap.alloc(), accessor_begin(purpose))?;
    push_name(&mut text, heap, receiver)?;
    text.push_str(", ")?;
    text.push_str(name)?;
    text.push_str("] not found")?;
    Ok(text)
}

pub(crate) fn beyond_message(heap: &Heap, id: u32, name: &str) -> Result<String, AllocError>
    ensures { IfOk result (λ text. string_bytes text ≡ spec.beyond_message heap.now.objects id name.now) }
{
    let mut text = String::from_str(heap.alloc(), "Index ")?;
    text.push_str(name)?;
    text.push_str(" out of bounds for length ")?;
    push_number(&mut text, heap.size(id))?;
    Ok(text)
}
