//! Arguments of members, found by their places. The receiver is the first. One that is missing or of another kind is none.
ghost use Rattle.std.specs.Prelude.{◌≡◌, Some, slice_get};
ghost use Rattle.std.specs.Option.{option_copied};
ghost use Rattle.member_arguments.specs.Arguments as spec;

use object_heap::Heap;
use object_values::Value;
use pl_units::UText;

/// The value at a place.
pub fn value_at(values: &[Value], at: usize) -> Option<&Value>
    ensures { option_copied result ≡ slice_get values.now at }
{
    values.get(at)
}

/// The `int` at a place.
pub fn int_at(args: &[Value], at: usize) -> Option<i32>
    ensures { result ≡ spec.int_at args.now at }
{
    match args.get(at) {
        Some(value) => int_in(value),
        None => None,
    }
}

fn int_in(value: &Value) -> Option<i32>
    ensures { result ≡ spec.int_in (Some value.now) }
{
    match value {
        Value::Int(number) => Some(*number),
        _ => None,
    }
}

/// The `long` at a place.
pub fn long_at(args: &[Value], at: usize) -> Option<i64>
    ensures { result ≡ spec.long_at args.now at }
{
    match args.get(at) {
        Some(value) => long_in(value),
        None => None,
    }
}

fn long_in(value: &Value) -> Option<i64>
    ensures { result ≡ spec.long_in (Some value.now) }
{
    match value {
        Value::Long(number) => Some(*number),
        _ => None,
    }
}

/// The `byte` at a place.
pub fn byte_at(args: &[Value], at: usize) -> Option<i8>
    ensures { result ≡ spec.byte_at args.now at }
{
    match args.get(at) {
        Some(value) => byte_in(value),
        None => None,
    }
}

fn byte_in(value: &Value) -> Option<i8>
    ensures { result ≡ spec.byte_in (Some value.now) }
{
    match value {
        Value::Byte(number) => Some(*number),
        _ => None,
    }
}

/// The `char` at a place.
pub fn char_at(args: &[Value], at: usize) -> Option<u16>
    ensures { result ≡ spec.char_at args.now at }
{
    match args.get(at) {
        Some(value) => char_in(value),
        None => None,
    }
}

fn char_in(value: &Value) -> Option<u16>
    ensures { result ≡ spec.char_in (Some value.now) }
{
    match value {
        Value::Char(unit) => Some(*unit),
        _ => None,
    }
}

/// The truth value at a place.
pub fn flag_at(args: &[Value], at: usize) -> Option<bool>
    ensures { result ≡ spec.flag_at args.now at }
{
    match args.get(at) {
        Some(value) => flag_in(value),
        None => None,
    }
}

fn flag_in(value: &Value) -> Option<bool>
    ensures { result ≡ spec.flag_in (Some value.now) }
{
    match value {
        Value::Bool(flag) => Some(*flag),
        _ => None,
    }
}

/// The number of the object at a place.
pub fn object_at(args: &[Value], at: usize) -> Option<u32>
    ensures { result ≡ spec.object_at args.now at }
{
    match args.get(at) {
        Some(value) => object_in(value),
        None => None,
    }
}

fn object_in(value: &Value) -> Option<u32>
    ensures { result ≡ spec.object_in (Some value.now) }
{
    match value {
        Value::Ref(id) => Some(*id),
        _ => None,
    }
}

/// The text at a place.
pub fn text_at(args: &[Value], at: usize) -> Option<&UText>
    ensures { option_copied result ≡ spec.text_at args.now at }
{
    match args.get(at) {
        Some(value) => text_in(value),
        None => None,
    }
}

fn text_in(value: &Value) -> Option<&UText>
    ensures { option_copied result ≡ spec.text_in (Some value.now) }
{
    match value {
        Value::Str(text) => Some(text),
        _ => None,
    }
}

/// The units of the text or the builder at a place; an object of another kind has none of them.
pub fn sequence_at<'a>(heap: &'a Heap, args: &'a [Value], at: usize) -> Option<&'a [u16]>
    ensures { option_copied result ≡ spec.sequence_at heap.now.objects args.now at }
{
    match args.get(at) {
        Some(value) => sequence_in(heap, value),
        None => None,
    }
}

fn sequence_in<'a>(heap: &'a Heap, value: &'a Value) -> Option<&'a [u16]>
    ensures { option_copied result ≡ spec.sequence_in heap.now.objects (Some value.now) }
{
    match value {
        Value::Str(text) => Some(text.units()),
        Value::Ref(id) => Some(heap.units(*id)),
        _ => None,
    }
}
