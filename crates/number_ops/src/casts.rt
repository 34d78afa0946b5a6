//! Casts of values whose types are found at run time.
ghost use Rattle.std.specs.Prelude.{◌≡◌};
ghost use Rattle.pl_types.specs.Casts.{reaches, narrows};
ghost use Rattle.pl_types.specs.declared.ty.Ty.{out-Ty};
ghost use Rattle.pl_types.specs.Types.{same_primitives};
ghost use Rattle.object_heap.specs.Effects.{Answers};
ghost use Rattle.number_ops.specs.Outcomes.{Tells, WantsMemory, effect};
ghost use Rattle.number_ops.specs.declared.outcome.Outcome.TheVariants.{Gives};
ghost use Rattle.number_ops.specs.Casts as spec;
ghost use Rattle.number_ops.specs.Casts.{cast_at_run_time, number_as, text_to_char, char_to_text};

use crate::errors::{cannot_cast, null_error};
use crate::outcome::Outcome;
use crate::values::{is_array, is_null, is_of, number_in, primitive_in};
use arithmetic::Num;
use arithmetic::casts::{low_byte, low_char, low_short};
use object_heap::{Answer, Heap};
use object_values::Value;
use pl_types::classes::STRING;
use pl_types::{Primitive, Ty, unboxed, widens_to};
use pl_units::UText;

/// What a cast makes of a value.
pub enum Casted {
    /// The value stays.
    Kept,
    To(Value),
    /// The text of this unit alone.
    Text(u16),
    /// The value does not go to the type.
    Refused,
}

impl Drop for Casted {
    fn drop(self) {
        match self {
            Casted::Kept => {}
            Casted::To(_value) => {}
            Casted::Text(_unit) => {}
            Casted::Refused => {}
        }
    }
}

impl Casted {
    // What a cast of a value to a type comes to.
    fn outcome(self, heap: &Heap, value: &Value, to: &Ty) -> Outcome
        ensures { Tells (spec.given heap.now.objects value.now to.now self) result }
    {
        match self {
            Casted::Kept => kept(value),
            Casted::To(made) => Outcome::Gives(made),
            Casted::Text(unit) => text_of_unit(heap, unit),
            Casted::Refused => cannot_cast(heap, value, to),
        }
    }
}

/// A cast to a type, written in the script (`explicit`) or not. To a primitive goes a box of its type or of one that widens to it,
/// and in a written cast a box of any number to any number, which keeps the low bits, and a text of one unit to char. To the class
/// of a box goes the same. To another class and to an array type goes an instance, and to String in a written cast a char. To def
/// goes everything. Null goes to everything but primitives.
///
/// `Thrown`: a null is NullPointerException, any other value that does not go there ClassCastException. `Room`: the charge, of a
/// text its units and 1 and of an exception the units of its message and 1, is above the room left. `NoMemory`: there was none
/// for a text or an exception.
pub fn to_type(heap: &mut Heap, value: &Value, to: &Ty, explicit: bool) -> Answer
    ensures exact { Answers (effect heap.old (cast_at_run_time heap.old.objects value.now to.now explicit)) heap.old heap.new result }
    ensures memory { WantsMemory (cast_at_run_time heap.old.objects value.now to.now explicit) result }
{
    cast(heap, value, to, explicit).settle(heap)
}

fn cast(heap: &Heap, value: &Value, to: &Ty, explicit: bool) -> Outcome
    ensures { Tells (cast_at_run_time heap.now.objects value.now to.now explicit) result }
{
    if is_null(value) {
        return of_null(to);
    }
    to_layer(heap, to, explicit, value).outcome(heap, value, to)
}

fn kept(value: &Value) -> Outcome
    ensures { Tells (spec.kept value.now) result }
{
    match value {
        Value::Null => Outcome::Gives(Value::Null),
        Value::Bool(flag) => Outcome::Gives(Value::Bool(*flag)),
        Value::Byte(number) => Outcome::Gives(Value::Byte(*number)),
        Value::Short(number) => Outcome::Gives(Value::Short(*number)),
        Value::Char(unit) => Outcome::Gives(Value::Char(*unit)),
        Value::Int(number) => Outcome::Gives(Value::Int(*number)),
        Value::Long(number) => Outcome::Gives(Value::Long(*number)),
        Value::Str(text) => kept_text(text),
        Value::Ref(id) => Outcome::Gives(Value::Ref(*id)),
    }
}

fn kept_text(text: &UText) -> Outcome
    ensures { Tells (Gives (Value.Str text.now)) result }
{
    match text.share() {
        Ok(text) => Outcome::Gives(Value::Str(text)),
        Err(_) => Outcome::NoMemory,
    }
}

fn text_of_unit(heap: &Heap, unit: u16) -> Outcome
    ensures { Tells (spec.text_of_unit unit) result }
{
    match UText::from_slice(heap.alloc(), &[unit]) {
        Ok(text) => Outcome::Makes(text),
        Err(_) => Outcome::NoMemory,
    }
}

fn of_null(to: &Ty) -> Outcome
    ensures { result ≡ spec.of_null (out-Ty to.now) }
{
    match to {
        Ty::Prim(_) => null_error(),
        _ => Outcome::Gives(Value::Null),
    }
}

fn to_layer(heap: &Heap, to: &Ty, explicit: bool, value: &Value) -> Casted
    ensures { result ≡ spec.to_layer heap.now.objects (out-Ty to.now) explicit value.now }
{
    match to {
        Ty::Void => Casted::Refused,
        Ty::Null => Casted::Refused,
        Ty::Def => Casted::Kept,
        Ty::Prim(primitive) => to_primitive(*primitive, explicit, value),
        Ty::Class(class) => to_class(heap, *class, explicit, value),
        Ty::Array(elem) => kept_if(is_array(heap, elem.get(), value)),
    }
}

fn kept_if(is: bool) -> Casted
    ensures { result ≡ spec.kept_if is }
{
    if is { Casted::Kept } else { Casted::Refused }
}

fn to_class(heap: &Heap, class: u32, explicit: bool, value: &Value) -> Casted
    ensures { result ≡ spec.to_class heap.now.objects class explicit value.now }
{
    match unboxed(class) {
        Some(primitive) => to_primitive(primitive, explicit, value),
        None => to_other_class(heap, class, explicit, value),
    }
}

fn to_other_class(heap: &Heap, class: u32, explicit: bool, value: &Value) -> Casted
    ensures { result ≡ spec.to_other_class heap.now.objects class explicit value.now }
{
    if is_of(heap, class, value) {
        return Casted::Kept;
    }
    if class == STRING {
        text_given(char_to_text(explicit, value))
    } else {
        Casted::Refused
    }
}

fn text_given(unit: Option<u16>) -> Casted
    ensures { result ≡ spec.text_given unit }
{
    match unit {
        Some(unit) => Casted::Text(unit),
        None => Casted::Refused,
    }
}

fn char_to_text(explicit: bool, value: &Value) -> Option<u16>
    ensures { result ≡ char_to_text explicit value.now }
{
    match value {
        Value::Char(unit) => { if explicit { Some(*unit) } else { None } }
        _ => None,
    }
}

fn to_primitive(to: Primitive, explicit: bool, value: &Value) -> Casted
    ensures { result ≡ spec.to_primitive to explicit value.now }
{
    match primitive_in(value) {
        Some(from) => {
            if reaches(from, to, explicit) {
                converted(to, number_in(value))
            } else {
                Casted::Refused
            }
        }
        None => char_given(text_to_char(to, explicit, value)),
    }
}

fn converted(to: Primitive, number: Option<Num>) -> Casted
    ensures { result ≡ spec.converted to number }
{
    match number {
        Some(number) => Casted::To(number_as(to, number)),
        None => Casted::Kept,
    }
}

/// A number as a primitive's: it keeps the low bits.
pub fn number_as(to: Primitive, number: Num) -> Value
    ensures { result ≡ number_as to number }
{
    match to {
        Primitive::Boolean => Value::Null,
        Primitive::Byte => Value::Byte(low_byte(number.to_int())),
        Primitive::Short => Value::Short(low_short(number.to_int())),
        Primitive::Char => Value::Char(low_char(number.to_int())),
        Primitive::Int => Value::Int(number.to_int()),
        Primitive::Long => Value::Long(number.to_long()),
    }
}

fn char_given(unit: Option<u16>) -> Casted
    ensures { result ≡ spec.char_given unit }
{
    match unit {
        Some(unit) => Casted::To(Value::Char(unit)),
        None => Casted::Refused,
    }
}

fn text_to_char(to: Primitive, explicit: bool, value: &Value) -> Option<u16>
    ensures { result ≡ text_to_char to explicit value.now }
{
    match value {
        Value::Str(text) => {
            if to == Primitive::Char && explicit {
                only_unit(text.units())
            } else {
                None
            }
        }
        _ => None,
    }
}

fn only_unit(text: &[u16]) -> Option<u16>
    ensures { result ≡ spec.only_unit text.now }
{
    match text {
        [unit] => Some(*unit),
        _ => None,
    }
}

// Whether a primitive goes to another in a cast that is written or in one that is not.
fn reaches(from: Primitive, to: Primitive, explicit: bool) -> bool
    ensures { result ≡ reaches from to explicit }
{
    same(from, to) || widens_to(from, to) || (explicit && narrows_to(from, to))
}

fn same(a: Primitive, b: Primitive) -> bool
    ensures { result ≡ same_primitives a b }
{
    a == b
}

fn narrows_to(from: Primitive, to: Primitive) -> bool
    ensures { result ≡ narrows from to }
{
    from != Primitive::Boolean && to != Primitive::Boolean && from != to && !widens_to(from, to)
}
