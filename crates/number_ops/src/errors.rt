//! Exceptions and their messages.
ghost use Rattle.std.specs.Prelude.{◌≡◌, IfOk};
ghost use Rattle.std.specs.String.{string_bytes};
ghost use Rattle.number_ops.specs.Names as spec;
ghost use Rattle.number_ops.specs.Outcomes.{Tells, says, null_error};

use crate::names::{push_name, sign_of};
use crate::outcome::{Outcome, Raised};
use arithmetic::Op;
use object_heap::Heap;
use object_values::Value;
use pl_types::{ClassNames, Ty, push_type};
use pl_units::UText;
use std::alloc::{AllocError, Global};

/// An exception with a message.
#[tactic(auto, unfolding(crate::specs::Outcomes::says))]
pub fn says(alloc: Global, raised: Raised, message: &str) -> Outcome
    ensures { Tells (says raised message.now) result }
{
    match UText::from_utf8(alloc, message) {
        Ok(message) => Outcome::Throws(raised, Some(message)),
        Err(_) => Outcome::NoMemory,
    }
}

/// A null where a value is needed.
pub fn null_error() -> Outcome
    ensures { result ≡ null_error }
{
    Outcome::Throws(Raised::NullPointer, None)
}

fn cast_message(heap: &Heap, value: &Value, to: &Ty) -> Result<String, AllocError>
    ensures { IfOk result (λ text. string_bytes text ≡ spec.cast_message heap.now.objects value.now to.now) }
{
    let mut text = String::from_str(heap.alloc(), "Cannot cast from [")?;
    push_name(&mut text, heap, value)?;
    text.push_str("] to [")?;
    push_type(&mut text, to, ClassNames::Short)?;
    text.push_str("]")?;
    Ok(text)
}

/// A value that does not go to a type.
#[tactic(auto, unfolding(crate::specs::Outcomes::says))]
pub fn cannot_cast(heap: &Heap, value: &Value, to: &Ty) -> Outcome
    ensures { Tells (spec.cannot_cast heap.now.objects value.now to.now) result }
{
    match cast_message(heap, value, to) {
        Ok(text) => says(heap.alloc(), Raised::ClassCast, text.as_str()),
        Err(_) => Outcome::NoMemory,
    }
}

fn one_message(heap: &Heap, op: Op, a: &Value) -> Result<String, AllocError>
    ensures { IfOk result (λ text. string_bytes text ≡ spec.one_message heap.now.objects op a.now) }
{
    let mut text = String::from_str(heap.alloc(), "Cannot apply [")?;
    text.push_str(sign_of(op))?;
    text.push_str("] to [")?;
    push_name(&mut text, heap, a)?;
    text.push_str("]")?;
    Ok(text)
}

/// An operand that an operator of one operand does not take.
#[tactic(auto, unfolding(crate::specs::Outcomes::says))]
pub fn cannot_apply_to_one(heap: &Heap, op: Op, a: &Value) -> Outcome
    ensures { Tells (spec.cannot_apply_to_one heap.now.objects op a.now) result }
{
    match one_message(heap, op, a) {
        Ok(text) => says(heap.alloc(), Raised::ClassCast, text.as_str()),
        Err(_) => Outcome::NoMemory,
    }
}

fn apply_message(heap: &Heap, op: Op, a: &Value, b: &Value) -> Result<String, AllocError>
    ensures { IfOk result (λ text. string_bytes text ≡ spec.apply_message heap.now.objects op a.now b.now) }
{
    let mut text = one_message(heap, op, a)?;
    text.push_str(" and [")?;
    push_name(&mut text, heap, b)?;
    text.push_str("]")?;
    Ok(text)
}

/// Operands that an operator does not take.
#[tactic(auto, unfolding(crate::specs::Outcomes::says))]
pub fn cannot_apply(heap: &Heap, op: Op, a: &Value, b: &Value) -> Outcome
    ensures { Tells (spec.cannot_apply heap.now.objects op a.now b.now) result }
{
    match apply_message(heap, op, a, b) {
        Ok(text) => says(heap.alloc(), Raised::ClassCast, text.as_str()),
        Err(_) => Outcome::NoMemory,
    }
}

/// The message of values that natural order does not compare, which names their classes.
pub fn compare_message(heap: &Heap, a: &Value, b: &Value) -> Result<String, AllocError>
    ensures { IfOk result (λ text. string_bytes text ≡ spec.compare_message heap.now.objects a.now b.now) }
{
    let mut text = String::from_str(heap.alloc(), "Cannot compare [")?;
    push_name(&mut text, heap, a)?;
    text.push_str("] and [")?;
    push_name(&mut text, heap, b)?;
    text.push_str("]")?;
    Ok(text)
}

/// Values that natural order does not compare.
#[tactic(auto, unfolding(crate::specs::Outcomes::says))]
pub fn cannot_compare(heap: &Heap, a: &Value, b: &Value) -> Outcome
    ensures { Tells (spec.cannot_compare heap.now.objects a.now b.now) result }
{
    match compare_message(heap, a, b) {
        Ok(text) => says(heap.alloc(), Raised::ClassCast, text.as_str()),
        Err(_) => Outcome::NoMemory,
    }
}
