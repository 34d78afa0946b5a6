//! Exceptions and their messages.
ghost use Rattle.std.specs.Prelude.{◌≡◌, ◌++◌, IfOk, OnOk};
ghost use Rattle.std.specs.Fmt.{decimal, signed_decimal};
ghost use Rattle.std.specs.String.{string_bytes};
ghost use Rattle.api_text.specs.Outcomes.{Tells, says, null_error, too_deep, too_large};
ghost use Rattle.api_text.specs.Sequences as spec;

use crate::outcome::{ExceptionClass, Outcome};
use object_heap::Heap;
use pl_units::UText;
use std::alloc::{AllocError, Global};

// An exception with a message.
#[tactic(auto, unfolding(crate::specs::Outcomes::says))]
fn says(heap: &Heap, class: ExceptionClass, message: &str) -> Outcome
    ensures { Tells heap.now (says class message.now) result }
{
    match UText::from_utf8(heap.alloc(), message) {
        Ok(message) => Outcome::Throws(class, Some(message)),
        Err(_) => Outcome::NoMemory,
    }
}

/// A null where something is needed.
pub fn null_error() -> Outcome
    ensures { result ≡ null_error }
{
    Outcome::Throws(ExceptionClass::NullPointer, None)
}

fn push_number(text: &mut String, number: i32) -> Result<(), AllocError>
    ensures { OnOk result (string_bytes text.new ≡ string_bytes text.old ++ signed_decimal number) }
{
    write!(text, "{number}")
}

fn push_count(text: &mut String, count: usize) -> Result<(), AllocError>
    ensures { OnOk result (string_bytes text.new ≡ string_bytes text.old ++ decimal count) }
{
    write!(text, "{count}")
}

fn index_message(alloc: Global, at: i32, count: usize) -> Result<String, AllocError>
    ensures { IfOk result (λ text. string_bytes text ≡ spec.index_message at count) }
{
    let mut text = String::from_str(alloc, "Index ")?;
    push_number(&mut text, at)?;
    text.push_str(" out of bounds for length ")?;
    push_count(&mut text, count)?;
    Ok(text)
}

/// A place that is out of range.
#[tactic(auto, unfolding(crate::specs::Outcomes::says))]
pub fn index_error(heap: &Heap, at: i32, count: usize) -> Outcome
    ensures { Tells heap.now (spec.index_error at count) result }
{
    match index_message(heap.alloc(), at, count) {
        Ok(text) => says(heap, ExceptionClass::StringIndexOutOfBounds, text.as_str()),
        Err(_) => Outcome::NoMemory,
    }
}

/// The exception of a walk that goes too deep.
pub fn too_deep(heap: &Heap) -> Outcome
    ensures { Tells heap.now too_deep result }
{
    says(
        heap,
        ExceptionClass::IllegalState,
        "value nested too deeply",
    )
}

/// The exception of a walk that visits too much.
pub fn too_large(heap: &Heap) -> Outcome
    ensures { Tells heap.now too_large result }
{
    says(
        heap,
        ExceptionClass::IllegalState,
        "value too large to walk",
    )
}
