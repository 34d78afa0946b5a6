//! Exceptions and their messages.
ghost use Rattle.std.specs.Prelude.{◌≡◌, ◌++◌, IfOk, OnOk};
ghost use Rattle.std.specs.Fmt.{decimal, signed_decimal};
ghost use Rattle.std.specs.String.{string_bytes};
ghost use Rattle.container_outcomes.specs.Outcomes as spec;
ghost use Rattle.container_outcomes.specs.Outcomes.{Tells};

use crate::outcome::{Outcome, Raised};
use object_heap::Heap;
use pl_units::UText;
use std::alloc::{AllocError, Global};

/// An exception with a message.
#[tactic(auto, unfolding(crate::specs::Outcomes::says))]
pub fn says(heap: &Heap, raised: Raised, message: &str) -> Outcome
    ensures { Tells (spec.says raised message.now) result }
{
    match UText::from_utf8(heap.alloc(), message) {
        Ok(message) => Outcome::Throws(raised, Some(message)),
        Err(_) => Outcome::NoMemory,
    }
}

/// An exception without a message.
pub fn fails(raised: Raised) -> Outcome
    ensures { result ≡ spec.fails raised }
{
    Outcome::Throws(raised, None)
}

/// A null where something is needed.
pub fn null_error() -> Outcome
    ensures { result ≡ spec.null_error }
{
    fails(Raised::NullPointer)
}

/// A change of what may not be changed so.
pub fn unsupported() -> Outcome
    ensures { result ≡ spec.unsupported }
{
    fails(Raised::UnsupportedOperation)
}

/// A key that is an object.
pub fn not_simple(heap: &Heap) -> Outcome
    ensures { Tells spec.not_simple result }
{
    says(heap, Raised::IllegalArgument, "key must be a simple value")
}

/// The exception of a walk that goes too deep.
pub fn too_deep(heap: &Heap) -> Outcome
    ensures { Tells spec.too_deep result }
{
    says(heap, Raised::IllegalState, "value nested too deeply")
}

/// The exception of a walk that visits too much.
pub fn too_large(heap: &Heap) -> Outcome
    ensures { Tells spec.too_large result }
{
    says(heap, Raised::IllegalState, "value too large to walk")
}

fn push_number(text: &mut String, number: i32) -> Result<(), AllocError>
    ensures { OnOk result (string_bytes text.new ≡ string_bytes text.old ++ signed_decimal number) }
{
    write!(text, "{number}")
}

fn push_count(text: &mut String, count: usize) -> Result<(), AllocError>
    ensures { OnOk result (string_bytes text.new ≡ string_bytes text.old ++ decimal count) }
{
    write!(text, "{count}")
}

/// The message of a place that is out of range.
pub fn index_message(alloc: Global, at: i32, count: usize) -> Result<String, AllocError>
    ensures { IfOk result (λ text. string_bytes text ≡ spec.index_message at count) }
{
    let mut text = String::from_str(alloc, "Index ")?;
    push_number(&mut text, at)?;
    text.push_str(" out of bounds for length ")?;
    push_count(&mut text, count)?;
    Ok(text)
}

/// A place of a list that is out of range.
#[tactic(auto, unfolding(crate::specs::Outcomes::says))]
pub fn index_error(heap: &Heap, at: i32, count: usize) -> Outcome
    ensures { Tells (spec.index_error at count) result }
{
    match index_message(heap.alloc(), at, count) {
        Ok(text) => says(heap, Raised::IndexOutOfBounds, text.as_str()),
        Err(_) => Outcome::NoMemory,
    }
}

/// A place of an array that is out of range.
#[tactic(auto, unfolding(crate::specs::Outcomes::says))]
pub fn array_index_error(heap: &Heap, at: i32, count: usize) -> Outcome
    ensures { Tells (spec.array_index_error at count) result }
{
    match index_message(heap.alloc(), at, count) {
        Ok(text) => says(heap, Raised::ArrayIndexOutOfBounds, text.as_str()),
        Err(_) => Outcome::NoMemory,
    }
}
