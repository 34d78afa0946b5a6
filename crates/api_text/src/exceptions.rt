//! The constructors of exceptions, and getMessage.
ghost use Rattle.std.specs.Prelude.{◌≡◌, IfOk};
ghost use Rattle.member_arguments.specs.Arguments as arguments;
ghost use Rattle.api_text.specs.Exceptions as spec;
ghost use Rattle.api_text.specs.Outcomes.{Tells};

use crate::errors::null_error;
use crate::outcome::{ExceptionClass, Outcome};
use member_arguments::{object_at, text_at};
use object_heap::Heap;
use object_values::Value;
use pl_units::UText;
use std::alloc::AllocError;

/// The constructor of an exception without a message.
pub fn new_exception(class: ExceptionClass) -> Outcome
    ensures { result ≡ spec.new_exception class }
{
    Outcome::NewException(class, None)
}

// A text argument once more, if it is one.
fn text_of(args: &[Value], at: usize) -> Result<Option<UText>, AllocError>
    ensures { IfOk result (λ text. text ≡ arguments.text_at args.now at) }
{
    match text_at(args, at) {
        Some(text) => Ok(Some(text.share()?)),
        None => Ok(None),
    }
}

/// The constructor of an exception with a message.
pub fn new_exception_saying(heap: &Heap, class: ExceptionClass, args: &[Value]) -> Outcome
    ensures { Tells heap.now (spec.new_exception_saying class args.now) result }
{
    match text_of(args, 0) {
        Ok(message) => Outcome::NewException(class, message),
        Err(_) => Outcome::NoMemory,
    }
}

fn message_in(heap: &Heap, id: u32) -> Outcome
    ensures { Tells heap.now (spec.message_in heap.now.objects id) result }
{
    match heap.message(id) {
        Some(message) => shared(heap, message),
        None => Outcome::Gives(Value::Null),
    }
}

fn shared(heap: &Heap, message: &UText) -> Outcome
    ensures { Tells heap.now (Outcome.Makes message.now) result }
{
    match message.share() {
        Ok(message) => Outcome::Makes(message),
        Err(_) => Outcome::NoMemory,
    }
}

/// `getMessage()`.
pub fn get_message(heap: &Heap, args: &[Value]) -> Outcome
    ensures { Tells heap.now (spec.get_message heap.now.objects args.now) result }
{
    match object_at(args, 0) {
        Some(id) => message_in(heap, id),
        None => null_error(),
    }
}
