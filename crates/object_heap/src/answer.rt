//! What a call of a member or an operator comes to.
ghost use Rattle.object_heap.specs.Effects.{Answers, throws};

use crate::error::HeapErr;
use crate::heap::Heap;
use object_values::{Object, Value};
use pl_units::UText;

/// What a call of a member or an operator comes to. After Room and want of memory the heap is as before.
#[derive(Drop)]
pub enum Answer {
    Value(Value),
    /// The number of the exception that is thrown.
    Thrown(u32),
    /// The charge is above the room left.
    Room,
    /// There was no memory.
    NoMemory,
}

/// Throws a new exception of a class with a message or none. It is paid for as any object.
pub fn throw(heap: &mut Heap, class: u32, message: Option<UText>) -> Answer
    ensures { Answers (throws heap.old class message) heap.old heap.new result }
{
    match heap.add(Object::Exc { class, message }) {
        Ok(id) => Answer::Thrown(id),
        Err(HeapErr::Room) => Answer::Room,
        Err(HeapErr::NoMemory) => Answer::NoMemory,
    }
}
