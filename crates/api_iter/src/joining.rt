//! `join`, which is String.join with the receiver behind the text between.
ghost use Rattle.std.specs.Prelude.{Some};
ghost use Rattle.object_heap.specs.Effects.{Answers};
ghost use Rattle.api_iter.specs.Iterating as spec;

use crate::errors::null_error;
use member_arguments::value_at;
use object_heap::{Answer, Heap};
use object_values::Value;

/// The number of `String.join(CharSequence, Iterable)` in the catalogue.
pub const STRING_JOIN: u32 = 58;

fn joined(heap: &mut Heap, receiver: &Value, between: &Value) -> Answer
    ensures { Answers (spec.joined_by heap.old (Some receiver.now) (Some between.now)) heap.old heap.new result }
{
    match (receiver.share(), between.share()) {
        (Ok(receiver), Ok(between)) => {
            let swapped = [between, receiver];
            api_text::call(STRING_JOIN, heap, &swapped)
        }
        _ => Answer::NoMemory,
    }
}

/// `join(String)`.
pub fn join(heap: &mut Heap, args: &[Value]) -> Answer
    ensures { Answers (spec.join heap.old args.now) heap.old heap.new result }
{
    match (value_at(args, 0), value_at(args, 1)) {
        (Some(receiver), Some(between)) => joined(heap, receiver, between),
        _ => null_error(heap),
    }
}
