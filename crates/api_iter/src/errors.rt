//! Exceptions.
ghost use Rattle.object_heap.specs.Effects.{Answers};
ghost use Rattle.api_iter.specs.Iterating as spec;
ghost use Rattle.api_iter.specs.Members.{Raises, RaisesOrCopies, WantsIf};

use object_heap::{Answer, Heap, throw};
use pl_types::classes::{ILLEGAL_STATE_EXCEPTION, NULL_POINTER_EXCEPTION};
use pl_units::UText;

/// A null where something is needed.
#[tactic(auto, using(crate::proofs::Wanting::raised, crate::proofs::Wanting::raised_or_copied))]
pub fn null_error(heap: &mut Heap) -> Answer
    ensures does { Answers (spec.null_error heap.old) heap.old heap.new result }
    ensures raises { WantsIf (Raises (spec.null_error heap.old)) result }
    ensures copies { WantsIf (RaisesOrCopies (spec.null_error heap.old)) result }
{
    throw(heap, NULL_POINTER_EXCEPTION, None)
}

/// A field without a value.
#[tactic(auto, using(crate::proofs::Wanting::raised_or_copied), unfolding(crate::specs::Iterating::no_value))]
pub fn no_value(heap: &mut Heap) -> Answer
    ensures does { Answers (spec.no_value heap.old) heap.old heap.new result }
    ensures copies { WantsIf (RaisesOrCopies (spec.no_value heap.old)) result }
{
    match UText::from_utf8(
        heap.alloc(),
        "A document doesn't have a value for a field! Use doc[<field>].size()==0 to check if a document is missing a field!",
    ) {
        Ok(message) => throw(heap, ILLEGAL_STATE_EXCEPTION, Some(message)),
        Err(_) => Answer::NoMemory,
    }
}
