//! What comes of null, and of a value of another kind, where an array, a list or an iterator is wanted.
ghost use Rattle.std.specs.Prelude.{◌≡◌};
ghost use Rattle.object_heap.specs.Effects.{Answers};
ghost use Rattle.container_ops.specs.Types as spec;

use container_outcomes::{Outcome, Raised, fails};
use object_heap::{Answer, Heap, throw};
use pl_types::classes::{CLASS_CAST_EXCEPTION, NULL_POINTER_EXCEPTION};

/// A value of another kind.
pub fn other_kind() -> Outcome
    ensures { result ≡ spec.other_kind }
{
    fails(Raised::ClassCast)
}

/// A null.
pub fn on_null(heap: &mut Heap) -> Answer
    ensures does { Answers (spec.on_null heap.old) heap.old heap.new result }
    ensures memory { spec.Spares heap.old (spec.on_null heap.old) result }
{
    throw(heap, NULL_POINTER_EXCEPTION, None)
}

/// A value of another kind.
pub fn on_other_kind(heap: &mut Heap) -> Answer
    ensures does { Answers (spec.on_other_kind heap.old) heap.old heap.new result }
    ensures memory { spec.Spares heap.old (spec.on_other_kind heap.old) result }
{
    throw(heap, CLASS_CAST_EXCEPTION, None)
}
