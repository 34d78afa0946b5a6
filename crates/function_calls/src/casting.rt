//! Casts of what a call of a function value gives.
ghost use Rattle.std.specs.Prelude.{◌≡◌, ◌<◌, length};
ghost use Rattle.pl_types.specs.declared.ty.Ty.{out-Ty};
ghost use Rattle.object_heap.specs.Effects.{Answers};
ghost use Rattle.function_calls.specs.Applying as spec;

use crate::naming::method_at;
use allowlist::Allow;
use number_ops::to_type;
use object_heap::{Answer, Heap};
use object_values::Value;
use pl_types::Ty;

fn cast_to_result(heap: &mut Heap, value: &Value, of: &Ty) -> Answer
    ensures { Answers (spec.due_layer heap.old value.now of.now (out-Ty of.now)) heap.old heap.new result }
{
    match of {
        Ty::Void => Answer::Value(Value::Null),
        Ty::Class(_) => to_type(heap, value, of, false),
        Ty::Array(_) => to_type(heap, value, of, false),
        Ty::Null => to_type(heap, value, of, false),
        Ty::Def => to_type(heap, value, of, false),
        Ty::Prim(_) => to_type(heap, value, of, false),
    }
}

/// What a function value gave, null where that was void, cast to the result of the method by which it was called, of this number. A void
/// method drops it.
///
/// `Thrown`: what the cast throws.
#[tactic(auto, unfolding(crate::specs::Applying::due_cast))]
pub fn cast_due(allow: &Allow, heap: &mut Heap, method: u32, value: &Value) -> Answer
    requires { method < length allow.now.members }
    ensures { Answers (spec.due_cast heap.old method value.now) heap.old heap.new result }
{
    cast_to_result(heap, value, &method_at(allow, method).result)
}
