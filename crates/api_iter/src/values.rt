//! ScriptDocValues.
ghost use Rattle.std.specs.Prelude.{◌≡◌, IfErr, IfOk, Some, slice_get};
ghost use Rattle.object_heap.specs.Effects.{Answers};
ghost use Rattle.object_heap.specs.Parts.{items_of};
ghost use Rattle.api_iter.specs.declared.member.Member.TheVariants as m;
ghost use Rattle.api_iter.specs.Iterating as spec;
ghost use Rattle.api_iter.specs.Members.{IsText, WantsMemory};

use crate::errors::{no_value, null_error};
use member_arguments::object_at;
use object_heap::{Answer, Heap};
use object_values::Value;
use std::alloc::AllocError;

// The same value once more.
fn copied(value: &Value) -> Result<Value, AllocError>
    ensures ok { IfOk result (λ copy. copy ≡ value.now) }
    ensures err { IfErr result (λ _. IsText (Some value.now)) }
{
    match value {
        Value::Null => Ok(Value::Null),
        Value::Bool(flag) => Ok(Value::Bool(*flag)),
        Value::Byte(number) => Ok(Value::Byte(*number)),
        Value::Short(number) => Ok(Value::Short(*number)),
        Value::Char(unit) => Ok(Value::Char(*unit)),
        Value::Int(number) => Ok(Value::Int(*number)),
        Value::Long(number) => Ok(Value::Long(*number)),
        Value::Str(text) => Ok(Value::Str(text.share()?)),
        Value::Ref(id) => Ok(Value::Ref(*id)),
    }
}

fn first_copied(heap: &Heap, id: u32) -> Result<Option<Value>, AllocError>
    ensures ok { IfOk result (λ found. found ≡ slice_get (items_of heap.now.objects id) 0) }
    ensures err { IfErr result (λ _. IsText (slice_get (items_of heap.now.objects id) 0)) }
{
    match heap.items(id).get(0) {
        Some(value) => Ok(Some(copied(value)?)),
        None => Ok(None),
    }
}

#[tactic(auto, using(crate::proofs::Wanting::copies))]
fn first_value(heap: &mut Heap, id: u32) -> Answer
    ensures does { Answers (spec.first_value heap.old id) heap.old heap.new result }
    ensures memory { WantsMemory (Some m.GetValue) (spec.first_value heap.old id) result }
{
    match first_copied(heap, id) {
        Ok(Some(value)) => Answer::Value(value),
        Ok(None) => no_value(heap),
        Err(_) => Answer::NoMemory,
    }
}

/// `getValue()`.
pub fn get_value(heap: &mut Heap, args: &[Value]) -> Answer
    ensures does { Answers (spec.get_value heap.old args.now) heap.old heap.new result }
    ensures memory { WantsMemory (Some m.GetValue) (spec.get_value heap.old args.now) result }
{
    match object_at(args, 0) {
        Some(id) => first_value(heap, id),
        None => null_error(heap),
    }
}
