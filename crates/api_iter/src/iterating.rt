//! Iterators: how they are made, and their members.
ghost use Rattle.object_heap.specs.Effects.{Answers};
ghost use Rattle.api_iter.specs.declared.member.Member.TheVariants as m;
ghost use Rattle.std.specs.Prelude.{Some};
ghost use Rattle.api_iter.specs.Iterating as spec;
ghost use Rattle.api_iter.specs.Members.{Raises, WantsIf, WantsMemory};
ghost use Rattle.container_parts.specs.Iterators as iterators;

use crate::errors::null_error;
use container_parts::{has_next, iterate, iterator_of, next, remove};
use member_arguments::object_at;
use object_heap::{Answer, Heap};
use object_values::Value;

/// `iterator()`.
pub fn iterator(heap: &mut Heap, args: &[Value]) -> Answer
    ensures { Answers (spec.iterator heap.old args.now) heap.old heap.new result }
{
    match object_at(args, 0) {
        Some(id) => iterate(heap, id),
        None => null_error(heap),
    }
}

fn has_next_of(heap: &mut Heap, id: u32) -> Answer
    ensures does { Answers (spec.has_next_of heap.old id) heap.old heap.new result }
    ensures memory { WantsMemory (Some m.HasNext) (spec.has_next_of heap.old id) result }
{
    match iterator_of(heap, id) {
        Some(_) => Answer::Value(Value::Bool(has_next(heap, id))),
        None => null_error(heap),
    }
}

/// `hasNext()`.
pub fn has_next_at(heap: &mut Heap, args: &[Value]) -> Answer
    ensures does { Answers (spec.has_next heap.old args.now) heap.old heap.new result }
    ensures memory { WantsMemory (Some m.HasNext) (spec.has_next heap.old args.now) result }
{
    match object_at(args, 0) {
        Some(id) => has_next_of(heap, id),
        None => null_error(heap),
    }
}

/// `next()`.
pub fn next_at(heap: &mut Heap, args: &[Value]) -> Answer
    ensures { Answers (spec.next heap.old args.now) heap.old heap.new result }
{
    match object_at(args, 0) {
        Some(id) => next(heap, id),
        None => null_error(heap),
    }
}

#[tactic(auto, using(crate::proofs::Wanting::none_taken))]
fn remove_of(heap: &mut Heap, id: u32) -> Answer
    ensures does { Answers (iterators.remove heap.old id) heap.old heap.new result }
    ensures memory { WantsIf (Raises (iterators.remove heap.old id)) result }
{
    remove(heap, id)
}

/// `remove()`.
pub fn remove_at(heap: &mut Heap, args: &[Value]) -> Answer
    ensures does { Answers (spec.remove heap.old args.now) heap.old heap.new result }
    ensures memory { WantsMemory (Some m.Remove) (spec.remove heap.old args.now) result }
{
    match object_at(args, 0) {
        Some(id) => remove_of(heap, id),
        None => null_error(heap),
    }
}
