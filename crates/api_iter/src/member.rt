//! The members by their numbers in the catalogue.
ghost use Rattle.std.specs.Prelude.{◌≡◌, Some, length};
ghost use Rattle.object_heap.specs.Effects.{Answers};
ghost use Rattle.object_heap.specs.Fits.{Rules, Fits, AllFit, AnswerFits};
ghost use Rattle.api_iter.specs.Members.{WantsMemory, does, does_numbered, numbered};

use crate::iterating::{has_next_at, iterator, next_at, remove_at};
use crate::joining::join;
use crate::values::get_value;
use object_heap::{Answer, Heap};
use object_values::Value;

/// A member.
#[derive(Clone, Copy)]
pub enum Member {
    Iterator,
    Join,
    HasNext,
    Next,
    Remove,
    GetValue,
}

#[tactic(auto, unfolding(crate::specs::Members::numbered))]
fn member_of(number: u32) -> Option<Member>
    ensures { result ≡ numbered number }
{
    if number == 86 {
        Some(Member::Iterator)
    } else if number == 96 {
        Some(Member::Join)
    } else if number == 166 {
        Some(Member::HasNext)
    } else if number == 167 {
        Some(Member::Next)
    } else if number == 168 {
        Some(Member::Remove)
    } else if number == 225 {
        Some(Member::GetValue)
    } else {
        None
    }
}

fn called(member: Member, heap: &mut Heap, args: &[Value]) -> Answer
    ensures does { Answers (does heap.old member args.now) heap.old heap.new result }
    ensures memory { WantsMemory (Some member) (does heap.old member args.now) result }
{
    match member {
        Member::Iterator => iterator(heap, args),
        Member::Join => join(heap, args),
        Member::HasNext => has_next_at(heap, args),
        Member::Next => next_at(heap, args),
        Member::Remove => remove_at(heap, args),
        Member::GetValue => get_value(heap, args),
    }
}

/// The call of a member of Iterable, Iterator or ScriptDocValues by its number in the catalogue. The receiver is the first argument:
/// a list, an array, a set or a view of a map, or an iterator over one. A number that is no such member's gives null, and an argument
/// that is missing or of another kind counts as null.
///
/// `Thrown`: by `docs/CATALOGUE.md`, as the member says. `Room`: the charge is above the room left; it is for an iterator 1, for an
/// entry that `next` makes 3, for a text its units and 1, for an exception its weight, and else nothing. `NoMemory`: there was none
/// for what is made or copied; `hasNext` and `remove` take none but for an exception, and `getValue` for a text besides.
pub fn call(number: u32, heap: &mut Heap, args: &[Value]) -> Answer
    ensures does { Answers (does_numbered heap.old number args.now) heap.old heap.new result }
    ensures memory { WantsMemory (numbered number) (does_numbered heap.old number args.now) result }
    ensures keeps { (rules : Rules) → Fits rules heap.old.objects → AllFit (length heap.old.objects) args.now → AnswerFits rules heap.new result }
{
    match member_of(number) {
        Some(member) => called(member, heap, args),
        None => Answer::Value(Value::Null),
    }
}
