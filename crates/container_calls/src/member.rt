//! The call of a member of a container.
ghost use Rattle.std.specs.Prelude.{length};
ghost use Rattle.object_heap.specs.Effects.{Answers};
ghost use Rattle.object_heap.specs.Fits.{Rules, Fits, AllFit, AnswerFits};
ghost use Rattle.container_calls.specs.Answers.{FamilyWants, WantsMemory};
ghost use Rattle.container_calls.specs.Members as spec;
ghost use Rattle.container_calls.specs.Members.{does_container};

use crate::family::{Family, family_of, is_on_list};
use object_heap::{Answer, Heap};
use object_values::Value;

fn act_of(family: Family, number: u32, heap: &mut Heap, args: &[Value]) -> Answer
    ensures does { Answers (spec.act_of family heap.old number args.now) heap.old heap.new result }
    ensures memory { FamilyWants family heap.old.objects number args.now result }
    ensures keeps { (rules : Rules) → Fits rules heap.old.objects → AllFit (length heap.old.objects) args.now → AnswerFits rules heap.new result }
{
    match family {
        Family::Iterables => api_iter::call(number, heap, args),
        Family::Lists => api_list::call(number, heap, args),
        Family::Maps => api_map::call(number, heap, args),
    }
}

/// The call of a member of a container that is built, by its number in the catalogue. The receiver is the first argument; a
/// constructor and a static member have none. A member of Collection acts on a list by a function of lists, and on a set or a view by
/// one of these. A number that is no such member's gives null, and an argument that is missing or of another kind counts as null.
///
/// `Thrown`: by `docs/CATALOGUE.md`, as the member says. `Room`: the charge is above the room left; it is for a text its units
/// and 1, for a new object its weight, and for an object that changes what it grows by. `NoMemory`: there was none for what is
/// made, added or copied; a member that only reads, or takes out what is no text, takes none.
pub fn call(number: u32, heap: &mut Heap, args: &[Value]) -> Answer
    ensures does { Answers (does_container heap.old number args.now) heap.old heap.new result }
    ensures memory { WantsMemory heap.old.objects number args.now result }
    ensures keeps { (rules : Rules) → Fits rules heap.old.objects → AllFit (length heap.old.objects) args.now → AnswerFits rules heap.new result }
{
    let family = family_of(is_on_list(heap, args), number);
    act_of(family, number, heap, args)
}
