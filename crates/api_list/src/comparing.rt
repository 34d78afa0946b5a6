//! Natural order of two values, which the prelude asks for.
ghost use Rattle.object_heap.specs.Effects.{Answers};
ghost use Rattle.object_heap.specs.Fits.{Rules, Fits, AnswerFits};
ghost use Rattle.number_ops.specs.Members.{compare_of};
ghost use Rattle.number_ops.specs.Outcomes.{WantsMemory, effect};

use object_heap::{Answer, Heap};
use object_values::Value;

/// The number of `Comparable.compareTo(def)` in the catalogue.
pub const COMPARE_TO: u32 = 2;

/// `compare(def, def)` of the prelude's class: natural order, as `compareTo` gives it, of the two arguments. Neither is a receiver, and
/// either may be null. An argument that is missing counts as null.
///
/// `Thrown`: NullPointerException where one of the two is null, and else ClassCastException `Cannot compare [C] and [D]` where they are
/// not of one class of those that have a natural order. `Room`: there is none for the exception. `NoMemory`: there was none for it; an
/// order that is given takes none.
pub fn compare(heap: &mut Heap, args: &[Value]) -> Answer
    ensures does { Answers (effect heap.old (compare_of heap.old.objects args.now)) heap.old heap.new result }
    ensures memory { WantsMemory (compare_of heap.old.objects args.now) result }
    ensures keeps { (rules : Rules) → Fits rules heap.old.objects → AnswerFits rules heap.new result }
{
    number_ops::call(COMPARE_TO, heap, args)
}
