//! A call of an interface's method on a function value.
ghost use Rattle.std.specs.Prelude.{◌≡◌, [], ◌∷◌};
ghost use Rattle.function_calls.specs.Applying as spec;
ghost use Rattle.function_calls.specs.Coming.{ComesAs, listed};

use crate::called::Dues;
use crate::resolved::Resolved;
use crate::stage::{Staged, stage};
use crate::texts::Texts;
use allowlist::Allow;
use def_resolve::throw_unfit;
use object_heap::Heap;
use object_values::{Elements, Owner, Value};
use pl_types::Ty;

// The last function value of a chain of references.
fn apply_last(
    texts: &Texts,
    allow: &Allow,
    heap: &mut Heap,
    values: &mut Elements<Value>,
    dues: Dues,
) -> Resolved
    ensures { ComesAs texts.now allow.now heap.old (spec.applied_within 1 texts.now allow.now (listed dues) [] heap.old values.old) heap.new values.new result }
{
    match stage(texts, allow, heap, &[], values) {
        Staged::Lands(called) => Resolved::Calls(called, Owner::Script, dues),
        Staged::Moves(_method) => Resolved::Acts(throw_unfit(heap)),
        Staged::Stops(answer) => Resolved::Acts(answer),
    }
}

// A function value that a reference calls.
fn apply_next(
    texts: &Texts,
    allow: &Allow,
    heap: &mut Heap,
    values: &mut Elements<Value>,
    last: u32,
    before: u32,
) -> Resolved
    ensures { ComesAs texts.now allow.now heap.old (spec.applied_within 2 texts.now allow.now (last ∷ before ∷ []) [] heap.old values.old) heap.new values.new result }
{
    match stage(texts, allow, heap, &[], values) {
        Staged::Lands(called) => Resolved::Calls(called, Owner::Script, Dues::Two(last, before)),
        Staged::Moves(method) => {
            apply_last(
                texts,
                allow,
                heap,
                values,
                Dues::Three(method, last, before),
            )
        }
        Staged::Stops(answer) => Resolved::Acts(answer),
    }
}

/// What a call of an interface's method comes to on the first of these values, which is a function value, with the others. By a
/// reference to an interface's method the first argument is called with those behind it. These types are those of the method's parameters
/// where the call is resolved when it runs, and none where it was typed, since the arguments are of them already. The list is the script's.
///
/// `Calls`: what is called takes the values as they are now; a lambda takes what it captured first. `Acts`: what was thrown: of null, and
/// of a receiver that is null, NullPointerException; of what is no function value with an interface ClassCastException; where nothing
/// takes so many arguments what [`throw_unfit`] throws, and where the script of a lambda has ended what
/// [`throw_gone`](def_resolve::throw_gone) does, both before an argument is cast; and what the first argument throws that is not passed.
/// The interfaces that arguments took before are taken then.
pub fn apply(
    texts: &Texts,
    allow: &Allow,
    heap: &mut Heap,
    method: u32,
    first: &[Ty],
    values: &mut Elements<Value>,
) -> Resolved
    ensures { ComesAs texts.now allow.now heap.old (spec.applied texts.now allow.now method first.now heap.old values.old) heap.new values.new result }
{
    match stage(texts, allow, heap, first, values) {
        Staged::Lands(called) => Resolved::Calls(called, Owner::Script, Dues::One(method)),
        Staged::Moves(last) => apply_next(texts, allow, heap, values, last, method),
        Staged::Stops(answer) => Resolved::Acts(answer),
    }
}
