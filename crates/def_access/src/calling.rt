//! A call of a method by its name, on a value whose class is found when the script runs.
ghost use Rattle.std.specs.Prelude.{◌≡◌, true, Some, IfSome};
ghost use Rattle.allowlist.specs.Allow.{flag};
ghost use Rattle.allowlist.specs.Index.{member_in};
ghost use Rattle.def_access.specs.Access as spec;
ghost use Rattle.def_access.specs.Coming as coming;
ghost use Rattle.def_access.specs.Coming.{ActsAs, CalleeListed, ComesOn};

use crate::accessed::Accessed;
use crate::casting::cast_all;
use allowlist::{Allow, MemberType};
use container_ops::on_null;
use def_resolve::{Callee, class_of, resolve, throw_no_method};
use member_calls::is_built;
use object_heap::{Answer, Heap};
use object_values::Value;

// The member of a list with a number, which the list allows.
pub(crate) fn member_at(allow: &Allow, number: u32) -> &MemberType
    requires { flag allow.now.members number ≡ true }
    ensures { result.now ≡ member_in allow.now number }
{
    allow.member_type(number)
}

// What a method comes to that is not found.
fn not_found(heap: &mut Heap, name: &str, values: &[Value]) -> Answer
    ensures { ActsAs (coming.not_found_on heap.old name.now values.now) heap.old heap.new result }
{
    let [receiver, arguments @ ..] = values else {
        return on_null(heap);
    };
    match u32::try_from(arguments.len()) {
        Ok(arity) => throw_no_method(heap, receiver, name, arity),
        Err(_) => Answer::NoMemory,
    }
}

// A member that is built.
fn call_built(allow: &Allow, heap: &mut Heap, values: &mut [Value], number: u32) -> Accessed
    requires { flag allow.now.members number ≡ true }
    ensures { ComesOn (coming.built_on allow.now heap.old number values.old) heap.old heap.new values.new result }
{
    if values.is_empty() {
        return Accessed::Acts(on_null(heap));
    }
    match cast_all(heap, member_at(allow, number).params.as_slice(), values) {
        Some(answer) => Accessed::Acts(answer),
        None => Accessed::Calls(number),
    }
}

fn call_member(
    allow: &Allow,
    heap: &mut Heap,
    name: &str,
    values: &mut [Value],
    number: u32,
) -> Accessed
    requires { flag allow.now.members number ≡ true }
    ensures { ComesOn (coming.called_on allow.now heap.old name.now values.old (Some (Callee.Member number))) heap.old heap.new values.new result }
{
    if is_built(number) {
        call_built(allow, heap, values, number)
    } else {
        Accessed::Acts(not_found(heap, name, values))
    }
}

/// What a call comes to, by what [`resolve`] has found for it, which a caller may have kept: `x.f(a)`. The values are the receiver and
/// the arguments, which are cast in place to the types of the parameters.
///
/// `Calls`: the member takes the values as they are now. `Acts`: what was thrown, as [`method_called`] says.
pub fn call_found(
    allow: &Allow,
    heap: &mut Heap,
    name: &str,
    values: &mut [Value],
    found: Option<Callee>,
) -> Accessed
    requires { CalleeListed allow.now found }
    ensures { ComesOn (coming.called_on allow.now heap.old name.now values.old found) heap.old heap.new values.new result }
{
    match found {
        Some(Callee::Member(number)) => call_member(allow, heap, name, values, number),
        Some(Callee::Iface(_)) => Accessed::Acts(not_found(heap, name, values)),
        None => Accessed::Acts(not_found(heap, name, values)),
    }
}

// What a call on a value means, by the number of its arguments.
fn target_for(allow: &Allow, class: Option<u32>, name: &str, arity: u32) -> Option<Callee>
    ensures exact { result ≡ spec.target_for allow.now name.now arity class }
    ensures listed { CalleeListed allow.now result }
{
    match class {
        Some(class) => resolve(allow, class, name, arity),
        None => None,
    }
}

// What a call on the first of these values means; none where they are more than are counted.
fn found_on(allow: &Allow, heap: &Heap, name: &str, values: &[Value]) -> Option<Option<Callee>>
    ensures exact { IfSome result (λ found. found ≡ coming.found_on allow.now heap.now.objects name.now values.now) }
    ensures listed { IfSome result (CalleeListed allow.now) }
{
    match values {
        [receiver, arguments @ ..] => match u32::try_from(arguments.len()) {
            Ok(arity) => Some(target_for(allow, class_of(heap, receiver), name, arity)),
            Err(_) => None,
        },
        [] => Some(None),
    }
}

/// What a call comes to: `x.f(a)`. The values are the receiver and the arguments, which are cast in place to the types of the
/// parameters, from the left.
///
/// `Calls`: the member takes the values as they are now. `Acts`: what was thrown: of null NullPointerException; where nothing is found
/// what [`throw_no_method`] throws; what the first cast throws that gives no value. `NoMemory`: there was none for that.
#[tactic(auto, unfolding(crate::specs::Access::method_called))]
pub fn method_called(allow: &Allow, heap: &mut Heap, name: &str, values: &mut [Value]) -> Accessed
    ensures { ComesOn (coming.method_called_on allow.now heap.old name.now values.old) heap.old heap.new values.new result }
{
    match found_on(allow, heap, name, values) {
        Some(found) => call_found(allow, heap, name, values, found),
        None => Accessed::Acts(Answer::NoMemory),
    }
}
