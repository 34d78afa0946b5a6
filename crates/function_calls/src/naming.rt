//! A call of a method by its name, on a value whose class is found when the call runs.
ghost use Rattle.std.specs.Prelude.{◌≡◌, ◌<◌, true, Some, IfSome, length};
ghost use Rattle.allowlist.specs.Allow.{AllowList, flag};
ghost use Rattle.allowlist.specs.Index.{member_at};
ghost use Rattle.object_heap.specs.Effects.{Answers};
ghost use Rattle.def_access.specs.Access.{target_for};
ghost use Rattle.def_access.specs.Coming.{found_on};
ghost use Rattle.function_calls.specs.declared.texts.Texts as declared;
ghost use Rattle.function_calls.specs.Applying as spec;
ghost use Rattle.function_calls.specs.Applying.{Fails};
ghost use Rattle.function_calls.specs.Coming.{CalleeListed, ComesAs};

use crate::aim::{Doing, doing_of, member_at};
use crate::applying::apply;
use crate::called::{Called, Dues};
use crate::passing::pass_from;
use crate::resolved::Resolved;
use crate::texts::Texts;
use allowlist::{Allow, MemberType};
use container_ops::on_null;
use def_resolve::{Callee, class_of, resolve, throw_no_method};
use object_heap::{Answer, Heap};
use object_values::{Elements, Owner, Value};

/// The interface's method with a number, which every list knows.
pub(crate) fn method_at(allow: &Allow, method: u32) -> &MemberType
    requires { method < length allow.now.members }
    ensures { result.now ≡ member_at method }
{
    allow.member_type(method)
}

fn not_found_on(heap: &mut Heap, name: &str, values: &[Value]) -> Answer
    ensures { Answers (spec.not_found heap.old name.now values.now) heap.old heap.new result }
{
    let [receiver, arguments @ ..] = values else {
        return on_null(heap);
    };
    match u32::try_from(arguments.len()) {
        Ok(arity) => throw_no_method(heap, receiver, name, arity),
        Err(_) => Answer::NoMemory,
    }
}

// What a method comes to that is not found, by whatever texts and list.
fn not_found(heap: &mut Heap, name: &str, values: &Elements<Value>) -> Resolved
    ensures { (texts : declared.Texts) (allow : AllowList) → ComesAs texts allow heap.old (Fails heap.old (spec.not_found heap.old name.now values.now)) heap.new values.now result }
{
    Resolved::Acts(not_found_on(heap, name, values.as_slice()))
}

// What is called by its name, once its arguments are passed.
fn pass_direct(
    texts: &Texts,
    allow: &Allow,
    own: &Allow,
    text: Owner,
    heap: &mut Heap,
    values: &mut Elements<Value>,
    number: u32,
    called: Called,
) -> Resolved
    requires { flag own.now.members number ≡ true }
    ensures { ComesAs texts.now allow.now heap.old (spec.direct text called (spec.member_passed texts.now allow.now own.now heap.old values.old number)) heap.new values.new result }
{
    match pass_from(
        texts,
        allow,
        heap,
        member_at(own, number).params.as_slice(),
        1,
        values,
    ) {
        Some(answer) => Resolved::Acts(answer),
        None => Resolved::Calls(called, text, Dues::Nothing),
    }
}

fn call_done(
    texts: &Texts,
    allow: &Allow,
    own: &Allow,
    text: Owner,
    heap: &mut Heap,
    name: &str,
    values: &mut Elements<Value>,
    number: u32,
    doing: Option<Doing>,
) -> Resolved
    requires { flag own.now.members number ≡ true }
    ensures { ComesAs texts.now allow.now heap.old (spec.member_done texts.now allow.now own.now text heap.old name.now values.old number doing) heap.new values.new result }
{
    match doing {
        Some(Doing::Itself) => {
            let called = Called::Member(number);
            pass_direct(texts, allow, own, text, heap, values, number, called)
        }
        Some(Doing::Prelude(function)) => {
            let called = Called::Work(number, function);
            pass_direct(texts, allow, own, text, heap, values, number, called)
        }
        Some(Doing::Receiver) => not_found(heap, name, values),
        None => not_found(heap, name, values),
    }
}

/// What a call comes to by what [`resolve`] has found for it in the list of the text that calls, which a caller may have kept.
///
/// `Calls`, `Acts`: as [`call_named`] says.
pub fn call_found(
    texts: &Texts,
    allow: &Allow,
    own: &Allow,
    text: Owner,
    heap: &mut Heap,
    name: &str,
    values: &mut Elements<Value>,
    found: Option<Callee>,
) -> Resolved
    requires { CalleeListed own.now found }
    ensures { ComesAs texts.now allow.now heap.old (spec.called_on texts.now allow.now own.now text heap.old name.now values.old found) heap.new values.new result }
{
    match found {
        Some(Callee::Member(number)) => {
            let doing = doing_of(texts, own, values.len(), number);
            call_done(texts, allow, own, text, heap, name, values, number, doing)
        }
        Some(Callee::Iface(number)) => {
            let first = method_at(own, number).params.as_slice();
            apply(texts, allow, heap, number, first, values)
        }
        None => not_found(heap, name, values),
    }
}

// What a name means on a class, by the number of arguments.
fn target_for(own: &Allow, class: Option<u32>, name: &str, arity: u32) -> Option<Callee>
    ensures exact { result ≡ target_for own.now name.now arity class }
    ensures listed { CalleeListed own.now result }
{
    let _ = own.member_count();
    match class {
        Some(class) => resolve(own, class, name, arity),
        None => None,
    }
}

// What a name means on the first of these values; none where they are more than are counted.
fn found_on(own: &Allow, heap: &Heap, name: &str, values: &[Value]) -> Option<Option<Callee>>
    ensures exact { IfSome result (λ found. found ≡ found_on own.now heap.now.objects name.now values.now) }
    ensures listed { IfSome result (CalleeListed own.now) }
{
    match values {
        [receiver, arguments @ ..] => match u32::try_from(arguments.len()) {
            Ok(arity) => Some(target_for(own, class_of(heap, receiver), name, arity)),
            Err(_) => None,
        },
        [] => Some(None),
    }
}

/// What a call of a method by its name comes to on the first of these values with the others: `x.f(a)`. The first list is the script's,
/// in which references are looked for wherever they are called; the other is that of the text in which the call stands.
///
/// `Calls`: what is called takes the values as they are now. By its name a member is called, with no cast that is due; on a function
/// value it is what that stands for, as [`apply`] says, with the arguments passed to the types of its interface's method. `Acts`: what
/// was thrown: of null NullPointerException; where nothing is found what [`throw_no_method`] throws; what [`apply`] throws; and what the
/// first argument throws that is not passed. The interfaces that arguments took before are taken then.
#[tactic(auto, unfolding(crate::specs::Applying::named))]
pub fn call_named(
    texts: &Texts,
    allow: &Allow,
    own: &Allow,
    text: Owner,
    heap: &mut Heap,
    name: &str,
    values: &mut Elements<Value>,
) -> Resolved
    ensures { ComesAs texts.now allow.now heap.old (spec.named texts.now allow.now own.now text heap.old name.now values.old) heap.new values.new result }
{
    match found_on(own, heap, name, values.as_slice()) {
        Some(found) => call_found(texts, allow, own, text, heap, name, values, found),
        None => Resolved::Acts(Answer::NoMemory),
    }
}
