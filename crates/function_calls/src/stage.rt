//! One function value that is called: what it calls, with the casts of the arguments.
ghost use Rattle.std.specs.Prelude.{◌≡◌, ◌++◌, ◌∷◌, IfOk, OnOk, drop, slice_get};
ghost use Rattle.pl_types.specs.declared.ty.Ty.TheVariants as ty;
ghost use Rattle.object_heap.specs.Store.{Store};
ghost use Rattle.function_calls.specs.Applying as spec;
ghost use Rattle.function_calls.specs.Coming.{AimListed, LandsAs, PassesAs, RefusesAs, StagesAs};
ghost use Rattle.function_calls.specs.Passing as arguments;
ghost use Rattle.function_calls.specs.Passing.{passed_from, passed_twice};
ghost use Rattle.function_calls.specs.Targets.{own_types};

use crate::aim::{Aim, Doing, aim_of, member_at};
use crate::called::Called;
use crate::passing::{pass_at, pass_from};
use crate::texts::Texts;
use allowlist::Allow;
use container_ops::{on_null, on_other_kind};
use container_outcomes::copied;
use def_resolve::{throw_gone, throw_unfit};
use object_heap::{Answer, Heap};
use object_values::{Elements, Owner, Value};
use pl_types::{Primitive, Ty};
use std::alloc::AllocError;

/// What one function value comes to.
#[derive(Drop)]
pub enum Staged {
    /// This is called with the values as they are now.
    Lands(Called),
    /// The method of this number is called on the first of the values as they are now.
    Moves(u32),
    /// What was thrown.
    Stops(Answer),
}

// ---- before the call

// What is thrown for want of a target.
fn refuse(heap: &mut Heap, aim: &Aim) -> Option<Answer>
    ensures { RefusesAs heap.old (spec.refusal heap.old aim.now) heap.new result }
{
    match aim {
        Aim::Null => Some(on_null(heap)),
        Aim::NoFunction => Some(on_other_kind(heap)),
        Aim::Unfit => Some(throw_unfit(heap)),
        Aim::Gone => Some(throw_gone(heap)),
        Aim::Lambda(_, _) => None,
        Aim::Static(_, _) => None,
        Aim::Instance(_, _, _) => None,
        Aim::Array(_) => None,
    }
}

// A receiver, to its class.
fn pass_receiver(
    texts: &Texts,
    allow: &Allow,
    heap: &mut Heap,
    class: u32,
    values: &mut Elements<Value>,
) -> Option<Answer>
    ensures { PassesAs texts.now allow.now heap.old (arguments.passed_there texts.now allow.now heap.old (ty.Class class) values.old 1 (slice_get values.old 1) arguments.All) heap.new values.new result }
{
    let of = Ty::Class(class);
    pass_at(texts, allow, heap, &of, values, 1)
}

// A receiver, to its class, and then the arguments.
fn pass_received(
    texts: &Texts,
    allow: &Allow,
    heap: &mut Heap,
    class: u32,
    params: &[Ty],
    values: &mut Elements<Value>,
) -> Option<Answer>
    ensures { PassesAs texts.now allow.now heap.old (passed_from texts.now allow.now (ty.Class class ∷ params.now) 1 heap.old values.old) heap.new values.new result }
{
    match pass_receiver(texts, allow, heap, class, values) {
        Some(answer) => Some(answer),
        None => pass_from(texts, allow, heap, params, 2, values),
    }
}

// The arguments, to the types of what is called.
fn pass_own(
    texts: &Texts,
    allow: &Allow,
    heap: &mut Heap,
    aim: &Aim,
    values: &mut Elements<Value>,
) -> Option<Answer>
    requires { AimListed allow.now aim.now }
    ensures { PassesAs texts.now allow.now heap.old (passed_from texts.now allow.now (own_types allow.now aim.now) 1 heap.old values.old) heap.new values.new result }
{
    match aim {
        Aim::Static(number, _) => {
            let params = member_at(allow, *number).params.as_slice();
            pass_from(texts, allow, heap, params, 1, values)
        }
        Aim::Instance(class, number, _) => {
            let params = member_at(allow, *number).params.as_slice();
            pass_received(texts, allow, heap, *class, params, values)
        }
        Aim::Array(_) => {
            let params = [Ty::Prim(Primitive::Int)];
            pass_from(texts, allow, heap, &params, 1, values)
        }
        Aim::Lambda(_, _) => None,
        Aim::Null => None,
        Aim::NoFunction => None,
        Aim::Unfit => None,
        Aim::Gone => None,
    }
}

// The arguments, to the types of the interface's method and then to those of what is called.
fn pass_twice(
    texts: &Texts,
    allow: &Allow,
    heap: &mut Heap,
    first: &[Ty],
    aim: &Aim,
    values: &mut Elements<Value>,
) -> Option<Answer>
    requires { AimListed allow.now aim.now }
    ensures { PassesAs texts.now allow.now heap.old (passed_twice texts.now allow.now first.now (own_types allow.now aim.now) heap.old values.old) heap.new values.new result }
{
    match pass_from(texts, allow, heap, first, 1, values) {
        Some(answer) => Some(answer),
        None => pass_own(texts, allow, heap, aim, values),
    }
}

// ---- the call

// What is called goes without the function value that calls it.
fn drop_first(values: &mut Elements<Value>)
    ensures { values.new ≡ drop 1 values.old }
{
    if values.len() > 0 {
        let _function = values.remove(0);
    }
}

fn captured_in(heap: &Heap, function: &Value) -> Result<Elements<Value>, AllocError>
    ensures { IfOk result (λ captured. captured ≡ spec.captured_in heap.now.objects function.now) }
{
    match function {
        Value::Ref(id) => copied(heap.alloc(), heap.captures(*id)),
        _ => Ok(Elements::new(heap.alloc())),
    }
}

fn captured_by(heap: &Heap, values: &[Value]) -> Result<Elements<Value>, AllocError>
    ensures { IfOk result (λ captured. captured ≡ spec.captured_by heap.now.objects values.now) }
{
    match values {
        [function, ..] => captured_in(heap, function),
        [] => Ok(Elements::new(heap.alloc())),
    }
}

// What a lambda captured comes in the place of the function value.
fn put_captured(heap: &Heap, values: &mut Elements<Value>) -> Result<(), AllocError>
    ensures { OnOk result (values.new ≡ spec.captured_by heap.now.objects values.old ++ drop 1 values.old) }
{
    let captured = captured_by(heap, values.as_slice())?;
    drop_first(values);
    let front = 0;
    values.insert_all(front, captured)
}

fn lacks_receiver(values: &[Value]) -> bool
    ensures { result ≡ spec.lacks_receiver values.now }
{
    match values.get(1) {
        Some(Value::Null) => true,
        _ => false,
    }
}

fn done(number: u32, values: &mut Elements<Value>, doing: Doing) -> Staged
    ensures { (store : Store) → LandsAs store (spec.done number store values.old doing) store values.new result }
{
    drop_first(values);
    match doing {
        Doing::Itself => Staged::Lands(Called::Member(number)),
        Doing::Prelude(function) => Staged::Lands(Called::Work(number, function)),
        Doing::Receiver => Staged::Moves(number),
    }
}

fn done_unless(
    heap: &mut Heap,
    lacks: bool,
    number: u32,
    values: &mut Elements<Value>,
    doing: Doing,
) -> Staged
    ensures { LandsAs heap.old (spec.done_unless lacks number heap.old values.old doing) heap.new values.new result }
{
    if lacks {
        Staged::Stops(on_null(heap))
    } else {
        done(number, values, doing)
    }
}

fn land_lambda(heap: &Heap, owner: Owner, number: u32, values: &mut Elements<Value>) -> Staged
    ensures { LandsAs heap.now (spec.landed (Aim.Lambda owner number) heap.now values.old) heap.now values.new result }
{
    match put_captured(heap, values) {
        Ok(()) => Staged::Lands(Called::Lambda(owner, number)),
        Err(_) => Staged::Stops(Answer::NoMemory),
    }
}

// What is aimed at is called, with its values.
fn land(heap: &mut Heap, aim: Aim, values: &mut Elements<Value>) -> Staged
    ensures { LandsAs heap.old (spec.landed aim heap.old values.old) heap.new values.new result }
{
    match aim {
        Aim::Lambda(owner, number) => land_lambda(heap, owner, number, values),
        Aim::Static(number, doing) => done(number, values, doing),
        Aim::Instance(_, number, doing) => {
            let lacks = lacks_receiver(values.as_slice());
            done_unless(heap, lacks, number, values, doing)
        }
        Aim::Array(made) => {
            drop_first(values);
            Staged::Lands(Called::Array(made))
        }
        Aim::Null => Staged::Stops(on_other_kind(heap)),
        Aim::NoFunction => Staged::Stops(on_other_kind(heap)),
        Aim::Unfit => Staged::Stops(on_other_kind(heap)),
        Aim::Gone => Staged::Stops(on_other_kind(heap)),
    }
}

// What is aimed at, once nothing is refused.
fn stage_passed(
    texts: &Texts,
    allow: &Allow,
    heap: &mut Heap,
    first: &[Ty],
    values: &mut Elements<Value>,
    aim: Aim,
) -> Staged
    requires { AimListed allow.now aim }
    ensures { StagesAs texts.now allow.now heap.old (spec.after_casts aim (passed_twice texts.now allow.now first.now (own_types allow.now aim) heap.old values.old)) heap.new values.new result }
{
    match pass_twice(texts, allow, heap, first, &aim, values) {
        Some(answer) => Staged::Stops(answer),
        None => land(heap, aim, values),
    }
}

fn stage_at(
    texts: &Texts,
    allow: &Allow,
    heap: &mut Heap,
    first: &[Ty],
    values: &mut Elements<Value>,
    aim: Aim,
) -> Staged
    requires { AimListed allow.now aim }
    ensures { StagesAs texts.now allow.now heap.old (spec.aimed texts.now allow.now first.now heap.old values.old aim) heap.new values.new result }
{
    match refuse(heap, &aim) {
        Some(answer) => Staged::Stops(answer),
        None => stage_passed(texts, allow, heap, first, values, aim),
    }
}

/// What the first of these values calls with the others, which are passed to these types first.
pub(crate) fn stage(
    texts: &Texts,
    allow: &Allow,
    heap: &mut Heap,
    first: &[Ty],
    values: &mut Elements<Value>,
) -> Staged
    ensures { StagesAs texts.now allow.now heap.old (spec.stage texts.now allow.now first.now heap.old values.old) heap.new values.new result }
{
    match aim_of(texts, allow, heap, values.as_slice()) {
        Ok(aim) => stage_at(texts, allow, heap, first, values, aim),
        Err(_) => Staged::Stops(Answer::NoMemory),
    }
}
