//! Interfaces that function values take from the parameters that they meet.
ghost use Rattle.std.specs.Prelude.{◌≡◌, Some, true, IfSome, slice_get};
ghost use Rattle.pl_types.specs.declared.ty.Ty.{out-Ty};
ghost use Rattle.object_values.specs.declared.value.Value.TheVariants as v;
ghost use Rattle.object_heap.specs.Effects.{Answers, Gives};
ghost use Rattle.function_calls.specs.Coming.{IsRenewal};
ghost use Rattle.function_calls.specs.Passing as spec;

use crate::texts::{Texts, parameters_in};
use allowlist::Allow;
use container_outcomes::copied;
use def_resolve::{fits, throw_unfit};
use object_heap::{Answer, Heap};
use object_values::{Object, Target, Value};
use pl_types::Ty;

/// Whether an object is a function value that has taken no interface.
pub(crate) fn is_loose(heap: &Heap, id: u32) -> bool
    ensures { result ≡ spec.is_loose (slice_get heap.now.objects id) }
{
    match heap.get(id) {
        Some(Object::Fun { iface: None, .. }) => true,
        _ => false,
    }
}

// How many parameters are told of a target.
fn told_of(texts: &Texts, target: &Target) -> Option<u32>
    ensures { result ≡ spec.told_of texts.now target.now }
{
    match target {
        Target::Lambda(owner, number) => parameters_in(texts, *owner, *number),
        Target::Member(_, _) => Some(0),
        Target::New(_) => Some(0),
        Target::Gone => Some(0),
    }
}

fn fits_told(allow: &Allow, object: &Object, iface: u32, told: Option<u32>) -> bool
    ensures { result ≡ spec.fits_told allow.now object.now iface told }
{
    match told {
        Some(parameters) => fits(allow, object, parameters, iface),
        None => false,
    }
}

fn object_takes(texts: &Texts, allow: &Allow, iface: u32, object: &Object) -> bool
    ensures { result ≡ spec.takes texts.now allow.now iface (Some object.now) }
{
    match object {
        Object::Fun { target, .. } => fits_told(allow, object, iface, told_of(texts, target)),
        _ => false,
    }
}

fn takes(texts: &Texts, allow: &Allow, heap: &Heap, iface: u32, id: u32) -> bool
    ensures { result ≡ spec.takes texts.now allow.now iface (slice_get heap.now.objects id) }
{
    match heap.get(id) {
        Some(object) => object_takes(texts, allow, iface, object),
        None => false,
    }
}

// A function value that has no interface, with one.
fn with_iface(heap: &Heap, object: &Object, iface: u32) -> Option<Object>
    ensures { IfSome result (λ after. IsRenewal iface (Some object.now) after) }
{
    let Object::Fun {
        iface: None,
        target,
        captures,
    } = object
    else {
        return None;
    };
    let target = target.share(heap.alloc()).ok()?;
    let captures = copied(heap.alloc(), captures.as_slice()).ok()?;
    Some(Object::Fun {
        iface: Some(iface),
        target,
        captures,
    })
}

fn renewal(heap: &Heap, id: u32, iface: u32) -> Option<Object>
    ensures { IfSome result (λ after. IsRenewal iface (slice_get heap.now.objects id) after) }
{
    match heap.get(id) {
        Some(object) => with_iface(heap, object, iface),
        None => None,
    }
}

// A function value is replaced by itself with an interface.
fn renew(heap: &mut Heap, id: u32, iface: u32, after: Object) -> Answer
    requires { IsRenewal iface (slice_get heap.old.objects id) after }
    ensures { Answers (Gives (v.Ref id) (spec.taken heap.old id iface)) heap.old heap.new result }
{
    if heap.renew(id, after) {
        Answer::Value(Value::Ref(id))
    } else {
        Answer::Room
    }
}

// A function value takes an interface, in its place.
fn take(heap: &mut Heap, id: u32, iface: u32) -> Answer
    ensures { Answers (Gives (v.Ref id) (spec.taken heap.old id iface)) heap.old heap.new result }
{
    match renewal(heap, id, iface) {
        Some(after) => renew(heap, id, iface, after),
        None => Answer::NoMemory,
    }
}

// The interface that a type is.
fn wanted(of: &Ty) -> Option<u32>
    ensures { result ≡ spec.wanted_layer (out-Ty of.now) }
{
    match of {
        Ty::Class(class) => Some(*class),
        Ty::Array(_) => None,
        Ty::Void => None,
        Ty::Null => None,
        Ty::Def => None,
        Ty::Prim(_) => None,
    }
}

fn take_if(heap: &mut Heap, id: u32, iface: u32, takes: bool) -> Answer
    ensures { Answers (spec.taken_if heap.old id iface takes) heap.old heap.new result }
{
    if takes {
        take(heap, id, iface)
    } else {
        throw_unfit(heap)
    }
}

fn take_as(texts: &Texts, allow: &Allow, heap: &mut Heap, id: u32, iface: Option<u32>) -> Answer
    ensures { Answers (spec.takes_as texts.now allow.now heap.old id iface) heap.old heap.new result }
{
    match iface {
        Some(iface) => {
            let fits = takes(texts, allow, heap, iface, id);
            take_if(heap, id, iface, fits)
        }
        None => throw_unfit(heap),
    }
}

/// A function value without an interface takes that of the parameter that it meets, in its place. Where that is none, or the method of
/// it is called with another number of arguments, an IllegalArgumentException `function does not fit` is thrown.
pub(crate) fn take_of(texts: &Texts, allow: &Allow, heap: &mut Heap, of: &Ty, id: u32) -> Answer
    ensures { Answers (spec.takes_as texts.now allow.now heap.old id (spec.wanted_layer (out-Ty of.now))) heap.old heap.new result }
{
    take_as(texts, allow, heap, id, wanted(of))
}
