//! What a function value calls, by how many arguments come.
ghost use Rattle.std.specs.Prelude.{◌≡◌, ◌+◌, ◌∷◌, Some, true, IfOk, slice_get};
ghost use Rattle.pl_types.specs.declared.ty.Ty.{out-Ty};
ghost use Rattle.allowlist.specs.Allow.{flag};
ghost use Rattle.allowlist.specs.Index.{member_in};
ghost use Rattle.def_resolve.specs.Functions.{constructor_of, reference_of};
ghost use Rattle.function_calls.specs.Coming.{AimListed, MemberListed, ReferenceListed};
ghost use Rattle.function_calls.specs.Targets as spec;

use crate::texts::{Texts, function_in, is_count, parameters_in};
use allowlist::{Allow, MemberType};
use def_access::is_built;
use def_resolve::{Reference, constructor_of, reference_of};
use object_heap::Heap;
use object_values::{Object, Owner, Target, Value};
use pl_types::Ty;
use plain_data::Boxed;
use std::alloc::{AllocError, Global};

/// Who does what a member does.
#[derive(Clone, Copy)]
pub enum Doing {
    /// The member.
    Itself,
    /// A function of the prelude's text, by its number.
    Prelude(u32),
    /// The receiver: the member is its interface's method.
    Receiver,
}

/// What the first of some values calls with the others.
#[derive(Drop)]
pub enum Aim {
    /// A lambda.
    Lambda(Owner, u32),
    /// A static member or a constructor.
    Static(u32, Doing),
    /// An instance member, and the class that its receiver is cast to, which comes first.
    Instance(u32, u32, Doing),
    /// The making of an array.
    Array(Boxed<Ty>),
    /// Nothing that takes so many arguments.
    Unfit,
    /// Nothing any more.
    Gone,
    /// There is none, or it is null.
    Null,
    /// It is no function value, or one that has taken no interface.
    NoFunction,
}

/// The member of a list with a number, which the list allows.
pub(crate) fn member_at(allow: &Allow, number: u32) -> &MemberType
    requires { flag allow.now.members number ≡ true }
    ensures { result.now ≡ member_in allow.now number }
{
    allow.member_type(number)
}

fn is_same(found: Option<u32>, number: u32) -> bool
    ensures { result ≡ spec.is_same found number }
{
    match found {
        Some(method) => method == number,
        None => false,
    }
}

// Whether a member is the one method of its interface.
fn is_method(allow: &Allow, number: u32) -> bool
    requires { flag allow.now.members number ≡ true }
    ensures { result ≡ spec.is_method allow.now number }
{
    is_same(allow.iface_method(member_at(allow, number).owner), number)
}

fn done_by_work(function: u32, takes: bool) -> Option<Doing>
    ensures { result ≡ spec.done_by_work function takes }
{
    if takes {
        Some(Doing::Prelude(function))
    } else {
        None
    }
}

fn done_by_method(is: bool) -> Option<Doing>
    ensures { result ≡ spec.done_by_method is }
{
    if is { Some(Doing::Receiver) } else { None }
}

// Who does what a member does that does not act itself.
fn done_elsewhere(
    texts: &Texts,
    allow: &Allow,
    count: usize,
    number: u32,
    work: Option<u32>,
) -> Option<Doing>
    requires { flag allow.now.members number ≡ true }
    ensures { result ≡ spec.done_elsewhere texts.now allow.now count number work }
{
    match work {
        Some(function) => {
            let parameters = parameters_in(texts, Owner::Prelude, function);
            done_by_work(function, is_count(parameters, count))
        }
        None => done_by_method(is_method(allow, number)),
    }
}

/// Who does what a member does that is called with so many values, the receiver among them. `None`: nobody.
#[tactic(auto, unfolding(crate::specs::Targets::doing_of))]
pub(crate) fn doing_of(texts: &Texts, allow: &Allow, count: usize, number: u32) -> Option<Doing>
    requires { flag allow.now.members number ≡ true }
    ensures { result ≡ spec.doing_of texts.now allow.now count number }
{
    if is_built(number) {
        return Some(Doing::Itself);
    }
    let work = function_in(texts.works.as_slice(), number);
    done_elsewhere(texts, allow, count, number, work)
}

// ---- targets

// Whether a lambda takes what it captured and so many arguments.
fn is_sum(parameters: Option<u32>, captured: usize, count: u32) -> bool
    ensures { result ≡ spec.is_count parameters (captured + count) }
{
    match parameters {
        Some(parameters) => match (parameters as usize).checked_sub(captured) {
            Some(further) => further == count as usize,
            None => false,
        },
        None => false,
    }
}

fn lambda_aim(owner: Owner, number: u32, takes: bool) -> Aim
    ensures { result ≡ spec.lambda_aim owner number takes }
{
    if takes {
        Aim::Lambda(owner, number)
    } else {
        Aim::Unfit
    }
}

fn static_aim(number: u32, doing: Option<Doing>) -> Aim
    ensures { result ≡ spec.static_aim number doing }
{
    match doing {
        Some(Doing::Itself) => Aim::Static(number, Doing::Itself),
        Some(Doing::Prelude(function)) => Aim::Static(number, Doing::Prelude(function)),
        Some(Doing::Receiver) => Aim::Unfit,
        None => Aim::Unfit,
    }
}

fn instance_aim(class: u32, number: u32, doing: Option<Doing>) -> Aim
    ensures { result ≡ spec.instance_aim class number doing }
{
    match doing {
        Some(doing) => Aim::Instance(class, number, doing),
        None => Aim::Unfit,
    }
}

// What `T::m` means, which the list allows.
fn found_reference(allow: &Allow, class: u32, name: &str, count: u32) -> Option<Reference>
    ensures exact { result ≡ reference_of allow.now class name.now count }
    ensures listed { ReferenceListed allow.now result }
{
    reference_of(allow, class, name, count)
}

fn reference_aim(
    texts: &Texts,
    allow: &Allow,
    class: u32,
    count: u32,
    found: Option<Reference>,
) -> Aim
    requires { ReferenceListed allow.now found }
    ensures { result ≡ spec.reference_aim texts.now allow.now class count found }
{
    match found {
        Some(Reference::Static(number)) => {
            static_aim(number, doing_of(texts, allow, count as usize, number))
        }
        Some(Reference::Instance(number)) => {
            instance_aim(
                class,
                number,
                doing_of(texts, allow, count as usize, number),
            )
        }
        None => Aim::Unfit,
    }
}

// What `T::new` means of a class, which the list allows.
fn found_constructor(allow: &Allow, class: u32, count: u32) -> Option<u32>
    ensures exact { result ≡ constructor_of allow.now class count }
    ensures listed { MemberListed allow.now result }
{
    constructor_of(allow, class, count)
}

fn constructor_aim(texts: &Texts, allow: &Allow, count: u32, found: Option<u32>) -> Aim
    requires { MemberListed allow.now found }
    ensures { result ≡ spec.constructor_aim texts.now allow.now count found }
{
    match found {
        Some(number) => static_aim(number, doing_of(texts, allow, count as usize, number)),
        None => Aim::Unfit,
    }
}

fn array_aim(alloc: Global, made: &Ty, takes: bool) -> Result<Aim, AllocError>
    ensures { IfOk result (λ aim. aim ≡ spec.array_aim made.now takes) }
{
    if !takes {
        return Ok(Aim::Unfit);
    }
    let made = made.share(alloc)?;
    Ok(Aim::Array(Boxed::new(alloc, made)?))
}

// What `T::new` means.
fn made_aim(
    texts: &Texts,
    allow: &Allow,
    alloc: Global,
    count: u32,
    made: &Ty,
) -> Result<Aim, AllocError>
    ensures { IfOk result (λ aim. aim ≡ spec.made_aim texts.now allow.now count made.now (out-Ty made.now)) }
{
    match made {
        Ty::Class(class) => {
            let found = found_constructor(allow, *class, count);
            Ok(constructor_aim(texts, allow, count, found))
        }
        Ty::Array(_) => array_aim(alloc, made, count == 1),
        Ty::Void => Ok(Aim::Unfit),
        Ty::Null => Ok(Aim::Unfit),
        Ty::Def => Ok(Aim::Unfit),
        Ty::Prim(_) => Ok(Aim::Unfit),
    }
}

// What a target means for so many arguments, where so many values were captured.
fn target_aim(
    texts: &Texts,
    allow: &Allow,
    alloc: Global,
    captured: usize,
    count: u32,
    target: &Target,
) -> Result<Aim, AllocError>
    ensures { IfOk result (λ aim. aim ≡ spec.target_aim texts.now allow.now captured count target.now) }
{
    match target {
        Target::Lambda(owner, number) => {
            let parameters = parameters_in(texts, *owner, *number);
            let takes = is_sum(parameters, captured, count);
            Ok(lambda_aim(*owner, *number, takes))
        }
        Target::Member(class, name) => {
            let found = found_reference(allow, *class, name.get().as_str(), count);
            Ok(reference_aim(texts, allow, *class, count, found))
        }
        Target::New(made) => made_aim(texts, allow, alloc, count, made.get()),
        Target::Gone => Ok(Aim::Gone),
    }
}

fn object_aim(
    texts: &Texts,
    allow: &Allow,
    alloc: Global,
    count: u32,
    object: &Object,
) -> Result<Aim, AllocError>
    ensures { IfOk result (λ aim. aim ≡ spec.object_aim texts.now allow.now count (Some object.now)) }
{
    match object {
        Object::Fun {
            iface: Some(_),
            target,
            captures,
        } => target_aim(texts, allow, alloc, captures.len(), count, target),
        _ => Ok(Aim::NoFunction),
    }
}

fn aim_at(texts: &Texts, allow: &Allow, heap: &Heap, count: u32, id: u32) -> Result<Aim, AllocError>
    ensures { IfOk result (λ aim. aim ≡ spec.object_aim texts.now allow.now count (slice_get heap.now.objects id)) }
{
    match heap.get(id) {
        Some(object) => object_aim(texts, allow, heap.alloc(), count, object),
        None => Ok(Aim::NoFunction),
    }
}

// The same of a value and so many arguments.
#[tactic(auto, unfolding(crate::specs::Targets::aim_of))]
fn value_aim(
    texts: &Texts,
    allow: &Allow,
    heap: &Heap,
    value: &Value,
    arguments: &[Value],
) -> Result<Aim, AllocError>
    ensures { IfOk result (λ aim. aim ≡ spec.aim_of texts.now allow.now heap.now.objects (value.now ∷ arguments.now)) }
{
    match value {
        Value::Null => Ok(Aim::Null),
        Value::Ref(id) => match u32::try_from(arguments.len()) {
            Ok(count) => aim_at(texts, allow, heap, count, *id),
            Err(_) => Err(AllocError),
        },
        _ => Ok(Aim::NoFunction),
    }
}

#[tactic(auto, unfolding(crate::specs::Targets::aim_of))]
fn values_aim(
    texts: &Texts,
    allow: &Allow,
    heap: &Heap,
    values: &[Value],
) -> Result<Aim, AllocError>
    ensures { IfOk result (λ aim. aim ≡ spec.aim_of texts.now allow.now heap.now.objects values.now) }
{
    match values {
        [value, arguments @ ..] => value_aim(texts, allow, heap, value, arguments),
        [] => Ok(Aim::Null),
    }
}

/// What the first of these values calls with the others, by the list of what the script may use.
pub(crate) fn aim_of(
    texts: &Texts,
    allow: &Allow,
    heap: &Heap,
    values: &[Value],
) -> Result<Aim, AllocError>
    ensures exact { IfOk result (λ aim. aim ≡ spec.aim_of texts.now allow.now heap.now.objects values.now) }
    ensures listed { IfOk result (AimListed allow.now) }
{
    values_aim(texts, allow, heap, values)
}
