//! What function values call, and which interfaces they take.

ghost use Rattle.std.specs.Prelude.{◌≡◌, ◌<◌, ◌+◌, ◌==◌, IfSome, length};
ghost use Rattle.def_resolve.specs.Functions as spec;
ghost use Rattle.def_resolve.specs.Functions.{ConstructorConfined, ReferenceConfined, constructor_of, fits, reference_of, static_in};

use crate::lookup::{found, iface_method, instance_member, member_at};
use allowlist::{Allow, MemberKind};
use object_values::{Object, Target};
use pl_types::Ty;

/// What a reference `T::m` calls.
#[derive(Clone, Copy)]
pub enum Reference {
    /// A static member, by its number, with all arguments.
    Static(u32),
    /// An instance member, by its number. The first argument is its receiver, cast to `T`.
    Instance(u32),
}

fn is_static(kind: MemberKind) -> bool
    ensures { result ≡ spec.is_static kind }
{
    match kind {
        MemberKind::Static => true,
        MemberKind::Constructor | MemberKind::Instance | MemberKind::Field => false,
    }
}

fn is_constructor(kind: MemberKind) -> bool
    ensures { result ≡ spec.is_constructor kind }
{
    match kind {
        MemberKind::Constructor => true,
        MemberKind::Static | MemberKind::Instance | MemberKind::Field => false,
    }
}

/// What is found, where it is static.
fn static_in(allow: &Allow, found: Option<u32>) -> Option<u32>
    requires { IfSome found (λ number. number < length allow.now.members) }
    ensures { result ≡ static_in allow.now found }
{
    let number = found?;
    if is_static(member_at(allow, number).kind) {
        Some(number)
    } else {
        None
    }
}

/// The instance member with one parameter less.
fn instance_behind(allow: &Allow, class: u32, name: &str, arity: u32) -> Option<Reference>
    ensures { result ≡ spec.instance_behind allow.now class name.now arity }
{
    if arity == 0 {
        return None;
    }
    let number = instance_member(allow, class, name, arity - 1)?;
    Some(Reference::Instance(number))
}

/// What `T::m` calls where a method with so many parameters is wanted, T being a class: its static member with this name and as
/// many parameters, if that is what the class has, else its instance member with one less. It takes no memory.
///
/// `None`: there is neither among what the list allows.
#[tactic(auto, unfolding(crate::specs::Functions::reference_of))]
pub fn reference_of(allow: &Allow, class: u32, name: &str, arity: u32) -> Option<Reference>
    ensures exact { result ≡ reference_of allow.now class name.now arity }
    ensures confined { ReferenceConfined allow.now result }
{
    let found = found(allow, class, name, arity);
    match static_in(allow, found) {
        Some(number) => Some(Reference::Static(number)),
        None => instance_behind(allow, class, name, arity),
    }
}

/// What `T::new` calls where a method with so many parameters is wanted, T being a class: its own constructor with as many. It
/// takes no memory.
///
/// `None`: the class itself has no such constructor that the list allows.
#[tactic(auto, unfolding(crate::specs::Functions::constructor_of))]
pub fn constructor_of(allow: &Allow, class: u32, arity: u32) -> Option<u32>
    ensures exact { result ≡ constructor_of allow.now class arity }
    ensures confined { ConstructorConfined allow.now class result }
{
    let number = found(allow, class, "", arity)?;
    let member = member_at(allow, number);
    if member.owner == class && is_constructor(member.kind) {
        Some(number)
    } else {
        None
    }
}

/// Whether `T::new` means something where a method with so many parameters is wanted.
fn makes(allow: &Allow, made: &Ty, arity: u32) -> bool
    ensures { result ≡ spec.makes allow.now arity made.now }
{
    match made {
        Ty::Class(class) => constructor_of(allow, *class, arity).is_some(),
        Ty::Array(_) => arity == 1,
        Ty::Void => false,
        Ty::Null => false,
        Ty::Def => false,
        Ty::Prim(_) => false,
    }
}

fn target_fits(allow: &Allow, target: &Target, captured: usize, params: u32, arity: u32) -> bool
    ensures { result ≡ spec.target_fits allow.now captured params arity target.now }
{
    match target {
        Target::Lambda(_, _) => is_sum(params, captured, arity),
        Target::Member(class, name) => {
            reference_of(allow, *class, name.get().as_str(), arity).is_some()
        }
        Target::New(made) => makes(allow, made.get(), arity),
        Target::Gone => true,
    }
}

/// Whether a lambda has as many parameters as it captured and the method has.
fn is_sum(params: u32, captured: usize, arity: u32) -> bool
    ensures { result ≡ (params == captured + arity) }
{
    match (params as usize).checked_sub(captured) {
        Some(further) => further == arity as usize,
        None => false,
    }
}

/// Whether a function value takes an interface, whose parameter it meets. Of a lambda `params` is the number of its parameters,
/// those that it captured among them; of any other target that number is not looked at. A lambda takes an interface whose method
/// has as many parameters as follow what it captured; `T::m` and `T::new` one for whose method they mean something; and what is
/// gone takes every one. Which interface the value has already does not count. It takes no memory.
///
/// False, too, of an object that is no function value, and of a class that is no functional interface.
pub fn fits(allow: &Allow, function: &Object, params: u32, iface: u32) -> bool
    ensures { result ≡ fits allow.now function.now params iface }
{
    let Some(method) = iface_method(allow, iface) else {
        return false;
    };
    let Ok(arity) = u32::try_from(member_at(allow, method).params.len()) else {
        return false;
    };
    match function {
        Object::Fun {
            target,
            captures,
            ..
        } => target_fits(allow, target, captures.len(), params, arity),
        _ => false,
    }
}
