//! `T::m` and `T::new`, which are looked for when they are called.

ghost use Rattle.std.specs.Prelude.{◌≡◌, ◌<◌, [], Ok, length};
ghost use Rattle.std.specs.List.{list_any};
ghost use Rattle.std.specs.Option.{option_copied};
ghost use Rattle.allowlist.specs.Allow.{member_of, is_in_prelude};
ghost use Rattle.allowlist.specs.Catalogue.{catalogue};
ghost use Rattle.allowlist.specs.Index.{member_in};
ghost use Rattle.pl_types.specs.declared.ty.Ty.{out-Ty};
ghost use Rattle.typing_rules.specs.Outcomes.{Keeps};
ghost use Rattle.typing_functions.specs.References as spec;

use crate::nodes::{copy, plain};
use crate::refuse::refuse;
use crate::wanted::{
    Callee, Wanted, constructor_of, instance_of, method_in, static_of, taken, value_type,
};
use crate::words::is_word;
use allowlist::{Allow, MemberType, Origin};
use pl_types::{Fail, Ty, rules};
use plain_data::Text;
use std::alloc::Global;
use typed_tree::Node;
use typing_rules::Part;

fn is_known(callee: Callee) -> bool
    ensures { result ≡ spec.is_known callee }
{
    match callee {
        Callee::Member(_) => true,
        _ => false,
    }
}

/// The instance member with one parameter less.
fn instance_behind(allow: &Allow, class: u32, name: &Text, arity: usize) -> bool
    ensures { result ≡ spec.instance_behind allow.now class name.now arity }
{
    match arity.checked_sub(1) {
        None => false,
        Some(others) => is_known(instance_of(allow, class, name, others)),
    }
}

/// Whether `T::m` means something where a method with so many parameters is wanted.
fn refers(allow: &Allow, class: u32, name: &Text, arity: usize) -> bool
    ensures { result ≡ spec.refers allow.now class name.now arity }
{
    is_known(static_of(allow, class, name, arity)) || instance_behind(allow, class, name, arity)
}

fn refers_as(allow: &Allow, class: u32, name: &Text, method: Option<&MemberType>) -> bool
    ensures { result ≡ spec.refers_as allow.now class name.now (option_copied method.entry) }
{
    match method {
        None => false,
        Some(method) => refers(allow, class, name, method.params.len()),
    }
}

fn meets(allow: &Allow, wanted: Wanted, class: u32, name: &Text) -> bool
    ensures { result ≡ spec.meets allow.now wanted class name.now }
{
    match wanted {
        Wanted::Nothing => false,
        Wanted::Any => true,
        Wanted::Interface(interface) => refers_as(allow, class, name, method_in(allow, interface)),
    }
}

fn is_in_prelude(origin: Origin) -> bool
    ensures { result ≡ is_in_prelude origin }
{
    match origin {
        Origin::Prelude => true,
        Origin::AugmentedPrelude => true,
        _ => false,
    }
}

fn is_prelude_name(member: &MemberType, name: &Text) -> bool
    ensures { result ≡ spec.is_prelude_name name.now member.now }
{
    is_in_prelude(member.origin) && member.name.as_str() == name.as_str()
}

/// The member of a list with a number.
fn member_at(allow: &Allow, number: u32) -> &MemberType
    requires { number < length allow.now.members }
    ensures { result.now ≡ member_in allow.now number }
{
    allow.member_type(number)
}

/// Whether the prelude has a member with a name.
fn names_prelude(allow: &Allow, name: &Text) -> bool
    ensures { result ≡ list_any (spec.is_prelude_name name.now) catalogue }
{
    let mut number = 0;
    while number < allow.member_count() {
        if is_prelude_name(member_at(allow, number), name) {
            return true;
        }
        number += 1;
    }
    false
}

fn is_left_out(allow: &Allow, name: &Text) -> bool
    ensures { result ≡ spec.is_left_out name.now }
{
    names_prelude(allow, name) || !is_word(name.as_str().as_bytes())
}

fn reference(
    alloc: Global,
    interface: Option<u32>,
    at: u32,
    class: u32,
    name: &Text,
) -> Result<Part, Fail>
    ensures { Keeps (Ok (spec.reference interface at class name.now)) result }
{
    let name = copy(alloc, name)?;
    let node = Node::Reference {
        interface,
        class,
        name,
    };
    plain(alloc, at, value_type(interface), node)
}

fn reference_to(
    alloc: Global,
    allow: &Allow,
    wanted: Wanted,
    interface: Option<u32>,
    at: u32,
    class: u32,
    name: &Text,
) -> Result<Part, Fail>
    ensures { Keeps (spec.reference_to allow.now wanted interface at class name.now) result }
{
    if is_left_out(allow, name) {
        return Err(refuse(rules::OUT_OF_PROFILE, at));
    }
    if !meets(allow, wanted, class, name) {
        return Err(refuse(rules::UNKNOWN_MEMBER, at));
    }
    reference(alloc, interface, at, class, name)
}

/// `T::m`, at its first token.
///
/// BadFunctionValue (16): the place takes no function value. OutOfProfile (19): the prelude has a member of this name, or it is no
/// word. UnknownMember (7): `T` is no class, or it has no such member for the interface that is wanted.
pub fn reference_of(
    alloc: Global,
    allow: &Allow,
    wanted: Wanted,
    at: u32,
    name: &Text,
    of: &Ty,
) -> Result<Part, Fail>
    ensures { Keeps (spec.reference_of allow.now wanted at name.now of.now) result }
{
    let interface = taken(wanted, at)?;
    match of {
        Ty::Class(class) => reference_to(alloc, allow, wanted, interface, at, *class, name),
        _ => Err(refuse(rules::UNKNOWN_MEMBER, at)),
    }
}

// ---- `T::new`

/// Whether `T::new` means something where a method with so many parameters is wanted.
fn makes_with(allow: &Allow, arity: usize, of: &Ty) -> bool
    ensures { result ≡ spec.makes_layer allow.now arity (out-Ty of.now) }
{
    match of {
        Ty::Class(class) => is_known(constructor_of(allow, *class, arity)),
        Ty::Array(_) => arity == 1,
        _ => false,
    }
}

fn makes_as(allow: &Allow, of: &Ty, method: Option<&MemberType>) -> bool
    ensures { result ≡ spec.makes_as allow.now of.now (option_copied method.entry) }
{
    match method {
        None => false,
        Some(method) => makes_with(allow, method.params.len(), of),
    }
}

fn makes(allow: &Allow, wanted: Wanted, of: &Ty) -> bool
    ensures { result ≡ spec.makes allow.now wanted of.now }
{
    match wanted {
        Wanted::Nothing => false,
        Wanted::Any => true,
        Wanted::Interface(interface) => makes_as(allow, of, method_in(allow, interface)),
    }
}

/// `T::new`, at its first token.
///
/// BadFunctionValue (16): the place takes no function value. UnknownMember (7): it makes nothing for the interface that is wanted.
pub fn new_reference_of(
    alloc: Global,
    allow: &Allow,
    wanted: Wanted,
    at: u32,
    of: Ty,
) -> Result<Part, Fail>
    ensures { Keeps (spec.new_reference_of allow.now wanted at of) result }
{
    let interface = taken(wanted, at)?;
    if !makes(allow, wanted, &of) {
        return Err(refuse(rules::UNKNOWN_MEMBER, at));
    }
    let node = Node::NewReference { interface, of };
    plain(alloc, at, value_type(interface), node)
}
