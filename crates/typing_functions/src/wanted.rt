//! Which function value a place takes, and the method that one stands for there.

ghost use Rattle.std.specs.Prelude.{◌≡◌, [], IfOk, slice_get};
ghost use Rattle.std.specs.Option.{option_copied};
ghost use Rattle.allowlist.specs.Allow.{member_of, members_in, iface_method_of};
ghost use Rattle.allowlist.specs.declared.member.MemberKind.TheVariants as kind;
ghost use Rattle.typing_rules.specs.Outcomes.{Keeps};
ghost use Rattle.typing_rules.specs.Rules.Members.{is_kind};
ghost use Rattle.typing_functions.specs.Wanted as spec;

use crate::refuse::refuse;
use allowlist::{Allow, MemberKind, MemberType};
use pl_tree::TypeName;
use pl_types::{Fail, Ty, rules};
use plain_data::Text;
use std::alloc::{AllocError, Global};
use typing_rules::Header;
use typing_rules::rules::calls::function_of;
use typing_rules::rules::types::type_of;

/// Which function value a place takes.
#[derive(Clone, Copy)]
pub enum Wanted {
    /// None.
    Nothing,
    /// One whose interface is found when the script runs: an argument of a call on a def.
    Any,
    /// One of a functional interface, by the number of its class.
    Interface(u32),
}

/// What arguments are passed to.
#[derive(Clone, Copy)]
pub enum Callee {
    /// Nothing that is known.
    Unknown,
    /// A member that is found when the script runs.
    Dynamic,
    /// A function of the script, counted from 0.
    Function(usize),
    /// A member of the list.
    Member(u32),
}

// ---- by the type of what is given

fn interface_of(allow: &Allow, class: u32) -> Wanted
    ensures { result ≡ spec.interface_if (iface_method_of class) class }
{
    match allow.iface_method(class) {
        None => Wanted::Nothing,
        Some(_) => Wanted::Interface(class),
    }
}

/// What is declared, returned or passed is of a type.
pub fn wanted_by(allow: &Allow, of: &Ty) -> Wanted
    ensures { result ≡ spec.wanted_by of.now }
{
    match of {
        Ty::Class(class) => interface_of(allow, *class),
        _ => Wanted::Nothing,
    }
}

// ---- by what is called

fn wanted_of_header(allow: &Allow, header: &Header, at: usize) -> Wanted
    ensures { result ≡ spec.wanted_as (slice_get header.now.parameters at) }
{
    match header.parameters.get(at) {
        None => Wanted::Nothing,
        Some(n) => wanted_by(allow, &n.of),
    }
}

fn wanted_of_function(allow: &Allow, headers: &[Header], number: usize, at: usize) -> Wanted
    ensures { result ≡ spec.wanted_of_header (slice_get headers.now number) at }
{
    match headers.get(number) {
        None => Wanted::Nothing,
        Some(header) => wanted_of_header(allow, header, at),
    }
}

/// The member of a list with a number, if there is one.
pub(crate) fn member_with(allow: &Allow, number: u32) -> Option<&MemberType>
    ensures { option_copied result ≡ slice_get (members_in allow.now) number }
{
    if number < allow.member_count() {
        Some(allow.member_type(number))
    } else {
        None
    }
}

fn wanted_of_parameter(allow: &Allow, member: &MemberType, at: usize) -> Wanted
    ensures { result ≡ spec.wanted_if (slice_get member.now.params at) }
{
    match member.params.get(at) {
        None => Wanted::Nothing,
        Some(of) => wanted_by(allow, of),
    }
}

fn wanted_of_member(allow: &Allow, number: u32, at: usize) -> Wanted
    ensures { result ≡ spec.wanted_of_member (slice_get (members_in allow.now) number) at }
{
    match member_with(allow, number) {
        None => Wanted::Nothing,
        Some(member) => wanted_of_parameter(allow, member, at),
    }
}

/// What an argument is taken as, counted from 0.
pub fn wanted_of(allow: &Allow, headers: &[Header], callee: Callee, at: usize) -> Wanted
    ensures { result ≡ spec.wanted_of allow.now headers.now callee at }
{
    match callee {
        Callee::Unknown => Wanted::Nothing,
        Callee::Dynamic => Wanted::Any,
        Callee::Function(number) => wanted_of_function(allow, headers, number, at),
        Callee::Member(number) => wanted_of_member(allow, number, at),
    }
}

/// A function of the script with a name and so many parameters.
pub fn called(headers: &[Header], name: &Text, count: usize) -> Callee
    ensures { result ≡ spec.called headers.now name.now count }
{
    match function_of(headers, name, count) {
        None => Callee::Unknown,
        Some(number) => Callee::Function(number),
    }
}

fn is_kind(wanted: MemberKind, kind: MemberKind) -> bool
    ensures { result ≡ is_kind wanted kind }
{
    match (wanted, kind) {
        (MemberKind::Constructor, MemberKind::Constructor) => true,
        (MemberKind::Static, MemberKind::Static) => true,
        (MemberKind::Instance, MemberKind::Instance) => true,
        (MemberKind::Field, MemberKind::Field) => true,
        _ => false,
    }
}

fn callee_of(allow: &Allow, kind: MemberKind, number: u32) -> Callee
    ensures { result ≡ spec.of_kind kind number (slice_get (members_in allow.now) number) }
{
    match member_with(allow, number) {
        None => Callee::Unknown,
        Some(member) if is_kind(kind, member.kind) => Callee::Member(number),
        Some(_) => Callee::Unknown,
    }
}

/// A member that is found, of the kind that is wanted.
fn member_if(allow: &Allow, kind: MemberKind, found: Option<u32>) -> Callee
    ensures { result ≡ spec.member_if allow.now kind found }
{
    match found {
        None => Callee::Unknown,
        Some(number) => callee_of(allow, kind, number),
    }
}

/// The member of a class with a name and so many parameters. None has more than a number counts.
#[tactic(auto, using(typing_rules::proofs::Members::too_many))]
pub(crate) fn found(allow: &Allow, class: u32, name: &str, count: usize) -> Option<u32>
    ensures { result ≡ member_of allow.now class name.now count }
{
    match u32::try_from(count) {
        Ok(arity) => allow.member(class, name, arity),
        Err(_) => None,
    }
}

/// The constructor that a class itself has.
fn own_constructor(allow: &Allow, class: u32, number: u32) -> Callee
    ensures { result ≡ spec.own_constructor class number (slice_get (members_in allow.now) number) }
{
    match member_with(allow, number) {
        None => Callee::Unknown,
        Some(member) => {
            if member.owner == class && is_kind(MemberKind::Constructor, member.kind) {
                Callee::Member(number)
            } else {
                Callee::Unknown
            }
        }
    }
}

pub(crate) fn constructor_of(allow: &Allow, class: u32, count: usize) -> Callee
    ensures { result ≡ spec.constructor_if allow.now class (member_of allow.now class [] count) }
{
    match found(allow, class, "", count) {
        None => Callee::Unknown,
        Some(number) => own_constructor(allow, class, number),
    }
}

pub(crate) fn instance_of(allow: &Allow, class: u32, name: &Text, count: usize) -> Callee
    ensures { result ≡ spec.member_if allow.now kind.Instance (member_of allow.now class name.now count) }
{
    member_if(
        allow,
        MemberKind::Instance,
        found(allow, class, name.as_str(), count),
    )
}

pub(crate) fn static_of(allow: &Allow, class: u32, name: &Text, count: usize) -> Callee
    ensures { result ≡ spec.member_if allow.now kind.Static (member_of allow.now class name.now count) }
{
    member_if(
        allow,
        MemberKind::Static,
        found(allow, class, name.as_str(), count),
    )
}

/// What a name with so many arguments means on a value of a type.
pub fn on_value(allow: &Allow, of: &Ty, name: &Text, count: usize) -> Callee
    ensures { result ≡ spec.on_value allow.now of.now name.now count }
{
    match of {
        Ty::Class(class) => instance_of(allow, *class, name, count),
        Ty::Def => Callee::Dynamic,
        _ => Callee::Unknown,
    }
}

/// What a name with so many arguments means on a class.
pub fn on_class(allow: &Allow, of: &Ty, name: &Text, count: usize) -> Callee
    ensures { result ≡ spec.on_class allow.now of.now name.now count }
{
    match of {
        Ty::Class(class) => static_of(allow, *class, name, count),
        _ => Callee::Unknown,
    }
}

/// The constructor of a class with so many arguments.
pub fn made(allow: &Allow, of: &Ty, count: usize) -> Callee
    ensures { result ≡ spec.made allow.now of.now count }
{
    match of {
        Ty::Class(class) => constructor_of(allow, *class, count),
        _ => Callee::Unknown,
    }
}

// ---- the method that a function value stands for

/// The one method of an interface.
pub(crate) fn method_in(allow: &Allow, class: u32) -> Option<&MemberType>
    ensures { option_copied result ≡ spec.method_in allow.now class }
{
    match allow.iface_method(class) {
        None => None,
        Some(number) => member_with(allow, number),
    }
}

fn method_wanted(allow: &Allow, wanted: Wanted) -> Option<&MemberType>
    ensures { option_copied result ≡ spec.method_wanted allow.now wanted }
{
    match wanted {
        Wanted::Nothing => None,
        Wanted::Any => None,
        Wanted::Interface(class) => method_in(allow, class),
    }
}

/// The method that a lambda with so many parameters stands for, where it is known.
pub fn method_of(allow: &Allow, wanted: Wanted, count: usize) -> Option<&MemberType>
    ensures { option_copied result ≡ spec.method_of allow.now wanted count }
{
    match method_wanted(allow, wanted) {
        None => None,
        Some(method) => {
            if method.params.len() == count {
                Some(method)
            } else {
                None
            }
        }
    }
}

fn parameter_in(alloc: Global, method: &MemberType, at: usize) -> Result<Ty, AllocError>
    ensures { IfOk result (λ of. of ≡ spec.def_or (slice_get method.now.params at)) }
{
    match method.params.get(at) {
        None => Ok(Ty::Def),
        Some(of) => of.share(alloc),
    }
}

/// The type of a parameter that has none written, counted from 0: that of the method's, or def.
pub(crate) fn parameter_of(
    alloc: Global,
    method: Option<&MemberType>,
    at: usize,
) -> Result<Ty, AllocError>
    ensures { IfOk result (λ of. of ≡ spec.parameter_of (option_copied method.entry) at) }
{
    match method {
        None => Ok(Ty::Def),
        Some(method) => parameter_in(alloc, method, at),
    }
}

/// The type of a parameter of a lambda.
///
/// UnknownType (6), OutOfProfile (19): the type that is written means none, or is not built.
pub fn parameter_type(
    alloc: Global,
    method: Option<&MemberType>,
    at: usize,
    of: &Option<TypeName>,
) -> Result<Ty, Fail>
    ensures { Keeps (spec.parameter_type (option_copied method.entry) at of.now) result }
{
    match of {
        Some(of) => type_of(alloc, of),
        None => match parameter_of(alloc, method, at) {
            Ok(of) => Ok(of),
            Err(_) => Err(Fail::NoMemory),
        },
    }
}

/// The type of what a lambda gives: that of the method's result, or def.
pub fn result_type(alloc: Global, method: Option<&MemberType>) -> Result<Ty, AllocError>
    ensures { IfOk result (λ of. of ≡ spec.result_type (option_copied method.entry)) }
{
    match method {
        None => Ok(Ty::Def),
        Some(method) => method.result.share(alloc),
    }
}

// ---- which interface a function value has

fn fitting(at: u32, class: u32, method: Option<&MemberType>) -> Result<Option<u32>, Fail>
    ensures { Keeps (spec.fitting at class (option_copied method.entry)) result }
{
    match method {
        None => Err(refuse(rules::BAD_FUNCTION_VALUE, at)),
        Some(_) => Ok(Some(class)),
    }
}

/// Which interface a lambda with so many parameters has. `None` where it is found when the script runs.
///
/// BadFunctionValue (16): the place takes no function value, or one with another number of parameters.
pub fn accepted(allow: &Allow, wanted: Wanted, count: usize, at: u32) -> Result<Option<u32>, Fail>
    ensures { Keeps (spec.accepted allow.now wanted count at) result }
{
    match wanted {
        Wanted::Nothing => Err(refuse(rules::BAD_FUNCTION_VALUE, at)),
        Wanted::Any => Ok(None),
        Wanted::Interface(class) => fitting(at, class, method_of(allow, wanted, count)),
    }
}

/// Which interface a reference has, whose number of parameters is not written.
///
/// BadFunctionValue (16): the place takes no function value.
pub(crate) fn taken(wanted: Wanted, at: u32) -> Result<Option<u32>, Fail>
    ensures { Keeps (spec.taken wanted at) result }
{
    match wanted {
        Wanted::Nothing => Err(refuse(rules::BAD_FUNCTION_VALUE, at)),
        Wanted::Any => Ok(None),
        Wanted::Interface(class) => Ok(Some(class)),
    }
}

/// The type of a function value.
pub(crate) fn value_type(interface: Option<u32>) -> Ty
    ensures { result ≡ spec.value_type interface }
{
    match interface {
        None => Ty::Def,
        Some(class) => Ty::Class(class),
    }
}
