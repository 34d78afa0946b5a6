//! Members: calls on a value and on a class, `new`, getters by name, and fields.

ghost use Rattle.std.specs.Prelude.{◌≡◌, ◌<◌, [], ◌++◌, ◌&&◌, IfOk, Ok, length, if◌then◌else◌};
ghost use Rattle.allowlist.specs.Allow.{own_member, member_of};
ghost use Rattle.allowlist.specs.declared.member.MemberKind.TheVariants as kind;
ghost use Rattle.pl_types.specs.declared.rules.TheConstants.{BAD_NULLABLE};
ghost use Rattle.typing_rules.specs.Outcomes.{Keeps, bind, refuse};
ghost use Rattle.typing_rules.specs.Rules.Members as spec;

use crate::part::{Form, Part};
use crate::refuse::refuse;
use crate::rules::casts::{cast_each, cast_next};
use crate::rules::lookups::{
    constructor_of, getter, is_prelude_member, member_at, member_of, wanted,
};
use crate::rules::nodes::{one_part, part, plain};
use crate::rules::places::copy;
use crate::rules::references::is_primitive;
use crate::words::is_word;
use allowlist::{Allow, MemberKind};
use member_names::member_text;
use pl_tree::Access;
use pl_types::{Fail, Ty, rules};
use plain_data::{Items, Subtree, Text};
use std::alloc::{AllocError, Global};
use typed_tree::{Member, Node, Operation, Typed};

/// What a script says of a member of a list.
pub(crate) fn member(alloc: Global, allow: &Allow, number: u32) -> Result<Member, AllocError>
    requires { number < length allow.now.members }
    ensures { IfOk result (λ member. member ≡ spec.member allow.now number) }
{
    let written = member_text(alloc, allow, number)?;
    let text = Text::new(alloc, written.as_str())?;
    Ok(Member { number, text })
}

/// Each argument cast to its parameter's type, behind what is there.
fn cast_all(
    alloc: Global,
    types: &[Ty],
    mut given: Vec<Part>,
    before: Items<Subtree<Typed>>,
) -> Result<Items<Subtree<Typed>>, Fail>
    ensures { Keeps (bind (spec.cast_all types.now given.items) (λ casts. Ok (before ++ casts))) result }
{
    let mut casts = before;
    given.reverse();
    for of in types {
        cast_next(alloc, of, &mut given, &mut casts)?;
    }
    Ok(casts)
}

/// The arguments of a member's call, behind what is there.
fn arguments(
    alloc: Global,
    allow: &Allow,
    number: u32,
    given: Vec<Part>,
    before: Items<Subtree<Typed>>,
) -> Result<Items<Subtree<Typed>>, Fail>
    requires { number < length allow.now.members }
    ensures { Keeps (bind (spec.member_arguments allow.now number given.items) (λ casts. Ok (before ++ casts))) result }
{
    let types = member_at(allow, number).params.as_slice();
    cast_all(alloc, types, given, before)
}

pub(crate) fn guards(access: Access) -> bool
    ensures { result ≡ spec.guards access }
{
    match access {
        Access::Plain => false,
        Access::Guarded => true,
    }
}

/// A member that is called, and the type of what it gives.
///
/// BadNullable (17): `?.` before what gives a primitive.
fn called(
    alloc: Global,
    allow: &Allow,
    access: Access,
    at: u32,
    number: u32,
) -> Result<(Member, Ty), Fail>
    requires { number < length allow.now.members }
    ensures { Keeps (if spec.guards access && spec.gives_primitive allow.now number then refuse BAD_NULLABLE at else Ok (spec.member allow.now number, spec.result allow.now number)) result }
{
    if guards(access) && is_primitive(&member_at(allow, number).result) {
        return Err(refuse(rules::BAD_NULLABLE, at));
    }
    let of = member_at(allow, number).result.share(alloc)?;
    let member = member(alloc, allow, number)?;
    Ok((member, of))
}

// ---- calls on a value

/// The member of a class that a name with so many arguments means. None has more parameters than a number counts.
#[tactic(auto, using(crate::proofs::Members::too_many))]
pub(crate) fn meant(
    allow: &Allow,
    kind: MemberKind,
    at: u32,
    class: u32,
    name: &Text,
    count: usize,
) -> Result<u32, Fail>
    ensures rule { Keeps (spec.wanted allow.now kind at (member_of allow.now class name.now count)) result }
    ensures within { IfOk result (λ number. number < length allow.now.members) }
{
    let Ok(arity) = u32::try_from(count) else {
        return Err(refuse(rules::UNKNOWN_MEMBER, at));
    };
    let found = member_of(allow, class, name.as_str(), arity);
    wanted(allow, kind, at, found)
}

/// An operation on a value, which `?.` leaves out where that is null.
pub(crate) fn accessed(access: Access, operation: Operation, parts: Items<Subtree<Typed>>) -> Node
    ensures { result ≡ spec.accessed access operation parts }
{
    match access {
        Access::Plain => Node::Apply { operation, parts },
        Access::Guarded => Node::Guarded { operation, parts },
    }
}

fn instance_node(
    alloc: Global,
    allow: &Allow,
    access: Access,
    at: u32,
    number: u32,
    parts: Items<Subtree<Typed>>,
) -> Result<Part, Fail>
    requires { number < length allow.now.members }
    ensures { Keeps (spec.nullable allow.now access at number (spec.instance_node allow.now access at number parts)) result }
{
    let (member, of) = called(alloc, allow, access, at, number)?;
    let node = accessed(access, Operation::Instance(member), parts);
    part(alloc, at, Form::Deed, of, node)
}

/// A call of a member of a value.
pub(crate) fn instance_call(
    alloc: Global,
    allow: &Allow,
    access: Access,
    at: u32,
    number: u32,
    x: Part,
    given: Vec<Part>,
) -> Result<Part, Fail>
    requires { number < length allow.now.members }
    ensures { Keeps (spec.instance_call allow.now access at number x given.items) result }
{
    let receiver = one_part(alloc, x.into_typed())?;
    let parts = arguments(alloc, allow, number, given, receiver)?;
    instance_node(alloc, allow, access, at, number, parts)
}

fn instance_named(
    alloc: Global,
    allow: &Allow,
    access: Access,
    at: u32,
    name: &Text,
    class: u32,
    x: Part,
    given: Vec<Part>,
) -> Result<Part, Fail>
    ensures { Keeps (spec.instance_named allow.now access at name.now class x given.items) result }
{
    let number = meant(allow, MemberKind::Instance, at, class, name, given.len())?;
    instance_call(alloc, allow, access, at, number, x, given)
}

/// Whether the prelude has a member with a name and so many parameters.
fn names_prelude(allow: &Allow, name: &Text, arity: usize) -> bool
    ensures { result ≡ spec.names_prelude name.now arity }
{
    let mut number = 0;
    while number < allow.member_count() {
        if is_prelude_member(member_at(allow, number), name, arity) {
            return true;
        }
        number += 1;
    }
    false
}

/// A call of a member that is found when the script runs.
fn def_call(
    alloc: Global,
    allow: &Allow,
    access: Access,
    at: u32,
    name: &Text,
    x: Part,
    given: Vec<Part>,
) -> Result<Part, Fail>
    ensures { Keeps (spec.def_call access at name.now x given.items) result }
{
    if names_prelude(allow, name, given.len()) || !is_word(name.as_str().as_bytes()) {
        return Err(refuse(rules::OUT_OF_PROFILE, at));
    }
    let receiver = one_part(alloc, x.into_typed())?;
    let parts = cast_each(alloc, &Ty::Def, given, receiver)?;
    let name = copy(alloc, name)?;
    let node = accessed(access, Operation::DefCall(name), parts);
    part(alloc, at, Form::Deed, Ty::Def, node)
}

/// A call of a member of a value, at its `.` or `?.`, with arguments that are typed.
///
/// UnknownMember (7): the value's type has no such member. BadCast (9): an argument has another type. BadNullable (17): `?.` before
/// what gives a primitive. OutOfProfile (19): the member is not built, or the value is a def, and the prelude has a member of this name
/// with so many parameters.
pub fn method_of(
    alloc: Global,
    allow: &Allow,
    access: Access,
    at: u32,
    name: &Text,
    x: Part,
    given: Vec<Part>,
) -> Result<Part, Fail>
    ensures { Keeps (spec.method_of allow.now access at name.now x given.items) result }
{
    let class = match x.of() {
        Ty::Class(class) => *class,
        Ty::Def => return def_call(alloc, allow, access, at, name, x, given),
        _ => return Err(refuse(rules::UNKNOWN_MEMBER, at)),
    };
    instance_named(alloc, allow, access, at, name, class, x, given)
}

// ---- calls on a class

fn static_call(
    alloc: Global,
    allow: &Allow,
    access: Access,
    at: u32,
    number: u32,
    given: Vec<Part>,
) -> Result<Part, Fail>
    requires { number < length allow.now.members }
    ensures { Keeps (spec.static_call allow.now access at number given.items) result }
{
    let parts = arguments(alloc, allow, number, given, Items::new(alloc))?;
    let (member, of) = called(alloc, allow, access, at, number)?;
    let operation = Operation::Static(member);
    part(alloc, at, Form::Deed, of, Node::Apply { operation, parts })
}

/// A call of a member of a class, at its `.` or `?.`, with arguments that are typed.
///
/// UnknownMember (7): the class has no such member. BadCast (9): an argument has another type. BadNullable (17): `?.` before what
/// gives a primitive. OutOfProfile (19): the member is not built.
pub fn static_of(
    alloc: Global,
    allow: &Allow,
    access: Access,
    at: u32,
    name: &Text,
    of: &Ty,
    given: Vec<Part>,
) -> Result<Part, Fail>
    ensures { Keeps (spec.static_of allow.now access at name.now of.now given.items) result }
{
    let Ty::Class(class) = of else {
        return Err(refuse(rules::UNKNOWN_MEMBER, at));
    };
    let number = meant(allow, MemberKind::Static, at, *class, name, given.len())?;
    static_call(alloc, allow, access, at, number, given)
}

// ---- `new`

fn constructed(
    alloc: Global,
    allow: &Allow,
    at: u32,
    number: u32,
    given: Vec<Part>,
) -> Result<Part, Fail>
    requires { number < length allow.now.members }
    ensures { Keeps (spec.constructed allow.now at number given.items) result }
{
    let parts = arguments(alloc, allow, number, given, Items::new(alloc))?;
    let (member, of) = called(alloc, allow, Access::Plain, at, number)?;
    let operation = Operation::Constructor(member);
    part(alloc, at, Form::Deed, of, Node::Apply { operation, parts })
}

/// The constructor that a class itself has with so many arguments.
#[tactic(auto, using(crate::proofs::Members::own_too_many))]
fn constructor_meant(allow: &Allow, at: u32, class: u32, count: usize) -> Result<u32, Fail>
    ensures rule { Keeps (spec.wanted allow.now kind.Constructor at (own_member allow.now class [] count)) result }
    ensures within { IfOk result (λ number. number < length allow.now.members) }
{
    let Ok(arity) = u32::try_from(count) else {
        return Err(refuse(rules::UNKNOWN_MEMBER, at));
    };
    let found = constructor_of(allow, class, arity);
    wanted(allow, MemberKind::Constructor, at, found)
}

/// A new object of a class, at the `new`, with arguments that are typed.
///
/// UnknownMember (7): the class has no such constructor. BadCast (9): an argument has another type. OutOfProfile (19): the
/// constructor is not built.
pub fn new_of(
    alloc: Global,
    allow: &Allow,
    at: u32,
    of: &Ty,
    given: Vec<Part>,
) -> Result<Part, Fail>
    ensures { Keeps (spec.new_of allow.now at of.now given.items) result }
{
    let Ty::Class(class) = of else {
        return Err(refuse(rules::UNKNOWN_MEMBER, at));
    };
    let number = constructor_meant(allow, at, *class, given.len())?;
    constructed(alloc, allow, at, number, given)
}

// ---- names behind a dot

pub(crate) fn plainly(x: Part) -> Part
    ensures { result ≡ spec.plainly x }
{
    let at = x.at;
    plain(at, x.into_typed())
}

/// The getter of a name of a value.
pub(crate) fn read_named(
    alloc: Global,
    allow: &Allow,
    access: Access,
    at: u32,
    name: &Text,
    class: u32,
    x: Part,
) -> Result<Part, Fail>
    ensures { Keeps (spec.read_named allow.now access at name.now class x) result }
{
    let found = getter(allow, class, name.as_str());
    let number = wanted(allow, MemberKind::Instance, at, found)?;
    let y = instance_call(alloc, allow, access, at, number, x, Vec::new(alloc))?;
    Ok(plainly(y))
}

fn field_node(
    alloc: Global,
    allow: &Allow,
    access: Access,
    at: u32,
    number: u32,
) -> Result<Part, Fail>
    requires { number < length allow.now.members }
    ensures { Keeps (spec.nullable allow.now access at number (spec.field_node allow.now at number)) result }
{
    let (member, of) = called(alloc, allow, access, at, number)?;
    let operation = Operation::Field(member);
    let parts = Items::new(alloc);
    part(alloc, at, Form::Other, of, Node::Apply { operation, parts })
}

/// A field of a class, at its `.` or `?.`.
///
/// UnknownMember (7): the class has no such field. BadNullable (17): `?.` before a primitive. OutOfProfile (19): the field is not built.
pub fn field_of(
    alloc: Global,
    allow: &Allow,
    access: Access,
    at: u32,
    name: &Text,
    of: &Ty,
) -> Result<Part, Fail>
    ensures { Keeps (spec.field_of allow.now access at name.now of.now) result }
{
    let Ty::Class(class) = of else {
        return Err(refuse(rules::UNKNOWN_MEMBER, at));
    };
    let found = member_of(allow, *class, name.as_str(), 0);
    let number = wanted(allow, MemberKind::Field, at, found)?;
    field_node(alloc, allow, access, at, number)
}
