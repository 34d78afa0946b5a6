//! Which member of a list a name means.

ghost use Rattle.std.specs.Prelude.{◌≡◌, ◌<◌, [], IfOk, IfSome, length};
ghost use Rattle.std.specs.List.{list_all};
ghost use Rattle.allowlist.specs.Allow.{own_member, member_of, is_in_prelude};
ghost use Rattle.allowlist.specs.Index.{member_in};
ghost use Rattle.typing_rules.specs.Outcomes.{Keeps};
ghost use Rattle.typing_rules.specs.Rules.Locations as locations;
ghost use Rattle.typing_rules.specs.Rules.Members as spec;

use crate::refuse::refuse;
use crate::rules::nodes::is_void;
use crate::rules::types::{is_built, is_built_class};
use allowlist::{Accessor, Allow, MemberKind, MemberType, Origin};
use pl_types::{Fail, Ty, rules};
use plain_data::Text;

/// The member of a list with a number.
pub(crate) fn member_at(allow: &Allow, number: u32) -> &MemberType
    requires { number < length allow.now.members }
    ensures { result.now ≡ member_in allow.now number }
{
    allow.member_type(number)
}

/// The member of a class with a name and a number of parameters, its own or one from above.
pub(crate) fn member_of(allow: &Allow, class: u32, name: &str, arity: u32) -> Option<u32>
    ensures found { result ≡ member_of allow.now class name.now arity }
    ensures within { IfSome result (λ number. number < length allow.now.members) }
{
    allow.member(class, name, arity)
}

/// The constructor that a class itself has with a number of parameters.
#[tactic(auto, using(crate::proofs::Members::own_none, crate::proofs::Members::own_is, crate::proofs::Members::own_other))]
pub(crate) fn constructor_of(allow: &Allow, class: u32, arity: u32) -> Option<u32>
    ensures found { result ≡ own_member allow.now class [] arity }
    ensures within { IfSome result (λ number. number < length allow.now.members) }
{
    let number = member_of(allow, class, "", arity)?;
    if member_at(allow, number).owner == class {
        Some(number)
    } else {
        None
    }
}

/// The getter of a name: what `get` before it means, or else `is`.
pub(crate) fn getter(allow: &Allow, class: u32, name: &str) -> Option<u32>
    ensures found { result ≡ spec.getter allow.now class name.now }
    ensures within { IfSome result (λ number. number < length allow.now.members) }
{
    match allow.accessor(class, Accessor::Get, name) {
        Some(number) => Some(number),
        None => allow.accessor(class, Accessor::Is, name),
    }
}

/// The setter of a name.
#[tactic(auto, using(crate::proofs::Members::setter_is))]
pub(crate) fn setter(allow: &Allow, class: u32, name: &str) -> Option<u32>
    ensures found { result ≡ locations.setter allow.now class name.now }
    ensures within { IfSome result (λ number. number < length allow.now.members) }
{
    allow.accessor(class, Accessor::Set, name)
}

fn is_in_prelude(origin: Origin) -> bool
    ensures { result ≡ is_in_prelude origin }
{
    match origin {
        Origin::Prelude => true,
        Origin::AugmentedPrelude => true,
        _ => false,
    }
}

/// Whether a member is of the prelude, and has a name and so many parameters.
pub(crate) fn is_prelude_member(member: &MemberType, name: &Text, arity: usize) -> bool
    ensures { result ≡ spec.is_prelude_member name.now arity member.now }
{
    is_in_prelude(member.origin)
        && (member.name.as_str() == name.as_str() && member.params.len() == arity)
}

fn is_open(of: &Ty) -> bool
    ensures { result ≡ spec.is_open of.now }
{
    is_void(of) || is_built(of)
}

fn all_open(types: &[Ty]) -> bool
    ensures { result ≡ list_all spec.is_open types.now }
{
    types.iter().all(|of| is_open(of))
}

/// Whether all types that a member names are built.
fn is_open_member(member: &MemberType) -> bool
    ensures { result ≡ spec.is_open_member member.now }
{
    is_built_class(member.owner) && (all_open(member.params.as_slice()) && is_open(&member.result))
}

/// Whether the member of a number is built.
fn is_open_at(allow: &Allow, number: u32) -> bool
    requires { number < length allow.now.members }
    ensures { result ≡ spec.is_open_at allow.now number }
{
    is_open_member(member_at(allow, number))
}

fn is_kind(wanted: MemberKind, kind: MemberKind) -> bool
    ensures { result ≡ spec.is_kind wanted kind }
{
    match (wanted, kind) {
        (MemberKind::Constructor, MemberKind::Constructor) => true,
        (MemberKind::Static, MemberKind::Static) => true,
        (MemberKind::Instance, MemberKind::Instance) => true,
        (MemberKind::Field, MemberKind::Field) => true,
        _ => false,
    }
}

fn wanted_as(allow: &Allow, kind: MemberKind, at: u32, number: u32) -> Result<u32, Fail>
    requires { number < length allow.now.members }
    ensures rule { Keeps (spec.wanted_as allow.now kind at number) result }
    ensures within { IfOk result (λ found. found < length allow.now.members) }
{
    let member = member_at(allow, number);
    if !is_kind(kind, member.kind) {
        return Err(refuse(rules::UNKNOWN_MEMBER, at));
    }
    if !is_open_at(allow, number) {
        return Err(refuse(rules::OUT_OF_PROFILE, at));
    }
    Ok(number)
}

/// What is found, where it is of the kind that is wanted.
///
/// UnknownMember (7): nothing is found, or something of another kind. OutOfProfile (19): it is not built.
pub(crate) fn wanted(
    allow: &Allow,
    kind: MemberKind,
    at: u32,
    found: Option<u32>,
) -> Result<u32, Fail>
    requires { IfSome found (λ number. number < length allow.now.members) }
    ensures rule { Keeps (spec.wanted allow.now kind at found) result }
    ensures within { IfOk result (λ number. number < length allow.now.members) }
{
    match found {
        None => Err(refuse(rules::UNKNOWN_MEMBER, at)),
        Some(number) => wanted_as(allow, kind, at, number),
    }
}
