//! Members by their texts.

ghost use Rattle.std.specs.Prelude.{◌≡◌, ◌<◌, IfSome, length, option_map};
ghost use Rattle.allowlist.specs.Allow.{member_of};
ghost use Rattle.instruction_types.specs.Members.{behind_dots, owner_part, called_part, arity_part, is_sought, own_named, member_named, method_of, constructor_of, field_of};
ghost use Rattle.instruction_types.specs.Calls.{seen_called, called_of};

use allowlist::{Allow, MemberKind};
use listing_parts::{ConstructorName, FieldName, MethodName, natural};
use pl_types::class_of_full_bytes;

/// Which members are looked for.
#[derive(Clone, Copy)]
pub(crate) enum Sought {
    Called,
    Made,
    Read,
}

/// What stands behind the last dot, or all where there is none.
fn behind_dots(text: &str) -> &str
    ensures { result.now ≡ behind_dots text.now }
{
    let mut rest = text;
    while let Some((_, after)) = rest.split_once('.') {
        rest = after;
    }
    rest
}

/// What stands before the last dot.
#[tactic(auto, unfolding(crate::specs::Members::owner_part))]
fn owner_part(text: &str) -> &[u8]
    ensures { result.now ≡ owner_part text.now }
{
    let name = behind_dots(text).len();
    let bytes = text.as_bytes();
    let end = bytes.len().saturating_sub(name).saturating_sub(1);
    &bytes[..end]
}

/// What stands before `/`, and the number of arguments behind it.
#[tactic(auto, unfolding(crate::specs::Members::called_part, crate::specs::Members::arity_part))]
fn called(text: &str) -> Option<(&str, u32)>
    ensures { option_map seen_called result ≡ called_of text.now }
{
    let (front, arity) = text.split_once('/')?;
    match natural(arity) {
        Some(arity) => Some((front, arity)),
        None => None,
    }
}

fn is_sought(sought: Sought, kind: MemberKind) -> bool
    ensures { result ≡ is_sought sought kind }
{
    match sought {
        Sought::Called => matches!(kind, MemberKind::Static | MemberKind::Instance),
        Sought::Made => matches!(kind, MemberKind::Constructor),
        Sought::Read => matches!(kind, MemberKind::Field),
    }
}

fn found(allow: &Allow, class: u32, name: &str, arity: u32) -> Option<u32>
    ensures found { result ≡ member_of allow.now class name.now arity }
    ensures within { IfSome result (λ number. number < length allow.now.members) }
{
    allow.member(class, name, arity)
}

/// The member that the list allows of a class, if it is the class's own.
#[tactic(auto, unfolding(crate::specs::Members::own_named))]
fn own_named(allow: &Allow, sought: Sought, name: &str, arity: u32, class: u32) -> Option<u32>
    ensures found { result ≡ own_named allow.now sought name.now arity class }
    ensures within { IfSome result (λ number. number < length allow.now.members) }
{
    let number = found(allow, class, name, arity)?;
    let member = allow.member_type(number);
    if member.owner == class && is_sought(sought, member.kind) {
        Some(number)
    } else {
        None
    }
}

#[tactic(auto, unfolding(crate::specs::Members::member_named))]
fn member_named(allow: &Allow, sought: Sought, class: &[u8], name: &str, arity: u32) -> Option<u32>
    ensures found { result ≡ member_named allow.now sought class.now name.now arity }
    ensures within { IfSome result (λ number. number < length allow.now.members) }
{
    match class_of_full_bytes(class) {
        Some(class) => own_named(allow, sought, name, arity, class),
        None => None,
    }
}

/// The number of the method that a list allows and a text names: its class in full, `.`, its name, `/` and the number of its
/// arguments. The class is the one that declares it.
#[tactic(auto, unfolding(crate::specs::Members::method_of, crate::specs::Members::name_part))]
pub fn method_of(allow: &Allow, method: &MethodName) -> Option<u32>
    ensures found { result ≡ method_of allow.now method.now }
    ensures within { IfSome result (λ number. number < length allow.now.members) }
{
    match called(method.as_str()) {
        Some((front, arity)) => {
            let class = owner_part(front);
            let name = behind_dots(front);
            member_named(allow, Sought::Called, class, name, arity)
        }
        None => None,
    }
}

/// The number of the constructor that a list allows and a text names: its class in full, `/` and the number of its arguments.
#[tactic(auto, unfolding(crate::specs::Members::constructor_of))]
pub fn constructor_of(allow: &Allow, constructor: &ConstructorName) -> Option<u32>
    ensures found { result ≡ constructor_of allow.now constructor.now }
    ensures within { IfSome result (λ number. number < length allow.now.members) }
{
    match called(constructor.as_str()) {
        Some((front, arity)) => member_named(allow, Sought::Made, front.as_bytes(), "", arity),
        None => None,
    }
}

/// The number of the field that a list allows and a text names: its class in full, `.` and its name.
#[tactic(auto, unfolding(crate::specs::Members::field_of, crate::specs::Members::name_part))]
pub fn field_of(allow: &Allow, field: &FieldName) -> Option<u32>
    ensures found { result ≡ field_of allow.now field.now }
    ensures within { IfSome result (λ number. number < length allow.now.members) }
{
    let text = field.as_str();
    let class = owner_part(text);
    let name = behind_dots(text);
    member_named(allow, Sought::Read, class, name, 0)
}
