//! Which member of a list is found.

ghost use Rattle.std.specs.Prelude.{◌≡◌, ◌<◌, IfSome, length};
ghost use Rattle.allowlist.specs.Allow.{member_of, iface_method_of};
ghost use Rattle.allowlist.specs.Accessors.{accessor_name, arity_of};
ghost use Rattle.allowlist.specs.Index.{member_in};
ghost use Rattle.def_resolve.specs.Resolution.{instance_in, instance_member};

use allowlist::{Accessor, Allow, MemberKind, MemberType};

/// The member of a list with a number.
pub(crate) fn member_at(allow: &Allow, number: u32) -> &MemberType
    requires { number < length allow.now.members }
    ensures { result.now ≡ member_in allow.now number }
{
    allow.member_type(number)
}

/// What a class has with a name and a number of parameters, itself or by its parents.
pub(crate) fn found(allow: &Allow, class: u32, name: &str, arity: u32) -> Option<u32>
    ensures found { result ≡ member_of allow.now class name.now arity }
    ensures within { IfSome result (λ number. number < length allow.now.members) }
{
    allow.member(class, name, arity)
}

/// The same of the accessor of a property.
pub(crate) fn accessor(allow: &Allow, class: u32, accessor: Accessor, property: &str) -> Option<u32>
    ensures found { result ≡ member_of allow.now class (accessor_name accessor property.now) (arity_of accessor) }
    ensures within { IfSome result (λ number. number < length allow.now.members) }
{
    allow.accessor(class, accessor, property)
}

/// The one method of a functional interface.
pub(crate) fn iface_method(allow: &Allow, class: u32) -> Option<u32>
    ensures found { result ≡ iface_method_of class }
    ensures within { IfSome result (λ number. number < length allow.now.members) }
{
    allow.iface_method(class)
}

/// What is found, where it is an instance member.
pub(crate) fn instance_in(allow: &Allow, found: Option<u32>) -> Option<u32>
    requires { IfSome found (λ number. number < length allow.now.members) }
    ensures { result ≡ instance_in allow.now found }
{
    let number = found?;
    match member_at(allow, number).kind {
        MemberKind::Instance => Some(number),
        MemberKind::Constructor | MemberKind::Static | MemberKind::Field => None,
    }
}

/// The instance member of a class with a name and a number of parameters.
#[tactic(auto, unfolding(crate::specs::Resolution::instance_member))]
pub(crate) fn instance_member(allow: &Allow, class: u32, name: &str, arity: u32) -> Option<u32>
    ensures { result ≡ instance_member allow.now class name.now arity }
{
    let found = found(allow, class, name, arity);
    instance_in(allow, found)
}
