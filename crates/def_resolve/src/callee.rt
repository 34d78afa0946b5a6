//! What a call on a value means.

ghost use Rattle.std.specs.Prelude.{◌≡◌};
ghost use Rattle.allowlist.specs.Allow.{has_name};
ghost use Rattle.def_resolve.specs.Resolution.{IsConfined, method_called, target_of};

use crate::lookup::{iface_method, instance_member, member_at};
use allowlist::{Allow, MemberType};

/// What a call on a value means.
#[derive(Clone, Copy)]
pub enum Callee {
    /// A member of the list, by its number. It is called on the value.
    Member(u32),
    /// The method of the value's interface, by its number. What the value stands for is called.
    Iface(u32),
}

fn is_called(member: &MemberType, name: &str, arity: u32) -> bool
    ensures { result ≡ has_name name.now arity member.now }
{
    member.name.as_str() == name && member.params.len() == arity as usize
}

/// The one method of an interface, where it has this name and this number of parameters.
#[tactic(auto, unfolding(crate::specs::Resolution::method_called))]
fn method_called(allow: &Allow, class: u32, name: &str, arity: u32) -> Option<u32>
    ensures { result ≡ method_called class name.now arity }
{
    let number = iface_method(allow, class)?;
    if is_called(member_at(allow, number), name, arity) {
        Some(number)
    } else {
        None
    }
}

/// What a call means on a value of a class ([`class_of`](crate::class_of) tells it), by the name and the number of arguments: for
/// a functional interface its one method, else the class's own instance member that the list allows, else the first that its
/// parents give, depth first in their order. A class that the list leaves out has no members of its own, and still has its
/// parents. It takes no memory, and what it gives depends on these arguments alone, so a caller may keep it.
///
/// `None`: there is no such member, or what is found first is static, a constructor or a field.
#[tactic(auto, unfolding(crate::specs::Resolution::target_of))]
pub fn resolve(allow: &Allow, class: u32, name: &str, arity: u32) -> Option<Callee>
    ensures exact { result ≡ target_of allow.now class name.now arity }
    ensures confined { IsConfined allow.now class name.now arity result }
{
    if let Some(method) = method_called(allow, class, name, arity) {
        return Some(Callee::Iface(method));
    }
    let number = instance_member(allow, class, name, arity)?;
    Some(Callee::Member(number))
}
