//! The texts of members.
ghost use Rattle.std.specs.Prelude.{◌≡◌, ◌++◌, ◌<◌, IfOk, OnOk, length, string_bytes, codes};
ghost use Rattle.allowlist.specs.Index.{member_in};
ghost use Rattle.member_names.specs.Names as spec;

use allowlist::{Allow, MemberKind, MemberType};
use itoa::Buffer;
use pl_types::class_full;
use std::alloc::{AllocError, Global};

// The number of parameters, behind a `/`.
fn push_arity(text: &mut String, member: &MemberType) -> Result<(), AllocError>
    ensures { OnOk result (string_bytes text.new ≡ string_bytes text.old ++ spec.arity_text member.now) }
{
    text.push('/')?;
    let mut buffer = Buffer::new();
    text.push_str(buffer.format(member.params.len()))
}

// The name of a member that has one, behind its class.
fn push_name(text: &mut String, member: &MemberType) -> Result<(), AllocError>
    ensures { OnOk result (string_bytes text.new ≡ string_bytes text.old ++ codes "." ++ member.now.name) }
{
    text.push('.')?;
    text.push_str(member.name.as_str())
}

/// The text of a member of a list, by its number: `java.util.List.get/1`, of a constructor `java.util.ArrayList/0`, of a field
/// `java.lang.Integer.MAX_VALUE`.
#[tactic(auto, using(crate::proofs::Naming::owner_within, crate::proofs::Naming::at_number))]
pub fn member_text(alloc: Global, allow: &Allow, number: u32) -> Result<String, AllocError>
    requires { number < length allow.now.members }
    ensures { IfOk result (λ text. string_bytes text ≡ spec.text_of (member_in allow.now number)) }
{
    text_of(alloc, allow.member_type(number))
}

// The text of a member.
fn text_of(alloc: Global, member: &MemberType) -> Result<String, AllocError>
    requires { member.now.owner < 57 }
    ensures { IfOk result (λ text. string_bytes text ≡ spec.text_of member.now) }
{
    let mut text = String::from_str(alloc, class_full(member.owner))?;
    match member.kind {
        MemberKind::Constructor => push_arity(&mut text, member)?,
        MemberKind::Field => push_name(&mut text, member)?,
        MemberKind::Static | MemberKind::Instance => {
            push_name(&mut text, member)?;
            push_arity(&mut text, member)?;
        }
    }
    Ok(text)
}
