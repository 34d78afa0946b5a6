//! Which code has rows for all of its instructions.
ghost use Rattle.std.specs.Prelude.{◌≡◌, ◌↔◌, IsTrue};
ghost use Rattle.std.specs.List.{list_all};
ghost use Rattle.verifier_soundness.specs.Rows as rows;
ghost use Rattle.verifier_soundness.specs.Rows.{HaveRows};

use crate::types::is_full_type;
use allowlist::Allow;
use instruction_types::{constructor_of, field_of, method_of};
use member_calls::is_built;
use pl_code::{Code, FunCode, Instruction};

/// Whether each instruction of code has a row under a list of the members that are allowed.
pub fn have_rows(allow: &Allow, code: &Code) -> bool
    ensures { IsTrue result ↔ HaveRows allow.now code.now.functions }
{
    all_have_rows(allow, code.functions.as_slice())
}

fn all_have_rows(allow: &Allow, functions: &[FunCode]) -> bool
    ensures { result ≡ list_all (rows.function_has_rows allow.now) functions.now }
{
    functions
        .iter()
        .all(|function| function_has_rows(allow, function))
}

fn function_has_rows(allow: &Allow, function: &FunCode) -> bool
    ensures { result ≡ rows.function_has_rows allow.now function.now }
{
    lines_have_rows(allow, function.lines.as_slice())
}

fn lines_have_rows(allow: &Allow, lines: &[Instruction]) -> bool
    ensures { result ≡ list_all (rows.has_row allow.now) lines.now }
{
    lines.iter().all(|instruction| has_row(allow, instruction))
}

fn has_row(allow: &Allow, instruction: &Instruction) -> bool
    ensures { result ≡ rows.has_row allow.now instruction.now }
{
    match instruction {
        Instruction::Typed(_, ty) => is_full_type(ty.as_str().as_bytes()),
        Instruction::Sized(_, ty, _) => is_full_type(ty.as_str().as_bytes()),
        Instruction::Cast(ty, _) => is_full_type(ty.as_str().as_bytes()),
        Instruction::Invoke(method) => member_has_row(method_of(allow, method)),
        Instruction::New(constructor) => member_has_row(constructor_of(allow, constructor)),
        Instruction::Field(field) => member_has_row(field_of(allow, field)),
        Instruction::Lambda(_, _, _) | Instruction::Ref(_, _, _) | Instruction::NewRef(_, _) =>
            false,
        _ => true,
    }
}

/// Whether a member is built.
fn member_has_row(member: Option<u32>) -> bool
    ensures { result ≡ rows.member_has_row member }
{
    match member {
        Some(number) => is_built(number),
        None => false,
    }
}
