//! Types and members that code names.

ghost use Rattle.std.specs.Prelude.{◌≡◌, true, [], ◌∷◌, ◌++◌, IfOk, OnOk};
ghost use Rattle.codegen.specs.Called.{call_code};
ghost use Rattle.codegen.specs.declared.labels.Line.TheVariants.{Fixed};
ghost use Rattle.member_names.specs.Names.{has_form};
ghost use Rattle.listing_parts.specs.Names.{is_method, is_constructor, is_field, is_word};
ghost use Rattle.codegen.specs.Errors.{OnlyMemory};
ghost use Rattle.pl_types.specs.Texts.{full_text};
ghost use Rattle.program_typing.specs.Types.{IsNamed};

use crate::error::CodeError;
use crate::labels::Line;
use crate::pieces::one;
use allowlist::MemberKind;
use listing_parts::{ConstructorName, FieldName, MethodName, TypeName, Word};
use pl_code::Instruction;
use pl_types::Ty;
use plain_data::{Items, Text};
use std::alloc::Global;

/// The text of a type. `Malformed` where that has not the form of one that code names, as that of `null`.
pub fn type_name(alloc: Global, of: &Ty) -> Result<TypeName, CodeError>
    ensures name { IfOk result (λ name. name ≡ full_text of.now) }
    ensures total { IsNamed of.now → OnlyMemory result }
{
    let text = of.full_text(alloc)?;
    let Some(name) = TypeName::new(alloc, text.as_str())? else {
        return Err(CodeError::Malformed);
    };
    Ok(name)
}

/// The text of a method. `Malformed` where it has not that form.
fn method_name(alloc: Global, text: &Text) -> Result<MethodName, CodeError>
    ensures name { IfOk result (λ name. name ≡ text.now) }
    ensures total { is_method text.now ≡ true → OnlyMemory result }
{
    let Some(name) = MethodName::new(alloc, text.as_str())? else {
        return Err(CodeError::Malformed);
    };
    Ok(name)
}

/// The text of a constructor. `Malformed` where it has not that form.
fn constructor_name(alloc: Global, text: &Text) -> Result<ConstructorName, CodeError>
    ensures name { IfOk result (λ name. name ≡ text.now) }
    ensures total { is_constructor text.now ≡ true → OnlyMemory result }
{
    let Some(name) = ConstructorName::new(alloc, text.as_str())? else {
        return Err(CodeError::Malformed);
    };
    Ok(name)
}

/// The text of a field. `Malformed` where it has not that form.
fn field_name(alloc: Global, text: &Text) -> Result<FieldName, CodeError>
    ensures name { IfOk result (λ name. name ≡ text.now) }
    ensures total { is_field text.now ≡ true → OnlyMemory result }
{
    let Some(name) = FieldName::new(alloc, text.as_str())? else {
        return Err(CodeError::Malformed);
    };
    Ok(name)
}

/// A name that a call finds its method by. `Malformed` where it is no word.
pub fn word(alloc: Global, name: &Text) -> Result<Word, CodeError>
    ensures word { IfOk result (λ word. word ≡ name.now) }
    ensures total { is_word name.now ≡ true → OnlyMemory result }
{
    let Some(word) = Word::new(alloc, name.as_str())? else {
        return Err(CodeError::Malformed);
    };
    Ok(word)
}

fn instruction(alloc: Global, kind: MemberKind, text: &Text) -> Result<Instruction, CodeError>
    ensures instruction { IfOk result (λ instruction. instruction ≡ call_code kind text.now) }
    ensures total { has_form kind text.now ≡ true → OnlyMemory result }
{
    match kind {
        MemberKind::Constructor => Ok(Instruction::New(constructor_name(alloc, text)?)),
        MemberKind::Static => Ok(Instruction::Invoke(method_name(alloc, text)?)),
        MemberKind::Instance => Ok(Instruction::Invoke(method_name(alloc, text)?)),
        MemberKind::Field => Ok(Instruction::Field(field_name(alloc, text)?)),
    }
}

/// Puts a call of a member at the end, or what makes or reads it. `Malformed` where its text has not the form of one.
pub fn put_member(
    alloc: Global,
    lines: &mut Items<Line>,
    kind: MemberKind,
    text: &Text,
) -> Result<(), CodeError>
    ensures lines { OnOk result (lines.new ≡ lines.old ++ Fixed (call_code kind text.now) ∷ []) }
    ensures total { has_form kind text.now ≡ true → OnlyMemory result }
{
    let instruction = instruction(alloc, kind, text)?;
    one(lines, instruction)?;
    Ok(())
}
