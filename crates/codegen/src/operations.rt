//! Instructions of operations, and of what writes a place.

ghost use Rattle.std.specs.Prelude.{◌≡◌, ◌-◌, [], ◌∷◌, ◌++◌, map, OnOk, true};
ghost use Rattle.listing_parts.specs.Names.{is_word};
ghost use Rattle.codegen.specs.Called.{call_code};
ghost use Rattle.codegen.specs.declared.labels.Line.TheVariants.{Fixed};
ghost use Rattle.codegen.specs.Errors.{OnlyMemory};
ghost use Rattle.codegen.specs.Sound.{Spells, SpellsOperator, SpellsWrite};
ghost use Rattle.member_names.specs.Names.{has_form};
ghost use Rattle.allowlist.specs.declared.member.MemberKind.TheVariants as kinds;
ghost use Rattle.pl_code.specs.declared.code.Instruction.TheVariants as i;
ghost use Rattle.pl_code.specs.declared.kinds.Plain.TheVariants as plain;
ghost use Rattle.pl_types.specs.Texts.{full_text};
ghost use Rattle.compiler_relation.specs.Representation.{representation_of};
ghost use Rattle.compiler_relation.specs.Parts.{operator_code, typed_code, operation_code, write_code, without_null};
ghost use Rattle.program_typing.specs.Types.{IsNamed};
ghost use Rattle.typed_tree.specs.declared.operation.Operation.TheVariants as operation;

use crate::checks::element;
use crate::conversions::{put_cast, put_typed};
use crate::error::CodeError;
use crate::labels::Line;
use crate::naming::{put_member, type_name, word};
use crate::pieces::{one, put_operator, put_without_null};
use crate::representation::representation_of;
use allowlist::MemberKind;
use pl_code::{Instruction, Numbered, Plain, Quoting, Sized, Typed};
use pl_types::Ty;
use plain_data::{Items, Text};
use std::alloc::Global;
use typed_tree::{Operation, Operator};

/// Puts an instruction with a number at the end.
fn put_numbered(lines: &mut Items<Line>, kind: Numbered, number: u32) -> Result<(), CodeError>
    ensures lines { OnOk result (lines.new ≡ lines.old ++ map Fixed (i.Numbered kind number ∷ [])) }
    ensures memory { OnlyMemory result }
{
    one(lines, Instruction::Numbered(kind, number))?;
    Ok(())
}

/// Puts what makes an array of a type at the end. `Malformed` where code has no name for the type.
fn put_sized(
    alloc: Global,
    lines: &mut Items<Line>,
    kind: Sized,
    of: &Ty,
    count: u32,
) -> Result<(), CodeError>
    ensures lines { OnOk result (lines.new ≡ lines.old ++ map Fixed (i.Sized kind (full_text of.now) count ∷ [])) }
    ensures total { IsNamed of.now → OnlyMemory result }
{
    let name = type_name(alloc, of)?;
    one(lines, Instruction::Sized(kind, name, count))?;
    Ok(())
}

/// Puts an operator at the end whose node's type says nothing more.
fn put_plainly(lines: &mut Items<Line>, operator: Operator) -> Result<(), CodeError>
    ensures lines { OnOk result (lines.new ≡ lines.old ++ map Fixed (operator_code operator)) }
    ensures memory { OnlyMemory result }
{
    put_operator(lines, operator)?;
    Ok(())
}

/// Puts an operator of a node of a type at the end, which has so many parts. `Malformed` where code has no name for a type.
fn put_operator_of(
    alloc: Global,
    lines: &mut Items<Line>,
    operator: Operator,
    of: &Ty,
    count: u32,
) -> Result<(), CodeError>
    ensures lines { OnOk result (lines.new ≡ lines.old ++ map Fixed (typed_code operator of.now count)) }
    ensures total { SpellsOperator operator of.now → OnlyMemory result }
{
    match operator {
        Operator::List => put_numbered(lines, Numbered::List, count),
        Operator::Map => put_numbered(lines, Numbered::Map, count / 2),
        Operator::NewArray => put_sized(alloc, lines, Sized::Empty, of, count),
        Operator::ArrayOf => put_sized(alloc, lines, Sized::Filled, element(of), count),
        Operator::Element => put_typed(alloc, lines, Typed::LoadElement, of),
        Operator::PutElement => put_typed(alloc, lines, Typed::StoreElement, of),
        _ => put_plainly(lines, operator),
    }
}

/// Puts a call of a member at the end, or what makes or reads it, which gives a value of a type. `Malformed` where its text has not the
/// form of one.
#[tactic(auto, using(crate::proofs::Lists::one_and_more))]
fn put_call(
    alloc: Global,
    lines: &mut Items<Line>,
    kind: MemberKind,
    text: &Text,
    of: &Ty,
) -> Result<(), CodeError>
    ensures lines { OnOk result (lines.new ≡ lines.old ++ map Fixed (call_code kind text.now ∷ without_null (representation_of of.now))) }
    ensures total { has_form kind text.now ≡ true → OnlyMemory result }
{
    put_member(alloc, lines, kind, text)?;
    put_without_null(lines, representation_of(of))?;
    Ok(())
}

/// How many arguments a call of so many parts has, whose first is a receiver.
fn arguments(count: u32) -> u32
    ensures { result ≡ count - 1 }
{
    if count == 0 { 0 } else { count - 1 }
}

/// Puts a call at the end whose method is found when the code runs. `Malformed` where its name is no word.
fn put_method(
    alloc: Global,
    lines: &mut Items<Line>,
    name: &Text,
    count: u32,
) -> Result<(), CodeError>
    ensures lines { OnOk result (lines.new ≡ lines.old ++ map Fixed (i.DefCall name.now (count - 1) ∷ [])) }
    ensures total { is_word name.now ≡ true → OnlyMemory result }
{
    let word = word(alloc, name)?;
    one(lines, Instruction::DefCall(word, arguments(count)))?;
    Ok(())
}

/// Puts an instruction with a text at the end.
fn put_quoted(
    alloc: Global,
    lines: &mut Items<Line>,
    kind: Quoting,
    text: &Text,
) -> Result<(), CodeError>
    ensures lines { OnOk result (lines.new ≡ lines.old ++ map Fixed (i.Quoted kind text.now ∷ [])) }
    ensures memory { OnlyMemory result }
{
    let text = Text::new(alloc, text.as_str())?;
    one(lines, Instruction::Quoted(kind, text))?;
    Ok(())
}

/// Puts an instruction at the end that has no part.
fn put_plain(lines: &mut Items<Line>, plain: Plain) -> Result<(), CodeError>
    ensures lines { OnOk result (lines.new ≡ lines.old ++ map Fixed (i.Plain plain ∷ [])) }
    ensures memory { OnlyMemory result }
{
    one(lines, Instruction::Plain(plain))?;
    Ok(())
}

/// Puts an operation on so many parts at the end, which gives a value of a type. `Malformed` where code has no name for what it names.
pub fn put_operation(
    alloc: Global,
    lines: &mut Items<Line>,
    does: &Operation,
    of: &Ty,
    count: u32,
) -> Result<(), CodeError>
    ensures lines { OnOk result (lines.new ≡ lines.old ++ map Fixed (operation_code does.now of.now count)) }
    ensures total { Spells does.now of.now → OnlyMemory result }
{
    match does {
        Operation::Operator(it) => put_operator_of(alloc, lines, *it, of, count),
        Operation::Cast(it) => put_cast(alloc, lines, *it, of),
        Operation::InstanceOf(is) => put_typed(alloc, lines, Typed::IsA, is),
        Operation::Function(it) => put_numbered(lines, Numbered::Call, *it),
        Operation::Instance(it) => put_call(alloc, lines, MemberKind::Instance, &it.text, of),
        Operation::Static(it) => put_call(alloc, lines, MemberKind::Static, &it.text, of),
        Operation::Constructor(it) => {
            put_call(alloc, lines, MemberKind::Constructor, &it.text, of)
        }
        Operation::Field(it) => put_call(alloc, lines, MemberKind::Field, &it.text, of),
        Operation::DefCall(name) => put_method(alloc, lines, name, count),
        Operation::DefName(name) => put_quoted(alloc, lines, Quoting::GetName, name),
        Operation::DefIndex => put_plain(lines, Plain::GetIndex),
        _ => Ok(()),
    }
}

/// Puts an operator at the end that writes an element of an array.
fn put_element(
    alloc: Global,
    lines: &mut Items<Line>,
    operator: Operator,
    of: &Ty,
) -> Result<(), CodeError>
    ensures lines { OnOk result (lines.new ≡ lines.old ++ map Fixed (write_code (operation.Operator operator) of.now)) }
    ensures total { SpellsWrite (operation.Operator operator) of.now → OnlyMemory result }
{
    match operator {
        Operator::PutElement => put_typed(alloc, lines, Typed::StoreElement, of),
        _ => Ok(()),
    }
}

/// Puts a call of a member at the end, and drops what it gives.
#[tactic(auto, using(crate::proofs::Lists::one_and_more))]
fn put_setter(alloc: Global, lines: &mut Items<Line>, text: &Text) -> Result<(), CodeError>
    ensures lines { OnOk result (lines.new ≡ lines.old ++ map Fixed (i.Invoke text.now ∷ i.Plain plain.Pop ∷ [])) }
    ensures total { has_form kinds.Instance text.now ≡ true → OnlyMemory result }
{
    put_member(alloc, lines, MemberKind::Instance, text)?;
    one(lines, Instruction::Plain(Plain::Pop))?;
    Ok(())
}

/// Puts an operation at the end that writes a value of a type at a place. `Malformed` where code has no name for what it names.
pub fn put_write(
    alloc: Global,
    lines: &mut Items<Line>,
    does: &Operation,
    of: &Ty,
) -> Result<(), CodeError>
    ensures lines { OnOk result (lines.new ≡ lines.old ++ map Fixed (write_code does.now of.now)) }
    ensures total { SpellsWrite does.now of.now → OnlyMemory result }
{
    match does {
        Operation::Operator(it) => put_element(alloc, lines, *it, of),
        Operation::Instance(it) => put_setter(alloc, lines, &it.text),
        Operation::PutDefName(name) => put_quoted(alloc, lines, Quoting::PutName, name),
        Operation::PutDefIndex => put_plain(lines, Plain::PutIndex),
        _ => Ok(()),
    }
}
