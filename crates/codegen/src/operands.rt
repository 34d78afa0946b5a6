//! How the parts of operations have to be represented.

ghost use Rattle.std.specs.Prelude.{IfOk, MatchResult};
ghost use Rattle.codegen.specs.Called.{member_operation};
ghost use Rattle.codegen.specs.Operands.{OperandsFit, AreOperands, IsAlike};
ghost use Rattle.source_meaning.specs.Programs.{program_of};
ghost use Rattle.typed_tree.specs.declared.operation.Operation.TheVariants as operation;
ghost use Rattle.typed_tree.specs.declared.operation.Operator.TheVariants as operator;

use crate::checks::{asks, cast_fits, element, known};
use crate::error::CodeError;
use crate::expressions::function;
use crate::members::called;
use crate::representation::{
    Representation, alike, cast_takes, operator_gives, operator_takes, representation_of,
};
use crate::scopes::present;
use crate::work_item::Wanted;
use allowlist::{Allow, MemberKind};
use pl_types::{Cast, Ty};
use plain_data::Text;
use std::alloc::Global;
use typed_tree::{Member, Operation, Operator, Program};

/// How so many parts of an operation have to be represented, which gives a value of a type.
pub fn operands<'a>(
    alloc: Global,
    catalogue: &'a Allow,
    program: &'a Program,
    does: &'a Operation,
    of: &Ty,
    count: usize,
) -> Result<Wanted<'a>, CodeError>
    ensures fits { IfOk result (λ w. OperandsFit (program_of program.now) does.now of.now count w) }
    ensures total { AreOperands (program_of program.now) does.now of.now count result }
{
    match does {
        Operation::Operator(it) => of_operator(program, *it, of, count),
        Operation::Cast(it) => of_cast(program, *it, of, count),
        Operation::InstanceOf(is) => of_question(program, is, of, count),
        Operation::Function(it) => of_function(program, *it, of, count),
        Operation::Instance(it) => of_member(
            alloc,
            catalogue,
            program,
            MemberKind::Instance,
            it,
            of,
            count,
        ),
        Operation::Static(it) => of_member(
            alloc,
            catalogue,
            program,
            MemberKind::Static,
            it,
            of,
            count,
        ),
        Operation::Constructor(it) => of_member(
            alloc,
            catalogue,
            program,
            MemberKind::Constructor,
            it,
            of,
            count,
        ),
        Operation::Field(it) => of_member(
            alloc,
            catalogue,
            program,
            MemberKind::Field,
            it,
            of,
            count,
        ),
        Operation::DefCall(name) => of_call(program, name, of, count),
        Operation::DefName(name) => of_name(program, name, of, count),
        Operation::DefIndex => of_index(program, of, count),
        _ => Err(CodeError::Unbuilt),
    }
}

fn of_operator<'a>(
    program: &'a Program,
    operator: Operator,
    of: &Ty,
    count: usize,
) -> Result<Wanted<'a>, CodeError>
    ensures fits { IfOk result (λ w. OperandsFit (program_of program.now) (operation.Operator operator) of.now count w) }
    ensures total { AreOperands (program_of program.now) (operation.Operator operator) of.now count result }
{
    match operator {
        Operator::ArrayOf => of_array(program, of, count),
        Operator::Element => of_element(program, of, count),
        Operator::PutElement => Err(CodeError::Malformed),
        _ => of_alike(program, operator, of, count),
    }
}

/// Whether the operands of an operator are represented as it takes them, whatever its node's type.
fn takes_alike(operator: Operator) -> Result<(), CodeError>
    ensures { MatchResult result (λ _. IsAlike operator) (λ _. IsAlike operator → ⊥) }
{
    match operator {
        Operator::ArrayOf => Err(CodeError::Malformed),
        Operator::Element => Err(CodeError::Malformed),
        Operator::PutElement => Err(CodeError::Malformed),
        _ => Ok(()),
    }
}

fn of_alike<'a>(
    program: &'a Program,
    operator: Operator,
    of: &Ty,
    count: usize,
) -> Result<Wanted<'a>, CodeError>
    ensures fits { IfOk result (λ w. OperandsFit (program_of program.now) (operation.Operator operator) of.now count w) }
    ensures total { IsAlike operator → AreOperands (program_of program.now) (operation.Operator operator) of.now count result }
{
    takes_alike(operator)?;
    alike(representation_of(of), operator_gives(operator))?;
    asks(operator, of, count)?;
    Ok(Wanted::All(operator_takes(operator)))
}

/// The elements of a new array.
fn of_array<'a>(program: &'a Program, of: &Ty, count: usize) -> Result<Wanted<'a>, CodeError>
    ensures fits { IfOk result (λ w. OperandsFit (program_of program.now) (operation.Operator operator.ArrayOf) of.now count w) }
    ensures total { AreOperands (program_of program.now) (operation.Operator operator.ArrayOf) of.now count result }
{
    let element = element(of);
    alike(representation_of(of), Representation::Boxed)?;
    known(element)?;
    present(element)?;
    Ok(Wanted::All(representation_of(element)))
}

/// An array, and an index.
fn of_element<'a>(program: &'a Program, of: &Ty, count: usize) -> Result<Wanted<'a>, CodeError>
    ensures fits { IfOk result (λ w. OperandsFit (program_of program.now) (operation.Operator operator.Element) of.now count w) }
    ensures total { AreOperands (program_of program.now) (operation.Operator operator.Element) of.now count result }
{
    known(of)?;
    present(of)?;
    Ok(Wanted::Indexed)
}

fn of_cast<'a>(
    program: &'a Program,
    cast: Cast,
    of: &Ty,
    count: usize,
) -> Result<Wanted<'a>, CodeError>
    ensures fits { IfOk result (λ w. OperandsFit (program_of program.now) (operation.Cast cast) of.now count w) }
    ensures total { AreOperands (program_of program.now) (operation.Cast cast) of.now count result }
{
    let gives = representation_of(of);
    let given = cast_takes(cast, gives);
    cast_fits(cast, of, given, gives)?;
    Ok(Wanted::All(given))
}

/// Whether a value is of a type.
fn of_question<'a>(
    program: &'a Program,
    is: &Ty,
    of: &Ty,
    count: usize,
) -> Result<Wanted<'a>, CodeError>
    ensures fits { IfOk result (λ w. OperandsFit (program_of program.now) (operation.InstanceOf is.now) of.now count w) }
    ensures total { AreOperands (program_of program.now) (operation.InstanceOf is.now) of.now count result }
{
    alike(representation_of(of), Representation::Unboxed)?;
    known(is)?;
    Ok(Wanted::All(Representation::Boxed))
}

fn of_function<'a>(
    program: &'a Program,
    number: u32,
    of: &Ty,
    count: usize,
) -> Result<Wanted<'a>, CodeError>
    ensures fits { IfOk result (λ w. OperandsFit (program_of program.now) (operation.Function number) of.now count w) }
    ensures total { AreOperands (program_of program.now) (operation.Function number) of.now count result }
{
    let Some(callee) = function(program, number) else {
        return Err(CodeError::Malformed);
    };
    alike(representation_of(of), representation_of(&callee.result))?;
    Ok(Wanted::As(&callee.parameters))
}

/// A receiver, and arguments.
fn of_call<'a>(
    program: &'a Program,
    name: &Text,
    of: &Ty,
    count: usize,
) -> Result<Wanted<'a>, CodeError>
    ensures fits { IfOk result (λ w. OperandsFit (program_of program.now) (operation.DefCall name.now) of.now count w) }
    ensures total { AreOperands (program_of program.now) (operation.DefCall name.now) of.now count result }
{
    if count == 0 {
        return Err(CodeError::Malformed);
    }
    alike(representation_of(of), Representation::Boxed)?;
    Ok(Wanted::All(Representation::Boxed))
}

/// What has a name.
fn of_name<'a>(
    program: &'a Program,
    name: &Text,
    of: &Ty,
    count: usize,
) -> Result<Wanted<'a>, CodeError>
    ensures fits { IfOk result (λ w. OperandsFit (program_of program.now) (operation.DefName name.now) of.now count w) }
    ensures total { AreOperands (program_of program.now) (operation.DefName name.now) of.now count result }
{
    alike(representation_of(of), Representation::Boxed)?;
    Ok(Wanted::All(Representation::Boxed))
}

/// What has an index, and that.
fn of_index<'a>(program: &'a Program, of: &Ty, count: usize) -> Result<Wanted<'a>, CodeError>
    ensures fits { IfOk result (λ w. OperandsFit (program_of program.now) operation.DefIndex of.now count w) }
    ensures total { AreOperands (program_of program.now) operation.DefIndex of.now count result }
{
    alike(representation_of(of), Representation::Boxed)?;
    Ok(Wanted::All(Representation::Boxed))
}

fn of_member<'a>(
    alloc: Global,
    catalogue: &'a Allow,
    program: &'a Program,
    kind: MemberKind,
    named: &Member,
    of: &Ty,
    count: usize,
) -> Result<Wanted<'a>, CodeError>
    ensures fits { IfOk result (λ w. OperandsFit (program_of program.now) (member_operation kind named.now) of.now count w) }
    ensures total { AreOperands (program_of program.now) (member_operation kind named.now) of.now count result }
{
    let member = called(alloc, catalogue, kind, named, of)?;
    Ok(Wanted::Member(kind, &member.params))
}
