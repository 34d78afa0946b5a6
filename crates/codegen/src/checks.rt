//! Whether casts and changes fit the types that they go between.

ghost use Rattle.std.specs.Prelude.{◌≡◌, ◌≢◌, ◌*◌, ◌/◌, Bool, true, MatchResult};
ghost use Rattle.codegen.specs.Checks.{denoted};
ghost use Rattle.pl_types.specs.Texts.{is_known};
ghost use Rattle.compiler_relation.specs.Stands.{AsksKnown, CastFits, ChangeFits, IsDynamic, HasCode, Asks};
ghost use Rattle.source_meaning.specs.Types.{element_of};

use crate::error::CodeError;
use crate::representation::{
    Representation, alike, cast_gives, cast_takes, operator_gives, operator_takes,
    representation_of,
};
use crate::scopes::present;
use arithmetic::Op;
use pl_types::classes::CLASS_COUNT;
use pl_types::{Cast, Ty};
use typed_tree::{Change, Operator};

/// Whether each class in a type is one of the table.
fn is_known(of: &Ty) -> bool
    ensures { result ≡ is_known of.now }
{
    match of {
        Ty::Void => true,
        Ty::Null => true,
        Ty::Def => true,
        Ty::Prim(_) => true,
        Ty::Class(class) => *class < CLASS_COUNT,
        Ty::Array(element) => is_known(element.get()),
    }
}

/// Each class in a type has to be one of the table.
pub fn known(of: &Ty) -> Result<(), CodeError>
    ensures { MatchResult result (λ _. is_known of.now ≡ true) (λ _. is_known of.now ≢ true) }
{
    if is_known(of) {
        Ok(())
    } else {
        Err(CodeError::Malformed)
    }
}

/// A cast asks for a type whose classes are known.
fn asks_known(cast: Cast, to: &Ty) -> Result<(), CodeError>
    ensures { MatchResult result (λ _. AsksKnown cast to.now) (λ _. AsksKnown cast to.now → ⊥) }
{
    match cast {
        Cast::Implicit => known(to),
        Cast::Explicit => known(to),
        _ => Ok(()),
    }
}

/// A cast to a type takes what is represented so, and gives what is represented so.
pub fn cast_fits(
    cast: Cast,
    to: &Ty,
    given: Representation,
    gives: Representation,
) -> Result<(), CodeError>
    ensures { MatchResult result (λ _. CastFits cast to.now (denoted given) (denoted gives)) (λ _. CastFits cast to.now (denoted given) (denoted gives) → ⊥) }
{
    alike(given, cast_takes(cast, given))?;
    alike(gives, cast_gives(cast, to, given))?;
    asks_known(cast, to)?;
    Ok(())
}

/// An operator on values of any types, which is neither `==` nor `!=`.
fn dynamic(op: Op) -> Result<(), CodeError>
    ensures { MatchResult result (λ _. IsDynamic op) (λ _. IsDynamic op → ⊥) }
{
    match op {
        Op::Eq => Err(CodeError::Malformed),
        Op::Ne => Err(CodeError::Malformed),
        _ => Ok(()),
    }
}

/// An operator that has code.
fn has_code(operator: Operator) -> Result<(), CodeError>
    ensures { MatchResult result (λ _. HasCode operator) (λ _. HasCode operator → ⊥) }
{
    match operator {
        Operator::Def(op) => dynamic(op),
        _ => Ok(()),
    }
}

/// So many parts are keys and values by turns.
fn even(count: usize) -> Result<(), CodeError>
    ensures { MatchResult result (λ _. (2 * (count / 2)) ≡ count) (λ _. (2 * (count / 2)) ≢ count) }
{
    if 2 * (count / 2) == count {
        Ok(())
    } else {
        Err(CodeError::Malformed)
    }
}

/// What an operator of a node of a type asks for, which has so many parts.
pub fn asks(operator: Operator, of: &Ty, count: usize) -> Result<(), CodeError>
    ensures { MatchResult result (λ _. Asks operator of.now count) (λ _. Asks operator of.now count → ⊥) }
{
    match operator {
        Operator::Map => even(count),
        Operator::NewArray => known(of),
        _ => has_code(operator),
    }
}

/// The type of an array's elements; of another type that itself.
pub fn element(of: &Ty) -> &Ty
    ensures { result.now ≡ element_of of.now }
{
    match of {
        Ty::Array(element) => element.get(),
        _ => of,
    }
}

/// A change of a value of a type, by a right side that is represented so.
pub fn change_fits(change: Change, of: &Ty, operand: Representation) -> Result<(), CodeError>
    ensures { MatchResult result (λ _. ChangeFits change of.now (denoted operand)) (λ _. ChangeFits change of.now (denoted operand) → ⊥) }
{
    let representation = representation_of(of);
    present(of)?;
    cast_fits(
        change.before,
        of,
        representation,
        operator_takes(change.operator),
    )?;
    alike(operand, operator_takes(change.operator))?;
    cast_fits(
        change.after,
        of,
        operator_gives(change.operator),
        representation,
    )?;
    has_code(change.operator)?;
    Ok(())
}
