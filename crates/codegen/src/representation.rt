//! How values are represented on the operand stack and in locals.

ghost use Rattle.std.specs.Prelude.{◌≡◌, ◌≢◌, MatchResult};
ghost use Rattle.compiler_relation.specs.Representation.{representation_of, kind_of, result_of};
ghost use Rattle.compiler_relation.specs.Parts as parts;
ghost use Rattle.pl_types.specs.declared.ty.Ty.{out-Ty};
ghost use Rattle.codegen.specs.Checks.{denoted};

use crate::error::CodeError;
use arithmetic::Op;
use pl_code::Slot;
use pl_types::{Cast, Primitive, Ty};
use typed_tree::Operator;

/// How the values of a type are represented.
#[derive(Clone, Copy, Debug, PartialEq, Eq)]
pub enum Representation {
    /// As a number, with no box.
    Unboxed,
    /// As the value itself: a reference, or a primitive in its box.
    Boxed,
    /// There is none.
    Absent,
}

/// How the values of a type are represented.
pub fn representation_of(of: &Ty) -> Representation
    ensures { denoted result ≡ representation_of of.now }
{
    match of {
        Ty::Void => Representation::Absent,
        Ty::Prim(_) => Representation::Unboxed,
        Ty::Null => Representation::Boxed,
        Ty::Def => Representation::Boxed,
        Ty::Class(_) => Representation::Boxed,
        Ty::Array(_) => Representation::Boxed,
    }
}

/// What a local of a type holds.
pub fn slot(of: &Ty) -> Slot
    ensures { result ≡ kind_of of.now }
{
    match of {
        Ty::Prim(Primitive::Long) => Slot::J,
        Ty::Prim(_) => Slot::I,
        Ty::Void => Slot::R,
        Ty::Null => Slot::R,
        Ty::Def => Slot::R,
        Ty::Class(_) => Slot::R,
        Ty::Array(_) => Slot::R,
    }
}

/// What a function of a result type gives.
pub fn given(of: &Ty) -> Option<Slot>
    ensures { result ≡ result_of of.now }
{
    match of {
        Ty::Void => None,
        _ => Some(slot(of)),
    }
}

/// How what a cast takes is represented.
pub fn cast_takes(cast: Cast, given: Representation) -> Representation
    ensures { denoted result ≡ parts.cast_takes cast (denoted given) }
{
    match cast {
        Cast::Number(_, _) => Representation::Unboxed,
        Cast::Wrap(_, _) => Representation::Unboxed,
        Cast::CharToText => Representation::Unboxed,
        Cast::Unwrap(_, _) => Representation::Boxed,
        Cast::Implicit => Representation::Boxed,
        Cast::Explicit => Representation::Boxed,
        Cast::TextToChar => Representation::Boxed,
        _ => given,
    }
}

/// How what a cast to a type gives is represented.
pub fn cast_gives(cast: Cast, to: &Ty, given: Representation) -> Representation
    ensures { denoted result ≡ parts.cast_gives cast to.now (denoted given) }
{
    match cast {
        Cast::Number(_, _) => Representation::Unboxed,
        Cast::Wrap(_, _) => Representation::Boxed,
        Cast::CharToText => Representation::Boxed,
        Cast::Unwrap(_, _) => Representation::Unboxed,
        Cast::Implicit => run_time_representation(to),
        Cast::Explicit => run_time_representation(to),
        Cast::TextToChar => Representation::Unboxed,
        _ => given,
    }
}

/// How what a cast gives is represented that is done when the script runs.
fn run_time_representation(to: &Ty) -> Representation
    ensures { denoted result ≡ parts.run_time_representation (out-Ty to.now) }
{
    match to {
        Ty::Prim(_) => Representation::Unboxed,
        Ty::Void => Representation::Boxed,
        Ty::Null => Representation::Boxed,
        Ty::Def => Representation::Boxed,
        Ty::Class(_) => Representation::Boxed,
        Ty::Array(_) => Representation::Boxed,
    }
}

/// How the operands of an operator are represented.
pub fn operator_takes(operator: Operator) -> Representation
    ensures { denoted result ≡ parts.operator_takes operator }
{
    match operator {
        Operator::Int(_) => Representation::Unboxed,
        Operator::Long(_) => Representation::Unboxed,
        Operator::Boolean(_) => Representation::Unboxed,
        Operator::NewArray => Representation::Unboxed,
        _ => Representation::Boxed,
    }
}

/// How what an operator on values of any types gives is represented.
fn dynamic_gives(op: Op) -> Representation
    ensures { denoted result ≡ parts.dynamic_gives op }
{
    match op {
        Op::Lt => Representation::Unboxed,
        Op::Le => Representation::Unboxed,
        Op::Gt => Representation::Unboxed,
        Op::Ge => Representation::Unboxed,
        Op::Eq => Representation::Unboxed,
        Op::Ne => Representation::Unboxed,
        _ => Representation::Boxed,
    }
}

/// How what an operator gives is represented.
pub fn operator_gives(operator: Operator) -> Representation
    ensures { denoted result ≡ parts.operator_gives operator }
{
    match operator {
        Operator::Def(op) => dynamic_gives(op),
        Operator::Concat => Representation::Boxed,
        Operator::List => Representation::Boxed,
        Operator::Map => Representation::Boxed,
        Operator::NewArray => Representation::Boxed,
        Operator::ArrayOf => Representation::Boxed,
        Operator::Iterate => Representation::Boxed,
        Operator::Next => Representation::Boxed,
        _ => Representation::Unboxed,
    }
}

/// Two representations have to be one.
pub fn alike(left: Representation, right: Representation) -> Result<(), CodeError>
    ensures { MatchResult result (λ _. denoted left ≡ denoted right) (λ _. denoted left ≢ denoted right) }
{
    match (left, right) {
        (Representation::Unboxed, Representation::Unboxed) => Ok(()),
        (Representation::Boxed, Representation::Boxed) => Ok(()),
        (Representation::Absent, Representation::Absent) => Ok(()),
        _ => Err(CodeError::Malformed),
    }
}
