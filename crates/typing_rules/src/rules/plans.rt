//! What an operator does with two sides that are primitives to it.

ghost use Rattle.std.specs.Prelude.{◌≡◌, Some};
ghost use Rattle.typing_rules.specs.Rules.Operators as spec;

use arithmetic::Op;
use pl_tree::BinaryOperator;
use pl_types::{Primitive, Ty, promote, unboxed};
use typed_tree::Operator;

/// What is done with two sides that are primitives to an operator: to which types they are cast, what then is done, and of which type
/// that is.
#[derive(Clone, Copy)]
pub struct Plan {
    pub operator: Operator,
    pub left: Primitive,
    pub right: Primitive,
    pub result: Primitive,
}

/// The primitive type that a type is.
pub(crate) fn primitive_of(of: &Ty) -> Option<Primitive>
    ensures { result ≡ spec.primitive_of of.now }
{
    match of {
        Ty::Prim(primitive) => Some(*primitive),
        _ => None,
    }
}

/// The primitive type that a type is, or whose box it is.
pub(crate) fn unboxed_of(of: &Ty) -> Option<Primitive>
    ensures { result ≡ spec.unboxed_of of.now }
{
    match of {
        Ty::Prim(primitive) => Some(*primitive),
        Ty::Class(class) => unboxed(*class),
        _ => None,
    }
}

/// An operator of numbers that are longs, or else ints.
pub(crate) fn on_numbers(primitive: Primitive, op: Op) -> Operator
    ensures { result ≡ spec.on_numbers primitive op }
{
    match primitive {
        Primitive::Long => Operator::Long(op),
        _ => Operator::Int(op),
    }
}

fn arithmetic(op: Op, a: Primitive, b: Primitive) -> Option<Plan>
    ensures { result ≡ spec.arithmetic op a b }
{
    match promote(a, b) {
        None => None,
        Some(promoted) => Some(Plan {
            operator: on_numbers(promoted, op),
            left: promoted,
            right: promoted,
            result: promoted,
        }),
    }
}

fn comparison(op: Op, a: Primitive, b: Primitive) -> Option<Plan>
    ensures { result ≡ spec.comparison op a b }
{
    match promote(a, b) {
        None => None,
        Some(promoted) => Some(Plan {
            operator: on_numbers(promoted, op),
            left: promoted,
            right: promoted,
            result: Primitive::Boolean,
        }),
    }
}

fn shift_of(op: Op, a: Option<Primitive>, b: Option<Primitive>) -> Option<Plan>
    ensures { result ≡ spec.shift_of op a b }
{
    match (a, b) {
        (Some(promoted), Some(_)) => Some(Plan {
            operator: on_numbers(promoted, op),
            left: promoted,
            right: Primitive::Int,
            result: promoted,
        }),
        _ => None,
    }
}

fn shift(op: Op, a: Primitive, b: Primitive) -> Option<Plan>
    ensures { result ≡ spec.shift op a b }
{
    shift_of(op, promote(a, Primitive::Int), promote(b, Primitive::Int))
}

fn of_booleans(op: Op) -> Plan
    ensures { result ≡ spec.of_booleans op }
{
    Plan {
        operator: Operator::Boolean(op),
        left: Primitive::Boolean,
        right: Primitive::Boolean,
        result: Primitive::Boolean,
    }
}

fn bits(op: Op, a: Primitive, b: Primitive) -> Option<Plan>
    ensures { result ≡ spec.bits op a b }
{
    match (a, b) {
        (Primitive::Boolean, Primitive::Boolean) => Some(of_booleans(op)),
        _ => arithmetic(op, a, b),
    }
}

fn equality(op: Op, a: Primitive, b: Primitive) -> Option<Plan>
    ensures { result ≡ spec.equality op a b }
{
    match (a, b) {
        (Primitive::Boolean, Primitive::Boolean) => Some(of_booleans(op)),
        _ => comparison(op, a, b),
    }
}

fn plan_of(operator: BinaryOperator, a: Primitive, b: Primitive) -> Option<Plan>
    ensures { result ≡ spec.plan_of operator a b }
{
    match operator {
        BinaryOperator::Multiply => arithmetic(Op::Mul, a, b),
        BinaryOperator::Divide => arithmetic(Op::Div, a, b),
        BinaryOperator::Remainder => arithmetic(Op::Rem, a, b),
        BinaryOperator::Add => arithmetic(Op::Add, a, b),
        BinaryOperator::Subtract => arithmetic(Op::Sub, a, b),
        BinaryOperator::ShiftLeft => shift(Op::Shl, a, b),
        BinaryOperator::ShiftRight => shift(Op::Shr, a, b),
        BinaryOperator::ShiftRightUnsigned => shift(Op::Ushr, a, b),
        BinaryOperator::Less => comparison(Op::Lt, a, b),
        BinaryOperator::LessEqual => comparison(Op::Le, a, b),
        BinaryOperator::Greater => comparison(Op::Gt, a, b),
        BinaryOperator::GreaterEqual => comparison(Op::Ge, a, b),
        BinaryOperator::Equal => equality(Op::Eq, a, b),
        BinaryOperator::NotEqual => equality(Op::Ne, a, b),
        BinaryOperator::Same => equality(Op::Eq, a, b),
        BinaryOperator::NotSame => equality(Op::Ne, a, b),
        BinaryOperator::And => bits(Op::And, a, b),
        BinaryOperator::Xor => bits(Op::Xor, a, b),
        BinaryOperator::Or => bits(Op::Or, a, b),
        BinaryOperator::AndAnd => None,
        BinaryOperator::OrOr => None,
    }
}

fn is_equality(operator: BinaryOperator) -> bool
    ensures { result ≡ spec.is_equality operator }
{
    match operator {
        BinaryOperator::Equal => true,
        BinaryOperator::NotEqual => true,
        BinaryOperator::Same => true,
        BinaryOperator::NotSame => true,
        _ => false,
    }
}

/// The primitive type that a side has to an operator: a box has that of what is in it, but is itself to `==`, `!=`, `===` and `!==`.
fn primitive_to(operator: BinaryOperator, of: &Ty) -> Option<Primitive>
    ensures { result ≡ spec.primitive_to operator of.now }
{
    if is_equality(operator) {
        primitive_of(of)
    } else {
        unboxed_of(of)
    }
}

/// What an operator that takes both sides does with two types. `None` where it does not take them.
pub fn plan_between(operator: BinaryOperator, a: &Ty, b: &Ty) -> Option<Plan>
    ensures { result ≡ spec.plan_between operator a.now b.now }
{
    match (primitive_to(operator, a), primitive_to(operator, b)) {
        (Some(a), Some(b)) => plan_of(operator, a, b),
        _ => None,
    }
}
