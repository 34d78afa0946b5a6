//! What the sides of an operator are to it where they are not both primitives to it.

ghost use Rattle.std.specs.Prelude.{◌≡◌};
ghost use Rattle.pl_tree.specs.declared.operator.BinaryOperator.TheVariants as binary;
ghost use Rattle.typing_rules.specs.Rules.Operators as spec;
ghost use Rattle.typing_rules.specs.Rules.Sides.{seen};

use arithmetic::Op;
use pl_tree::BinaryOperator;
use pl_types::{Ty, class_below, classes};
use typed_tree::Operator;

/// What a side is to an operator.
#[derive(Clone, Copy)]
pub enum Side {
    Void,
    Null,
    Primitive,
    Def,
    /// A String.
    Text,
    /// An array, an Iterable, a Map, or of a class below these.
    Container,
    /// Of any other class.
    Other,
}

fn is_container(class: u32) -> bool
    ensures { result ≡ spec.is_container class }
{
    class_below(class, classes::ITERABLE) || class_below(class, classes::MAP)
}

fn side_of_class(class: u32) -> Side
    ensures { seen result ≡ spec.side_of_class class }
{
    if class == classes::STRING {
        Side::Text
    } else if is_container(class) {
        Side::Container
    } else {
        Side::Other
    }
}

pub(crate) fn side_of(of: &Ty) -> Side
    ensures { seen result ≡ spec.side_of of.now }
{
    match of {
        Ty::Void => Side::Void,
        Ty::Null => Side::Null,
        Ty::Def => Side::Def,
        Ty::Prim(_) => Side::Primitive,
        Ty::Class(class) => side_of_class(*class),
        Ty::Array(_) => Side::Container,
    }
}

/// Whether a text on one side and a value on the other are joined.
fn joins(x: Side, y: Side) -> bool
    ensures { result ≡ spec.joins (seen x) (seen y) }
{
    match (x, y) {
        (Side::Void, _) => false,
        (_, Side::Void) => false,
        (Side::Text, _) => true,
        (_, Side::Text) => true,
        _ => false,
    }
}

/// Whether `==` and `!=` take two sides that are not both of primitive types.
fn compares(x: Side, y: Side) -> bool
    ensures { result ≡ spec.compares (seen x) (seen y) }
{
    match (x, y) {
        (Side::Void, _) => false,
        (_, Side::Void) => false,
        (Side::Primitive, Side::Primitive | Side::Null) => false,
        (Side::Null, Side::Primitive) => false,
        _ => true,
    }
}

/// Whether `===` and `!==` take two sides that are not both of primitive types.
fn identifies(x: Side, y: Side) -> bool
    ensures { result ≡ spec.identifies (seen x) (seen y) }
{
    match (x, y) {
        (Side::Null, Side::Void | Side::Primitive) => false,
        (Side::Null, _) => true,
        (Side::Void | Side::Primitive, Side::Null) => false,
        (_, Side::Null) => true,
        (Side::Container, Side::Container) => true,
        _ => false,
    }
}

fn only_if(test: bool, operator: Operator) -> Option<Operator>
    ensures { result ≡ spec.only_if test operator }
{
    if test { Some(operator) } else { None }
}

/// Whether one side has a type that is found when the script runs, and the other may be a value.
fn is_dynamic(x: Side, y: Side) -> bool
    ensures { result ≡ spec.is_dynamic (seen x) (seen y) }
{
    match (x, y) {
        (Side::Void, _) => false,
        (_, Side::Void) => false,
        (Side::Def, _) => true,
        (_, Side::Def) => true,
        _ => false,
    }
}

/// An operator as it is found when the script runs. The equalities have operators of their own.
fn dynamic_op(operator: BinaryOperator) -> Option<Op>
    ensures { result ≡ spec.dynamic_op operator }
{
    match operator {
        BinaryOperator::Multiply => Some(Op::Mul),
        BinaryOperator::Divide => Some(Op::Div),
        BinaryOperator::Remainder => Some(Op::Rem),
        BinaryOperator::Add => Some(Op::Add),
        BinaryOperator::Subtract => Some(Op::Sub),
        BinaryOperator::ShiftLeft => Some(Op::Shl),
        BinaryOperator::ShiftRight => Some(Op::Shr),
        BinaryOperator::ShiftRightUnsigned => Some(Op::Ushr),
        BinaryOperator::Less => Some(Op::Lt),
        BinaryOperator::LessEqual => Some(Op::Le),
        BinaryOperator::Greater => Some(Op::Gt),
        BinaryOperator::GreaterEqual => Some(Op::Ge),
        BinaryOperator::And => Some(Op::And),
        BinaryOperator::Xor => Some(Op::Xor),
        BinaryOperator::Or => Some(Op::Or),
        _ => None,
    }
}

fn dynamic_if(test: bool, op: Option<Op>) -> Option<Operator>
    ensures { result ≡ spec.dynamic_if test op }
{
    match (test, op) {
        (true, Some(op)) => Some(Operator::Def(op)),
        _ => None,
    }
}

fn dynamic_of(operator: BinaryOperator, x: Side, y: Side) -> Option<Operator>
    ensures { result ≡ spec.dynamic_of operator (seen x) (seen y) }
{
    dynamic_if(is_dynamic(x, y), dynamic_op(operator))
}

/// What is done with two sides of which one has a type that is found when the script runs. `None` where none has.
pub(crate) fn dynamic_between(operator: BinaryOperator, x: &Ty, y: &Ty) -> Option<Operator>
    ensures { result ≡ spec.dynamic_between operator x.now y.now }
{
    dynamic_of(operator, side_of(x), side_of(y))
}

fn sum_of(x: Side, y: Side) -> Option<Operator>
    ensures { result ≡ spec.relation_of binary.Add (seen x) (seen y) }
{
    if joins(x, y) {
        Some(Operator::Concat)
    } else {
        dynamic_of(BinaryOperator::Add, x, y)
    }
}

fn relation_of(operator: BinaryOperator, x: Side, y: Side) -> Option<Operator>
    ensures { result ≡ spec.relation_of operator (seen x) (seen y) }
{
    match operator {
        BinaryOperator::Add => sum_of(x, y),
        BinaryOperator::Equal => only_if(compares(x, y), Operator::Equal),
        BinaryOperator::NotEqual => only_if(compares(x, y), Operator::NotEqual),
        BinaryOperator::Same => only_if(identifies(x, y), Operator::Same),
        BinaryOperator::NotSame => only_if(identifies(x, y), Operator::NotSame),
        _ => dynamic_of(operator, x, y),
    }
}

/// What is done with two sides that are not both primitives to an operator. `None` where nothing is.
pub(crate) fn relation_between(operator: BinaryOperator, x: &Ty, y: &Ty) -> Option<Operator>
    ensures { result ≡ spec.relation_between operator x.now y.now }
{
    relation_of(operator, side_of(x), side_of(y))
}

/// Whether a type is found when the script runs.
pub(crate) fn is_def(of: &Ty) -> bool
    ensures { result ≡ spec.is_def_side (spec.side_of of.now) }
{
    match side_of(of) {
        Side::Def => true,
        _ => false,
    }
}

/// Whether a side may be an instance of a class.
pub(crate) fn may_be_instance(side: Side) -> bool
    ensures { result ≡ spec.may_be_instance (seen side) }
{
    match side {
        Side::Void => false,
        Side::Primitive => false,
        _ => true,
    }
}
