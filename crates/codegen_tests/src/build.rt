//! Small typed programs, made by hand.

use arithmetic::Op;
use pl_types::{Cast, Primitive, Ty};
use plain_data::{Items, Subtree, Text};
use std::alloc::{AllocError, Global};
use typed_tree::{
    Change, Constant, FunctionKind, Gives, Logical, Named, Node, Operation, Operator,
    StatementNode, Target, Typed, TypedFunction, TypedStatement, TypedVariable,
};

/// The type `int`.
pub fn int() -> Ty {
    Ty::Prim(Primitive::Int)
}

/// The type `long`.
pub fn long() -> Ty {
    Ty::Prim(Primitive::Long)
}

/// The type `boolean`.
pub fn boolean() -> Ty {
    Ty::Prim(Primitive::Boolean)
}

/// A typed node, held as a tree.
pub fn expression(alloc: Global, of: Ty, node: Node) -> Result<Subtree<Typed>, AllocError> {
    Typed::held(alloc, Typed { at: 0, of, node })
}

/// A constant.
pub fn constant(alloc: Global, of: Ty, it: Constant) -> Result<Subtree<Typed>, AllocError> {
    expression(alloc, of, Node::Constant(it))
}

/// An int.
pub fn number(alloc: Global, it: i32) -> Result<Subtree<Typed>, AllocError> {
    constant(alloc, int(), Constant::Int(it))
}

/// A variable that is read.
pub fn local(alloc: Global, of: Ty, name: &str) -> Result<Subtree<Typed>, AllocError> {
    let name = Text::new(alloc, name)?;
    expression(alloc, of, Node::Local(name))
}

/// An operation on one part.
pub fn one_part(
    alloc: Global,
    of: Ty,
    operation: Operation,
    part: Subtree<Typed>,
) -> Result<Subtree<Typed>, AllocError> {
    let mut parts = Items::new(alloc);
    parts.push(part)?;
    expression(alloc, of, Node::Apply { operation, parts })
}

/// An operator of ints on two parts.
pub fn binary(
    alloc: Global,
    of: Ty,
    op: Op,
    left: Subtree<Typed>,
    right: Subtree<Typed>,
) -> Result<Subtree<Typed>, AllocError> {
    let mut parts = Items::new(alloc);
    parts.push(left)?;
    parts.push(right)?;
    let operation = Operation::Operator(Operator::Int(op));
    expression(alloc, of, Node::Apply { operation, parts })
}

/// A cast between primitive types.
pub fn cast(
    alloc: Global,
    from: Primitive,
    to: Primitive,
    part: Subtree<Typed>,
) -> Result<Subtree<Typed>, AllocError> {
    let operation = Operation::Cast(Cast::Number(from, to));
    one_part(alloc, Ty::Prim(to), operation, part)
}

/// `left && right`.
pub fn both(
    alloc: Global,
    left: Subtree<Typed>,
    right: Subtree<Typed>,
) -> Result<Subtree<Typed>, AllocError> {
    let operator = Logical::And;
    let node = Node::Logical {
        operator,
        left,
        right,
    };
    expression(alloc, boolean(), node)
}

/// `name op= right` of an int.
pub fn changed(
    alloc: Global,
    name: &str,
    op: Op,
    right: Subtree<Typed>,
    gives: Gives,
) -> Result<Subtree<Typed>, AllocError> {
    let target = Target::Local(Text::new(alloc, name)?);
    let change = Change {
        before: Cast::Keep,
        operator: Operator::Int(op),
        after: Cast::Keep,
    };
    let node = Node::Change {
        target,
        parts: Items::new(alloc),
        change,
        right,
        gives,
    };
    expression(alloc, int(), node)
}

/// A statement, held as a tree.
pub fn statement(
    alloc: Global,
    node: StatementNode,
) -> Result<Subtree<TypedStatement>, AllocError> {
    TypedStatement::held(alloc, TypedStatement { at: 0, node })
}

/// An int with its first value.
pub fn variable(
    alloc: Global,
    name: &str,
    value: Subtree<Typed>,
) -> Result<Subtree<TypedStatement>, AllocError> {
    let name = Text::new(alloc, name)?;
    let mut variables = Items::new(alloc);
    variables.push(TypedVariable {
        at: 0,
        name,
        of: int(),
        value: Some(value),
    })?;
    statement(alloc, StatementNode::Declare(variables))
}

/// A variable with its type.
pub fn named(alloc: Global, name: &str, of: Ty) -> Result<Named, AllocError> {
    let name = Text::new(alloc, name)?;
    Ok(Named { name, of })
}

/// A function `f`.
pub fn function(
    alloc: Global,
    kind: FunctionKind,
    parameters: Items<Named>,
    given: Ty,
    body: Items<Subtree<TypedStatement>>,
) -> Result<TypedFunction, AllocError> {
    let name = Text::new(alloc, "f")?;
    Ok(TypedFunction {
        kind,
        at: 0,
        name,
        captured: Items::new(alloc),
        parameters,
        result: given,
        body,
    })
}
