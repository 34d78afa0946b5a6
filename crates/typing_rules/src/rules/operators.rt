//! Operators and the conditional. What is done with references stands apart.

ghost use Rattle.std.specs.Prelude.{◌≡◌, [], ◌∷◌, true, Ok};
ghost use Rattle.typed_tree.specs.declared.operation.Operation.TheVariants as operation;
ghost use Rattle.typing_rules.specs.Outcomes.{Keeps};
ghost use Rattle.typing_rules.specs.Rules.Nodes as nodes;
ghost use Rattle.typing_rules.specs.Rules.Operators as spec;

use crate::part::{Form, Part};
use crate::refuse::refuse;
use crate::rules::casts::{cast_at, cast_to, cast_to_boolean};
use crate::rules::nodes::{boolean, is_void, one_part, part, plain, two_parts};
use crate::rules::plans::{Plan, on_numbers, plan_between, unboxed_of};
use crate::rules::references::{common, reference, related};
pub use crate::rules::references::{elvis_of, instance_of};
use crate::rules::sides::{is_def, relation_between};
use arithmetic::Op;
use pl_tree::{BinaryOperator, UnaryOperator};
use pl_types::{Fail, Primitive, Ty, promote, rules};
use plain_data::Subtree;
use std::alloc::Global;
use typed_tree::{Logical, Node, Operation, Operator, Typed};

/// A side as an operator takes it, the cast standing at a place.
pub(crate) fn operand(
    alloc: Global,
    at: u32,
    to: Primitive,
    x: Part,
) -> Result<Subtree<Typed>, Fail>
    ensures { Keeps (spec.operand at to x) result }
{
    let of = Ty::Prim(to);
    cast_at(alloc, at, &of, x, true)
}

fn strict(
    alloc: Global,
    plan: Option<Plan>,
    operator: BinaryOperator,
    at: u32,
    x: Part,
    y: Part,
) -> Result<Part, Fail>
    ensures { Keeps (spec.strict plan operator at x y) result }
{
    let Some(plan) = plan else {
        let relation = relation_between(operator, x.of(), y.of());
        return related(alloc, relation, at, x, y);
    };
    let left = x.at;
    let right = y.at;
    let x = operand(alloc, left, plan.left, x)?;
    let y = operand(alloc, right, plan.right, y)?;
    let parts = two_parts(alloc, x, y)?;
    let of = Ty::Prim(plan.result);
    let operation = Operation::Operator(plan.operator);
    part(alloc, at, Form::Other, of, Node::Apply { operation, parts })
}

/// A side of `&&`, `||` or `!`.
fn side(alloc: Global, at: u32, x: Part) -> Result<Subtree<Typed>, Fail>
    ensures { Keeps (spec.side at x) result }
{
    if is_void(x.of()) {
        return Err(refuse(rules::BAD_OPERAND, at));
    }
    cast_to_boolean(alloc, x)
}

fn both_sides(alloc: Global, operator: Logical, at: u32, x: Part, y: Part) -> Result<Part, Fail>
    ensures { Keeps (spec.both_sides operator at x y) result }
{
    let left = side(alloc, at, x)?;
    let right = side(alloc, at, y)?;
    let node = Node::Logical {
        operator,
        left,
        right,
    };
    part(alloc, at, Form::Other, boolean(), node)
}

/// `&&` or `||`. A void side is refused before either side is cast, on the right too.
fn logical(alloc: Global, operator: Logical, at: u32, x: Part, y: Part) -> Result<Part, Fail>
    ensures { Keeps (spec.logical operator at x y) result }
{
    if is_void(y.of()) {
        return Err(refuse(rules::BAD_OPERAND, at));
    }
    both_sides(alloc, operator, at, x, y)
}

/// An operator between two operands, at the operator.
///
/// BadCast (9): a side of `&&` or `||` that is no boolean. BadOperand (10): sides of types that the operator does not take.
pub fn binary_of(
    alloc: Global,
    operator: BinaryOperator,
    at: u32,
    x: Part,
    y: Part,
) -> Result<Part, Fail>
    ensures { Keeps (spec.binary_of operator at x y) result }
{
    match operator {
        BinaryOperator::AndAnd => logical(alloc, Logical::And, at, x, y),
        BinaryOperator::OrOr => logical(alloc, Logical::Or, at, x, y),
        _ => {
            let plan = plan_between(operator, x.of(), y.of());
            strict(alloc, plan, operator, at, x, y)
        }
    }
}

fn promoted(x: &Part) -> Option<Primitive>
    ensures { result ≡ spec.promoted x.now }
{
    match unboxed_of(x.of()) {
        None => None,
        Some(primitive) => promote(primitive, Primitive::Int),
    }
}

/// An operator on one operand of a primitive type.
fn on_one(
    alloc: Global,
    operator: Operator,
    at: u32,
    of: Primitive,
    x: Subtree<Typed>,
) -> Result<Part, Fail>
    ensures { Keeps (Ok (nodes.plain at (nodes.applied at (Ty.Prim of) (operation.Operator operator) (x ∷ [])))) result }
{
    let parts = one_part(alloc, x)?;
    let operation = Operation::Operator(operator);
    part(
        alloc,
        at,
        Form::Other,
        Ty::Prim(of),
        Node::Apply { operation, parts },
    )
}

/// An operator on one def.
fn on_def(alloc: Global, op: Op, at: u32, x: Part) -> Result<Part, Fail>
    ensures { Keeps (spec.on_def op at x) result }
{
    let x = reference(alloc, x)?;
    let parts = one_part(alloc, x)?;
    let operation = Operation::Operator(Operator::Def(op));
    let node = Node::Apply { operation, parts };
    part(alloc, at, Form::Other, Ty::Def, node)
}

/// An operator on one operand that is no number.
fn alone(alloc: Global, op: Op, at: u32, x: Part) -> Result<Part, Fail>
    ensures { Keeps (spec.alone op at x) result }
{
    if is_def(x.of()) {
        on_def(alloc, op, at, x)
    } else {
        Err(refuse(rules::BAD_OPERAND, at))
    }
}

fn signed(
    alloc: Global,
    op: Op,
    promoted: Option<Primitive>,
    at: u32,
    x: Part,
) -> Result<Part, Fail>
    ensures { Keeps (spec.signed op promoted at x) result }
{
    let Some(primitive) = promoted else {
        return alone(alloc, op, at, x);
    };
    let place = x.at;
    let x = operand(alloc, place, primitive, x)?;
    on_one(alloc, on_numbers(primitive, op), at, primitive, x)
}

fn plus_as(alloc: Global, promoted: Option<Primitive>, at: u32, x: Part) -> Result<Part, Fail>
    ensures { Keeps (spec.plus_as promoted at x) result }
{
    match promoted {
        None => alone(alloc, Op::Pos, at, x),
        Some(primitive) => {
            let place = x.at;
            let x = operand(alloc, place, primitive, x)?;
            Ok(plain(at, x))
        }
    }
}

fn not_of(alloc: Global, at: u32, x: Part) -> Result<Part, Fail>
    ensures { Keeps (spec.not_of at x) result }
{
    let x = side(alloc, at, x)?;
    on_one(alloc, Operator::Boolean(Op::Not), at, Primitive::Boolean, x)
}

/// An operator before its operand.
///
/// BadCast (9): the operand of `!` is no boolean. BadOperand (10): an operand of a type that the operator does not take.
pub fn unary_of(alloc: Global, operator: UnaryOperator, at: u32, x: Part) -> Result<Part, Fail>
    ensures { Keeps (spec.unary_of operator at x) result }
{
    let primitive = promoted(&x);
    match operator {
        UnaryOperator::Plus => plus_as(alloc, primitive, at, x),
        UnaryOperator::Minus => signed(alloc, Op::Neg, primitive, at, x),
        UnaryOperator::Complement => signed(alloc, Op::Not, primitive, at, x),
        UnaryOperator::Not => not_of(alloc, at, x),
    }
}

fn choice_to(
    alloc: Global,
    at: u32,
    to: Ty,
    condition: Subtree<Typed>,
    x: Part,
    y: Part,
) -> Result<Part, Fail>
    ensures { Keeps (spec.choice_to at to condition x y) result }
{
    let yes = cast_to(alloc, &to, x)?;
    let no = cast_to(alloc, &to, y)?;
    let node = Node::Conditional { condition, yes, no };
    part(alloc, at, Form::Other, to, node)
}

/// A conditional whose sides have one type.
fn choice_alike(
    alloc: Global,
    at: u32,
    condition: Subtree<Typed>,
    x: Part,
    y: Part,
) -> Result<Part, Fail>
    ensures { Keeps (spec.choice_as true at condition x y) result }
{
    let of = x.of().share(alloc)?;
    let node = Node::Conditional {
        condition,
        yes: x.into_typed(),
        no: y.into_typed(),
    };
    part(alloc, at, Form::Other, of, node)
}

/// `condition ? yes : no`, at the `?`.
///
/// BadCast (9): the condition is no boolean, or one side alone is void.
pub fn choice_of(alloc: Global, at: u32, condition: Part, yes: Part, no: Part) -> Result<Part, Fail>
    ensures { Keeps (spec.choice_of at condition yes no) result }
{
    let condition = cast_to_boolean(alloc, condition)?;
    if yes.of().is(no.of()) {
        choice_alike(alloc, at, condition, yes, no)
    } else {
        let to = common(yes.of(), no.of());
        choice_to(alloc, at, to, condition, yes, no)
    }
}
