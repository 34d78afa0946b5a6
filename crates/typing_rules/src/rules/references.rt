//! Operators between references, `?:` and `instanceof`.

ghost use Rattle.std.specs.Prelude.{◌≡◌, IfOk};
ghost use Rattle.pl_types.specs.declared.ty.Ty.{out-Ty};
ghost use Rattle.typing_rules.specs.Outcomes.{Keeps};
ghost use Rattle.typing_rules.specs.Rules.Operators as spec;

use crate::part::{Form, Part};
use crate::refuse::refuse;
use crate::rules::casts::{cast_at, cast_to};
use crate::rules::nodes::{boolean, one_part, part, two_parts};
use crate::rules::plans::primitive_of;
use crate::rules::sides::{may_be_instance, side_of};
use arithmetic::Op;
use pl_types::{Fail, Ty, class_below, classes, promote, rules};
use plain_data::Subtree;
use std::alloc::{AllocError, Global};
use typed_tree::{Node, Operation, Operator, Typed};

fn is_comparison(op: Op) -> bool
    ensures { result ≡ spec.is_comparison op }
{
    match op {
        Op::Lt => true,
        Op::Le => true,
        Op::Gt => true,
        Op::Ge => true,
        _ => false,
    }
}

/// The type of what an operator on references gives.
pub(crate) fn type_given(operator: Operator) -> Ty
    ensures { result ≡ spec.type_given operator }
{
    match operator {
        Operator::Concat => Ty::Class(classes::STRING),
        Operator::Def(op) => {
            if is_comparison(op) {
                boolean()
            } else {
                Ty::Def
            }
        }
        _ => boolean(),
    }
}

/// A side as a reference.
pub(crate) fn reference(alloc: Global, x: Part) -> Result<Subtree<Typed>, Fail>
    ensures { Keeps (spec.reference x) result }
{
    let at = x.at;
    cast_at(alloc, at, &Ty::Def, x, true)
}

/// What is done with two sides as references.
pub(crate) fn related(
    alloc: Global,
    relation: Option<Operator>,
    at: u32,
    x: Part,
    y: Part,
) -> Result<Part, Fail>
    ensures { Keeps (spec.related relation at x y) result }
{
    let Some(relation) = relation else {
        return Err(refuse(rules::BAD_OPERAND, at));
    };
    let x = reference(alloc, x)?;
    let y = reference(alloc, y)?;
    let parts = two_parts(alloc, x, y)?;
    let of = type_given(relation);
    let operation = Operation::Operator(relation);
    part(alloc, at, Form::Other, of, Node::Apply { operation, parts })
}

fn common_class(c: u32, d: u32) -> Ty
    ensures { result ≡ spec.common_class c d }
{
    if class_below(c, d) {
        Ty::Class(d)
    } else if class_below(d, c) {
        Ty::Class(c)
    } else {
        Ty::Def
    }
}

/// The common type of two that are not the same.
pub(crate) fn common(a: &Ty, b: &Ty) -> Ty
    ensures { result ≡ spec.common a.now b.now }
{
    match (a, b) {
        (Ty::Prim(a), Ty::Prim(b)) => match promote(*a, *b) {
            Some(promoted) => Ty::Prim(promoted),
            None => Ty::Def,
        },
        (Ty::Class(c), Ty::Class(d)) => common_class(*c, *d),
        _ => Ty::Def,
    }
}

fn common_of(alloc: Global, a: &Ty, b: &Ty) -> Result<Ty, AllocError>
    ensures { IfOk result (λ of. of ≡ spec.common_of a.now b.now) }
{
    if a.is(b) {
        return a.share(alloc);
    }
    Ok(common(a, b))
}

fn is_literal(form: Form) -> bool
    ensures { result ≡ spec.is_literal form }
{
    match form {
        Form::Number(_) => true,
        Form::True => true,
        Form::Literal => true,
        _ => false,
    }
}

pub(crate) fn is_primitive(of: &Ty) -> bool
    ensures { result ≡ spec.is_primitive (spec.primitive_of of.now) }
{
    match primitive_of(of) {
        Some(_) => true,
        None => false,
    }
}

fn needs_no_other(x: &Part) -> bool
    ensures { result ≡ spec.needs_no_other x.now }
{
    is_literal(x.form) || is_primitive(x.of())
}

fn elvis_by(
    alloc: Global,
    needless: bool,
    at: u32,
    to: Ty,
    left: Subtree<Typed>,
    right: Subtree<Typed>,
) -> Result<Part, Fail>
    ensures { Keeps (spec.elvis_by needless at to left right) result }
{
    if needless {
        return Err(refuse(rules::BAD_NULLABLE, at));
    }
    part(alloc, at, Form::Other, to, Node::Elvis { left, right })
}

fn elvis_to(alloc: Global, at: u32, to: Ty, x: Part, y: Part) -> Result<Part, Fail>
    ensures { Keeps (spec.elvis_to at to x y) result }
{
    let needless = needs_no_other(&x);
    let left = cast_to(alloc, &to, x)?;
    let right = cast_to(alloc, &to, y)?;
    elvis_by(alloc, needless, at, to, left, right)
}

/// `x ?: y`, at the `?:`.
///
/// BadCast (9): one side alone is void. BadNullable (17): the left side is a literal, or never null.
pub fn elvis_of(alloc: Global, at: u32, x: Part, y: Part) -> Result<Part, Fail>
    ensures { Keeps (spec.elvis_of at x y) result }
{
    let to = common_of(alloc, x.of(), y.of())?;
    elvis_to(alloc, at, to, x, y)
}

fn has_instances(of: &Ty) -> bool
    ensures { result ≡ spec.has_instances_layer (out-Ty of.now) }
{
    match of {
        Ty::Class(_) => true,
        Ty::Array(_) => true,
        _ => false,
    }
}

/// `x instanceof T`, at the `instanceof`.
///
/// BadOperand (10): the left side is void or a primitive, or the right side is no class and no array type.
pub fn instance_of(alloc: Global, at: u32, x: Part, of: &Ty) -> Result<Part, Fail>
    ensures { Keeps (spec.instance_of at x of.now) result }
{
    if !(may_be_instance(side_of(x.of())) && has_instances(of)) {
        return Err(refuse(rules::BAD_OPERAND, at));
    }
    let parts = one_part(alloc, x.into_typed())?;
    let operation = Operation::InstanceOf(of.share(alloc)?);
    part(
        alloc,
        at,
        Form::Other,
        boolean(),
        Node::Apply { operation, parts },
    )
}
