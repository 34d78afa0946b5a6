//! Names, and what is written to them.

ghost use Rattle.std.specs.Prelude.{◌≡◌, IfOk, Ok, Some};
ghost use Rattle.std.specs.Option.{option_copied};
ghost use Rattle.typing_rules.specs.Outcomes.{Keeps};
ghost use Rattle.typing_rules.specs.Rules.Nodes as nodes;
ghost use Rattle.typing_rules.specs.Rules.Operators.{plan_between, dynamic_between};
ghost use Rattle.typing_rules.specs.Rules.Places as spec;

use crate::lineage::Classes;
use crate::part::{Form, Location, Part, Place};
use crate::refuse::refuse;
use crate::rules::casts::cast_to;
use crate::rules::nodes::{part, plain, typed};
use crate::rules::operators::operand;
use crate::rules::plans::{Plan, plan_between};
use crate::rules::references::{reference, type_given};
use crate::rules::sides::{dynamic_between, relation_between};
use crate::rules::types::is_built;
use crate::scopes::{Entry, Scopes, Standing};
use crate::state::State;
use pl_tree::{BinaryOperator, Step};
use pl_types::{Cast, Fail, Primitive, Ty, cast, rules};
use plain_data::{Items, Subtree, Text};
use std::alloc::{AllocError, Global};
use typed_tree::{Change, Constant, Gives, Node, Operator, Target, Typed};

/// A copy of a name.
pub(crate) fn copy(alloc: Global, name: &Text) -> Result<Text, AllocError>
    ensures { IfOk result (λ c. c ≡ name.now) }
{
    Text::new(alloc, name.as_str())
}

/// Copies of a name and of its type.
pub(crate) fn copies(alloc: Global, name: &Text, of: &Ty) -> Result<(Text, Ty), AllocError>
    ensures { IfOk result (λ c. c ≡ (name.now, of.now)) }
{
    let of = of.share(alloc)?;
    let name = copy(alloc, name)?;
    Ok((name, of))
}

fn local_of(alloc: Global, at: u32, e: &Entry) -> Result<Part, Fail>
    ensures { Keeps (spec.local_of at e.now) result }
{
    if !is_built(&e.of) {
        return Err(refuse(rules::OUT_OF_PROFILE, at));
    }
    let (name, of) = copies(alloc, &e.name, &e.of)?;
    part(alloc, at, Form::Other, of, Node::Local(name))
}

fn entry_of<'a>(scopes: &'a Scopes, name: &Text) -> Option<&'a Entry>
    ensures { option_copied result ≡ spec.entry_of name.now scopes.now }
{
    match scopes.find(name) {
        Some(at) => scopes.get(at),
        None => None,
    }
}

/// A name's value.
///
/// UnknownVariable (4): the name is not in sight. OutOfProfile (19): it is of a type that is not built.
pub fn local(alloc: Global, at: u32, name: &Text, state: &State) -> Result<Part, Fail>
    ensures { Keeps (spec.local at name.now state.now) result }
{
    match entry_of(&state.scopes, name) {
        Some(e) => local_of(alloc, at, e),
        None => Err(refuse(rules::UNKNOWN_VARIABLE, at)),
    }
}

fn is_fixed(standing: Standing) -> bool
    ensures { result ≡ spec.is_fixed standing }
{
    match standing {
        Standing::Variable => false,
        Standing::Fixed => true,
    }
}

/// A variable as what is written to.
fn variable_at(alloc: Global, name: Text, of: Ty) -> Result<Place, Fail>
    ensures { Keeps (Ok (Place.Written (spec.variable_at name of))) result }
{
    let gives = of.share(alloc)?;
    Ok(Place::Written(Location {
        target: Target::Local(name),
        parts: Items::new(alloc),
        gives,
        takes: of,
    }))
}

fn written_of(alloc: Global, at: u32, fixed: bool, e: &Entry) -> Result<Place, Fail>
    ensures { Keeps (spec.written_of at fixed e.now) result }
{
    if !is_built(&e.of) {
        return Err(refuse(rules::OUT_OF_PROFILE, at));
    }
    if fixed {
        return Ok(Place::Fixed);
    }
    match copies(alloc, &e.name, &e.of) {
        Ok((name, of)) => variable_at(alloc, name, of),
        Err(_) => Err(Fail::NoMemory),
    }
}

/// A name as what is written to. The refusals are those of [`local`].
pub fn written(alloc: Global, at: u32, name: &Text, state: &State) -> Result<Place, Fail>
    ensures { Keeps (spec.written at name.now state.now) result }
{
    let Some(i) = state.scopes.find(name) else {
        return Err(refuse(rules::UNKNOWN_VARIABLE, at));
    };
    match state.scopes.get(i) {
        Some(e) => written_of(alloc, at, is_fixed(e.standing) || i < state.base, e),
        None => Err(refuse(rules::UNKNOWN_VARIABLE, at)),
    }
}

fn set(alloc: Global, at: u32, location: Location, x: Part) -> Result<Part, Fail>
    ensures { Keeps (spec.set at location x) result }
{
    let value = cast_to(alloc, &location.takes, x)?;
    let (target, parts, _gives, of) = location.into_parts();
    let node = Node::Assign {
        target,
        parts,
        value,
    };
    part(alloc, at, Form::Deed, of, node)
}

fn change_by(before: Option<Cast>, operator: Operator, after: Option<Cast>) -> Option<Change>
    ensures { result ≡ spec.change_by before operator after }
{
    match (before, after) {
        (Some(before), Some(after)) => Some(Change {
            before,
            operator,
            after,
        }),
        _ => None,
    }
}

/// The change of what is read by an operator: the casts of what is read, and of what comes out.
fn change_between(operator: Operator, left: &Ty, given: &Ty, location: &Location) -> Option<Change>
    ensures { result ≡ spec.change_between operator left.now given.now location.now }
{
    let before = cast(&Classes, &location.gives, left, true);
    let after = cast(&Classes, given, &location.takes, true);
    change_by(before, operator, after)
}

fn change_of(plan: Plan, location: &Location) -> Option<Change>
    ensures { result ≡ spec.change_of plan location.now }
{
    let left = Ty::Prim(plan.left);
    let given = Ty::Prim(plan.result);
    change_between(plan.operator, &left, &given, location)
}

/// The change of what is read, as a reference, by an operator with another.
fn joining_of(operator: Operator, location: &Location) -> Option<Change>
    ensures { result ≡ spec.joining_of operator location.now }
{
    let given = type_given(operator);
    change_between(operator, &Ty::Def, &given, location)
}

fn changed_by(
    alloc: Global,
    change: Option<Change>,
    at: u32,
    location: Location,
    right: Subtree<Typed>,
    gives: Gives,
) -> Result<Part, Fail>
    ensures { Keeps (spec.changed_by change at location right gives) result }
{
    let Some(change) = change else {
        return Err(refuse(rules::BAD_CAST, at));
    };
    let (target, parts, old, new) = location.into_parts();
    let node = Node::Change {
        target,
        parts,
        change,
        right,
        gives,
    };
    match gives {
        Gives::Old => part(alloc, at, Form::Deed, old, node),
        Gives::New => part(alloc, at, Form::Deed, new, node),
    }
}

fn changed(
    alloc: Global,
    at: u32,
    location: Location,
    plan: Plan,
    right: Subtree<Typed>,
    gives: Gives,
) -> Result<Part, Fail>
    ensures { Keeps (spec.changed at location plan right gives) result }
{
    let change = change_of(plan, &location);
    changed_by(alloc, change, at, location, right, gives)
}

fn joined_if(
    alloc: Global,
    operator: Option<Operator>,
    at: u32,
    location: Location,
    x: Part,
    gives: Gives,
) -> Result<Part, Fail>
    ensures { Keeps (spec.joined_if operator at location x gives) result }
{
    let Some(operator) = operator else {
        return Err(refuse(rules::BAD_OPERAND, at));
    };
    let right = reference(alloc, x)?;
    let change = joining_of(operator, &location);
    changed_by(alloc, change, at, location, right, gives)
}

fn compound(
    alloc: Global,
    plan: Option<Plan>,
    operator: BinaryOperator,
    at: u32,
    location: Location,
    x: Part,
) -> Result<Part, Fail>
    ensures { Keeps (spec.compound plan operator at location x) result }
{
    let Some(plan) = plan else {
        let relation = relation_between(operator, &location.gives, x.of());
        return joined_if(alloc, relation, at, location, x, Gives::New);
    };
    let right = operand(alloc, at, plan.right, x)?;
    changed(alloc, at, location, plan, right, Gives::New)
}

fn assigned(
    alloc: Global,
    operator: Option<BinaryOperator>,
    at: u32,
    location: Location,
    x: Part,
) -> Result<Part, Fail>
    ensures { Keeps (spec.assigned operator at location x) result }
{
    match operator {
        None => set(alloc, at, location, x),
        Some(operator) => {
            let plan = plan_between(operator, &location.gives, x.of());
            compound(alloc, plan, operator, at, location, x)
        }
    }
}

/// An assignment, plain or with an operator, at its operator.
///
/// NotAssignable (15): its left side is not written to. BadCast (9): its right side has another type. BadOperand (10): the operator does
/// not take the two sides.
pub fn assign_of(
    alloc: Global,
    at: u32,
    operator: Option<BinaryOperator>,
    place: Place,
    x: Part,
) -> Result<Part, Fail>
    ensures { Keeps (spec.assign_of at operator place x) result }
{
    match place.into_location() {
        Some(location) => assigned(alloc, operator, at, location, x),
        None => Err(refuse(rules::NOT_ASSIGNABLE, at)),
    }
}

/// 1 of a number type.
fn one(alloc: Global, at: u32, primitive: Primitive) -> Result<Subtree<Typed>, Fail>
    ensures { Keeps (Ok (spec.one at primitive)) result }
{
    match primitive {
        Primitive::Long => typed(
            alloc,
            at,
            Ty::Prim(Primitive::Long),
            Node::Constant(Constant::Long(1)),
        ),
        _ => typed(
            alloc,
            at,
            Ty::Prim(Primitive::Int),
            Node::Constant(Constant::Int(1)),
        ),
    }
}

fn operator_of(step: Step) -> BinaryOperator
    ensures { result ≡ spec.operator_of step }
{
    match step {
        Step::Increment => BinaryOperator::Add,
        Step::Decrement => BinaryOperator::Subtract,
    }
}

/// What `++` or `--` does with a number of a type.
fn step_plan(step: Step, of: &Ty) -> Option<Plan>
    ensures { result ≡ plan_between (spec.operator_of step) of.now (Ty.Prim Primitive.Int) }
{
    plan_between(operator_of(step), of, &Ty::Prim(Primitive::Int))
}

/// What it does with a def.
fn step_dynamic(step: Step, of: &Ty) -> Option<Operator>
    ensures { result ≡ dynamic_between (spec.operator_of step) of.now (Ty.Prim Primitive.Int) }
{
    dynamic_between(operator_of(step), of, &Ty::Prim(Primitive::Int))
}

fn one_int(alloc: Global, at: u32) -> Result<Part, Fail>
    ensures { Keeps (Ok (nodes.plain at (spec.one at Primitive.Int))) result }
{
    let one = one(alloc, at, Primitive::Int)?;
    Ok(plain(at, one))
}

/// What `++` and `--` do when the script runs: an int is added.
fn counted_as(
    alloc: Global,
    operator: Option<Operator>,
    at: u32,
    location: Location,
    gives: Gives,
) -> Result<Part, Fail>
    ensures { Keeps (spec.joined_if operator at location (nodes.plain at (spec.one at Primitive.Int)) gives) result }
{
    let right = one_int(alloc, at)?;
    joined_if(alloc, operator, at, location, right, gives)
}

fn counted(
    alloc: Global,
    plan: Option<Plan>,
    at: u32,
    step: Step,
    location: Location,
    gives: Gives,
) -> Result<Part, Fail>
    ensures { Keeps (spec.counted plan at step location gives) result }
{
    let Some(plan) = plan else {
        let operator = step_dynamic(step, &location.gives);
        return counted_as(alloc, operator, at, location, gives);
    };
    let right = one(alloc, at, plan.right)?;
    changed(alloc, at, location, plan, right, gives)
}

fn stepped(
    alloc: Global,
    at: u32,
    step: Step,
    location: Location,
    gives: Gives,
) -> Result<Part, Fail>
    ensures { Keeps (spec.step_if (Some location) at step gives) result }
{
    let plan = step_plan(step, &location.gives);
    counted(alloc, plan, at, step, location, gives)
}

/// `++` or `--`, at its first token.
///
/// NotAssignable (15): its operand is not written to. BadOperand (10): it is neither a number nor a def.
pub fn step_of(alloc: Global, at: u32, step: Step, gives: Gives, place: Place) -> Result<Part, Fail>
    ensures { Keeps (spec.step_of at step gives place) result }
{
    match place.into_location() {
        Some(location) => stepped(alloc, at, step, location, gives),
        None => Err(refuse(rules::NOT_ASSIGNABLE, at)),
    }
}
