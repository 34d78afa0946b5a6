//! Loops over elements: each is a `for` that declares an iterator, and in each turn the variable.

ghost use Rattle.std.specs.Prelude.{◌≡◌, [], ◌∷◌, IfOk, Some, None, Ok};
ghost use Rattle.pl_types.specs.declared.ty.Ty.{out-Ty};
ghost use Rattle.typing_rules.specs.Outcomes.{Keeps};
ghost use Rattle.typed_tree.specs.declared.operation.Operation.TheVariants as operation;
ghost use Rattle.typing_rules.specs.Rules.Loops as spec;
ghost use Rattle.typing_rules.specs.Rules.Nodes as nodes;
ghost use Rattle.typing_rules.specs.Scopes.{find};

use crate::lineage::Classes;
use crate::part::{Each, Part, Step};
use crate::refuse::refuse;
use crate::rules::casts::cast_at;
use crate::rules::nodes::{boolean, one_part, plain, typed};
use crate::rules::places::copy;
use crate::rules::statements::made;
use crate::state::State;
use pl_types::{Fail, Ty, cast, class_below, classes, rules};
use plain_data::{Items, Subtree, Text};
use std::alloc::{AllocError, Global};
use typed_tree::{Node, Operation, Operator, StatementNode, Typed, TypedStatement, TypedVariable};

fn iterator_name(alloc: Global) -> Result<Text, AllocError>
    ensures { IfOk result (λ name. name ≡ spec.iterator_name) }
{
    Text::new(alloc, "#iterator")
}

fn iterator(alloc: Global, at: u32) -> Result<Subtree<Typed>, Fail>
    ensures { Keeps (Ok (spec.iterator at)) result }
{
    let name = iterator_name(alloc)?;
    let of = Ty::Class(classes::ITERATOR);
    typed(alloc, at, of, Node::Local(name))
}

/// An operator on one value.
fn on_one(
    alloc: Global,
    at: u32,
    of: Ty,
    operator: Operator,
    x: Subtree<Typed>,
) -> Result<Subtree<Typed>, Fail>
    ensures { Keeps (Ok (nodes.applied at of (operation.Operator operator) (x ∷ []))) result }
{
    let parts = one_part(alloc, x)?;
    let operation = Operation::Operator(operator);
    typed(alloc, at, of, Node::Apply { operation, parts })
}

/// The iterator over a value.
fn iterated(alloc: Global, at: u32, x: Subtree<Typed>) -> Result<Subtree<Typed>, Fail>
    ensures { Keeps (Ok (spec.iterated at x)) result }
{
    let of = Ty::Class(classes::ITERATOR);
    on_one(alloc, at, of, Operator::Iterate, x)
}

fn has_next(alloc: Global, at: u32) -> Result<Subtree<Typed>, Fail>
    ensures { Keeps (Ok (spec.has_next at)) result }
{
    let iterator = iterator(alloc, at)?;
    on_one(alloc, at, boolean(), Operator::HasNext, iterator)
}

fn next(alloc: Global, at: u32) -> Result<Subtree<Typed>, Fail>
    ensures { Keeps (Ok (spec.next at)) result }
{
    let iterator = iterator(alloc, at)?;
    on_one(alloc, at, Ty::Def, Operator::Next, iterator)
}

/// Whether there is a cast that typing adds.
fn goes(of: &Ty, to: &Ty) -> bool
    ensures { result ≡ spec.goes_to (Some of.now) to.now }
{
    cast(&Classes, of, to, false).is_some()
}

/// Whether a value has elements that go to a type.
fn has_elements(of: &Ty, to: &Ty) -> bool
    ensures { result ≡ spec.goes_to (spec.element_layer (out-Ty of.now)) to.now }
{
    match of {
        Ty::Array(element) => goes(element.get(), to),
        Ty::Class(class) => class_below(*class, classes::ITERABLE) && goes(&Ty::Def, to),
        Ty::Def => goes(&Ty::Def, to),
        _ => false,
    }
}

/// A declaration of one variable.
fn declares(alloc: Global, at: u32, name: Text, of: Ty, value: Subtree<Typed>) -> Result<Step, Fail>
    ensures { Keeps (Ok (spec.declares at name of value)) result }
{
    let mut variables = Items::new(alloc);
    let value = Some(value);
    match variables.push(TypedVariable {
        at,
        name,
        of,
        value,
    }) {
        Ok(()) => made(alloc, false, false, at, StatementNode::Declare(variables)),
        Err(_) => Err(Fail::NoMemory),
    }
}

fn first(alloc: Global, at: u32, x: Subtree<Typed>) -> Result<Step, Fail>
    ensures { Keeps (Ok (spec.declares at spec.iterator_name spec.iterator_type (spec.iterated at x))) result }
{
    let value = iterated(alloc, at, x)?;
    let name = iterator_name(alloc)?;
    declares(alloc, at, name, Ty::Class(classes::ITERATOR), value)
}

/// The next element, as a value of a type.
fn taken(alloc: Global, at: u32, to: &Ty) -> Result<Subtree<Typed>, Fail>
    ensures { Keeps (spec.taken at to.now) result }
{
    let next = next(alloc, at)?;
    cast_at(alloc, at, to, plain(at, next), false)
}

fn each(
    alloc: Global,
    at: u32,
    name: &Text,
    to: &Ty,
    x: Subtree<Typed>,
    value: Subtree<Typed>,
) -> Result<Each, Fail>
    ensures { Keeps (Ok (spec.each at name.now to.now x value)) result }
{
    let first = first(alloc, at, x)?;
    let name = copy(alloc, name)?;
    let to = to.share(alloc)?;
    let element = declares(alloc, at, name, to, value)?;
    Ok(Each { first, element })
}

/// Whether the name of the iterator is in sight.
fn has_iterator(alloc: Global, state: &State) -> Result<Option<usize>, AllocError>
    ensures { IfOk result (λ found. found ≡ find spec.iterator_name state.now.scopes) }
{
    let name = iterator_name(alloc)?;
    Ok(state.scopes.find(&name))
}

/// How a loop over the elements of a value begins, at the loop.
///
/// BadCast (9): the value is no array, no Iterable and no def, or its elements do not go to the variable's type. AlreadyDefined (5): the
/// name of the iterator is in sight, which no script has.
pub fn each_of(
    alloc: Global,
    at: u32,
    name: &Text,
    to: &Ty,
    x: Part,
    state: &State,
) -> Result<Each, Fail>
    ensures { Keeps (spec.each_of at name.now to.now x state.now) result }
{
    match has_iterator(alloc, state)? {
        Some(_) => Err(refuse(rules::ALREADY_DEFINED, at)),
        None => each_over(alloc, at, name, to, x),
    }
}

fn each_over(alloc: Global, at: u32, name: &Text, to: &Ty, x: Part) -> Result<Each, Fail>
    ensures { Keeps (spec.each_over at name.now to.now x) result }
{
    if !has_elements(x.of(), to) {
        return Err(refuse(rules::BAD_CAST, x.at));
    }
    let value = taken(alloc, at, to)?;
    each(alloc, at, name, to, x.into_typed(), value)
}

/// A turn: the variable, and the body.
fn turn(
    alloc: Global,
    at: u32,
    element: Step,
    body: Step,
) -> Result<Subtree<TypedStatement>, AllocError>
    ensures { IfOk result (λ turn. turn ≡ spec.turn at element body) }
{
    let mut statements = Items::new(alloc);
    statements.push(element.into_statement())?;
    statements.push(body.into_statement())?;
    let node = StatementNode::Block(statements);
    TypedStatement::held(alloc, TypedStatement { at, node })
}

/// A loop over elements, with its body.
pub fn each_loop(
    alloc: Global,
    at: u32,
    first: Step,
    element: Step,
    body: Step,
) -> Result<Step, Fail>
    ensures { Keeps (Ok (spec.each_loop at first element body)) result }
{
    let condition = has_next(alloc, at)?;
    let turn = turn(alloc, at, element, body)?;
    let node = StatementNode::Loop {
        first: Some(first.into_statement()),
        condition: Some(condition),
        update: None,
        body: Some(turn),
    };
    made(alloc, false, false, at, node)
}
