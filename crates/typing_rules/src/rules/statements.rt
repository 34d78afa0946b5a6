//! Statements.

ghost use Rattle.std.specs.Prelude.{◌≡◌, ◌&&◌, ◌||◌, map, IfOk, Ok};
ghost use Rattle.std.specs.List.{list_all, list_any};
ghost use Rattle.typing_rules.specs.Outcomes.{Keeps, KeepsBoth, bind};
ghost use Rattle.typing_rules.specs.Rules.Statements as spec;
ghost use Rattle.typing_rules.specs.State as known;

use crate::part::{Caught, Form, Part, Step};
use crate::refuse::refuse;
use crate::rules::casts::{cast_to, cast_to_boolean};
use crate::rules::nodes::is_void;
use crate::rules::places::{copies, copy};
use crate::state::State;
use pl_tree::Spelled;
use pl_types::{Fail, Ty, classes, rules};
use plain_data::{Items, Subtree, Text};
use std::alloc::{AllocError, Global};
use typed_tree::{StatementNode, Typed, TypedCatch, TypedStatement, TypedVariable};

fn step(
    alloc: Global,
    escapes: bool,
    breaks: bool,
    at: u32,
    node: StatementNode,
) -> Result<Step, AllocError>
    ensures { IfOk result (λ y. y ≡ spec.step escapes breaks at node) }
{
    let statement = TypedStatement::held(alloc, TypedStatement { at, node })?;
    Ok(Step {
        escapes,
        breaks,
        statement,
    })
}

/// The same, as a rule ends.
pub(crate) fn made(
    alloc: Global,
    escapes: bool,
    breaks: bool,
    at: u32,
    node: StatementNode,
) -> Result<Step, Fail>
    ensures { Keeps (Ok (spec.step escapes breaks at node)) result }
{
    match step(alloc, escapes, breaks, at, node) {
        Ok(step) => Ok(step),
        Err(_) => Err(Fail::NoMemory),
    }
}

/// A statement behind one that escapes, or not.
///
/// Unreachable (12): it is behind one that escapes.
pub fn reached(after: bool, at: u32, x: Step) -> Result<Step, Fail>
    ensures { Keeps (spec.reached after at x) result }
{
    if after {
        return Err(refuse(rules::UNREACHABLE, at));
    }
    Ok(x)
}

fn is_deed(form: Form) -> bool
    ensures { result ≡ spec.is_deed form }
{
    match form {
        Form::Deed => true,
        _ => false,
    }
}

fn is_true(form: Form) -> bool
    ensures { result ≡ spec.is_true form }
{
    match form {
        Form::True => true,
        _ => false,
    }
}

/// An expression whose value is dropped.
///
/// NotAStatement (11): it is no assignment, `++`, `--`, call or `new`.
pub fn deed(alloc: Global, at: u32, x: Part) -> Result<Step, Fail>
    ensures { Keeps (spec.deed at x) result }
{
    if !is_deed(x.form) {
        return Err(refuse(rules::NOT_A_STATEMENT, at));
    }
    let node = StatementNode::Expression(x.into_typed());
    made(alloc, false, false, at, node)
}

fn give_back(alloc: Global, at: u32, to: &Ty, x: Part) -> Result<Step, Fail>
    ensures { Keeps (spec.give_back at to.now x) result }
{
    let value = cast_to(alloc, to, x)?;
    made(alloc, true, false, at, StatementNode::Return(Some(value)))
}

fn is_result(last: bool, x: &Part, state: &State) -> bool
    ensures { result ≡ spec.is_result last x.now state.now }
{
    last && (!is_void(&state.result) && !is_void(x.of()))
}

/// An expression statement, which may be the last of the main script, and then its result.
///
/// NotAStatement (11): it is no result, and no assignment, `++`, `--`, call or `new`. BadCast (9): it is a result of another type.
pub fn expression_of(
    alloc: Global,
    at: u32,
    last: bool,
    x: Part,
    state: &State,
) -> Result<Step, Fail>
    ensures { Keeps (spec.expression_of at last x state.now) result }
{
    if is_result(last, &x, state) {
        give_back(alloc, at, &state.result, x)
    } else {
        deed(alloc, at, x)
    }
}

/// Declares a variable, and gives copies of its name and its type.
fn declared(alloc: Global, name: &Spelled, of: &Ty, state: &mut State) -> Result<(Text, Ty), Fail>
    ensures { KeepsBoth (bind (known.declared name.now.at name.now.spelling of.now state.old) (λ t. Ok ((name.now.spelling, of.now), t))) result state.new }
{
    let own = of.share(alloc)?;
    state.declare(alloc, name.at, &name.spelling, own)?;
    match copies(alloc, &name.spelling, of) {
        Ok(copies) => Ok(copies),
        Err(_) => Err(Fail::NoMemory),
    }
}

/// A variable with its value, which is typed.
///
/// AlreadyDefined (5): its name is in sight.
pub fn variable_of(
    alloc: Global,
    name: &Spelled,
    of: &Ty,
    value: Option<Subtree<Typed>>,
    state: &mut State,
) -> Result<TypedVariable, Fail>
    ensures { KeepsBoth (spec.variable_of name.now of.now value state.old) result state.new }
{
    let at = name.at;
    let (name, of) = declared(alloc, name, of, state)?;
    Ok(TypedVariable {
        at,
        name,
        of,
        value,
    })
}

/// A declaration of some variables.
pub fn declaration_of(
    alloc: Global,
    at: u32,
    variables: Items<TypedVariable>,
) -> Result<Step, AllocError>
    ensures { IfOk result (λ y. y ≡ spec.declaration_of at variables) }
{
    step(alloc, false, false, at, StatementNode::Declare(variables))
}

/// The test of an `if`.
///
/// BadCast (9): it is no boolean.
pub fn test(alloc: Global, x: Part) -> Result<Subtree<Typed>, Fail>
    ensures { Keeps (spec.test x) result }
{
    cast_to_boolean(alloc, x)
}

/// The test of a loop. The literal `true` is none.
///
/// BadCast (9): it is no boolean.
pub fn loop_test(alloc: Global, x: Part) -> Result<Option<Subtree<Typed>>, Fail>
    ensures { Keeps (spec.loop_test x) result }
{
    if is_true(x.form) {
        return Ok(None);
    }
    match cast_to_boolean(alloc, x) {
        Ok(test) => Ok(Some(test)),
        Err(fail) => Err(fail),
    }
}

/// An `if`, whose test is cast.
pub fn if_of(
    alloc: Global,
    at: u32,
    condition: Subtree<Typed>,
    then: Step,
    otherwise: Option<Step>,
) -> Result<Step, AllocError>
    ensures { IfOk result (λ y. y ≡ spec.if_of at condition then otherwise) }
{
    let escapes = then.escapes && escapes_if(&otherwise);
    let breaks = then.breaks || breaks_if(&otherwise);
    let node = StatementNode::If {
        condition,
        then: then.into_statement(),
        otherwise: statement_if(otherwise),
    };
    step(alloc, escapes, breaks, at, node)
}

fn escapes_if(step: &Option<Step>) -> bool
    ensures { result ≡ spec.escapes_if step.now }
{
    match step {
        Some(step) => step.escapes,
        None => false,
    }
}

fn breaks_if(step: &Option<Step>) -> bool
    ensures { result ≡ spec.breaks_if step.now }
{
    match step {
        Some(step) => step.breaks,
        None => false,
    }
}

fn statement_if(step: Option<Step>) -> Option<Subtree<TypedStatement>>
    ensures { result ≡ spec.statement_if step }
{
    match step {
        Some(step) => Some(step.into_statement()),
        None => None,
    }
}

fn is_missing(test: &Option<Subtree<Typed>>) -> bool
    ensures { result ≡ spec.is_missing test.now }
{
    match test {
        Some(_) => false,
        None => true,
    }
}

/// A `while` or a `for`, whose test is cast.
pub fn loop_of(
    alloc: Global,
    at: u32,
    first: Option<Step>,
    condition: Option<Subtree<Typed>>,
    update: Option<Subtree<Typed>>,
    body: Option<Step>,
) -> Result<Step, AllocError>
    ensures { IfOk result (λ y. y ≡ spec.loop_of at first condition update body) }
{
    let escapes = is_missing(&condition) && !breaks_if(&body);
    let node = StatementNode::Loop {
        first: statement_if(first),
        condition,
        update,
        body: statement_if(body),
    };
    step(alloc, escapes, false, at, node)
}

/// A `do`, whose test is cast.
pub fn do_of(
    alloc: Global,
    at: u32,
    body: Step,
    condition: Option<Subtree<Typed>>,
) -> Result<Step, AllocError>
    ensures { IfOk result (λ y. y ≡ spec.do_of at body condition) }
{
    let escapes = is_missing(&condition) && !body.breaks;
    let node = StatementNode::Do {
        body: body.into_statement(),
        condition,
    };
    step(alloc, escapes, false, at, node)
}

/// A `break`.
///
/// BadJump (14): no loop is around.
pub fn break_of(alloc: Global, at: u32, state: &State) -> Result<Step, Fail>
    ensures { Keeps (spec.break_of at state.now) result }
{
    if !state.looped {
        return Err(refuse(rules::BAD_JUMP, at));
    }
    made(alloc, true, true, at, StatementNode::Break)
}

/// A `continue`.
///
/// BadJump (14): no loop is around.
pub fn continue_of(alloc: Global, at: u32, state: &State) -> Result<Step, Fail>
    ensures { Keeps (spec.continue_of at state.now) result }
{
    if !state.looped {
        return Err(refuse(rules::BAD_JUMP, at));
    }
    made(alloc, true, false, at, StatementNode::Continue)
}

/// A `return` with a value.
///
/// BadCast (9): the value has another type, or none is wanted.
pub fn return_of(alloc: Global, at: u32, x: Part, state: &State) -> Result<Step, Fail>
    ensures { Keeps (spec.return_of at x state.now) result }
{
    give_back(alloc, at, &state.result, x)
}

/// A `return` without a value.
///
/// MissingReturn (13): one is wanted.
pub fn nothing_returned(alloc: Global, at: u32, state: &State) -> Result<Step, Fail>
    ensures { Keeps (spec.nothing_returned at state.now) result }
{
    if !is_void(&state.result) {
        return Err(refuse(rules::MISSING_RETURN, at));
    }
    made(alloc, true, false, at, StatementNode::Return(None))
}

/// A `throw`.
///
/// BadCast (9): what is thrown is no exception.
pub fn throw_of(alloc: Global, at: u32, x: Part) -> Result<Step, Fail>
    ensures { Keeps (spec.throw_of at x) result }
{
    let thrown = cast_to(alloc, &Ty::Class(classes::EXCEPTION), x)?;
    made(alloc, true, false, at, StatementNode::Throw(thrown))
}

pub(crate) fn last_escapes(steps: &[Step]) -> bool
    ensures { result ≡ spec.last_escapes steps.now }
{
    match steps.last() {
        Some(step) => step.escapes,
        None => false,
    }
}

fn one_breaks(steps: &[Step]) -> bool
    ensures { result ≡ list_any spec.breaks steps.now }
{
    steps.iter().any(|step| step.breaks)
}

/// The statements of some steps.
pub fn statements_of(
    alloc: Global,
    mut steps: Vec<Step>,
) -> Result<Items<Subtree<TypedStatement>>, AllocError>
    ensures { IfOk result (λ all. all ≡ spec.statements_of steps.items) }
{
    let mut all = Items::new(alloc);
    steps.reverse();
    while let Some(step) = steps.pop() {
        all.push(step.into_statement())?;
    }
    Ok(all)
}

/// A block of statements.
pub fn block_of(alloc: Global, at: u32, steps: Vec<Step>) -> Result<Step, AllocError>
    ensures { IfOk result (λ y. y ≡ spec.block_of at steps.items) }
{
    let escapes = last_escapes(&steps);
    let breaks = one_breaks(&steps);
    let statements = statements_of(alloc, steps)?;
    step(alloc, escapes, breaks, at, StatementNode::Block(statements))
}

/// A catch whose block is typed.
pub fn caught(
    alloc: Global,
    at: u32,
    class: u32,
    name: &Text,
    body: Step,
) -> Result<Caught, AllocError>
    ensures { IfOk result (λ x. x ≡ spec.caught at class name.now body) }
{
    let name = copy(alloc, name)?;
    Ok(Caught {
        at,
        class,
        name,
        body,
    })
}

fn all_escape(catches: &[Caught]) -> bool
    ensures { result ≡ list_all spec.caught_escapes catches.now }
{
    catches.iter().all(|one| one.body.escapes)
}

fn one_caught_breaks(catches: &[Caught]) -> bool
    ensures { result ≡ list_any spec.caught_breaks catches.now }
{
    catches.iter().any(|one| one.body.breaks)
}

/// The catches of some that are typed.
fn catches_of(alloc: Global, mut catches: Vec<Caught>) -> Result<Items<TypedCatch>, AllocError>
    ensures { IfOk result (λ all. all ≡ map spec.catch_of catches.items) }
{
    let mut all = Items::new(alloc);
    catches.reverse();
    while let Some(one) = catches.pop() {
        all.push(one.into_catch())?;
    }
    Ok(all)
}

/// A `try`, whose block and whose catches are typed.
pub fn try_of(alloc: Global, at: u32, body: Step, catches: Vec<Caught>) -> Result<Step, AllocError>
    ensures { IfOk result (λ y. y ≡ spec.try_of at body catches.items) }
{
    let escapes = body.escapes && all_escape(&catches);
    let breaks = body.breaks || one_caught_breaks(&catches);
    let catches = catches_of(alloc, catches)?;
    let node = StatementNode::Try {
        body: body.into_statement(),
        catches,
    };
    step(alloc, escapes, breaks, at, node)
}
